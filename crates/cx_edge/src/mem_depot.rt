//! A depot in memory: its disks, and a list of the openings that fail.

ghost use Rattle.std.specs.Prelude.{◌≡◌, [], true, map, IfOk, IfSome};
ghost use Rattle.cx_disk.specs.MemDiskViews.{mem_disk_bytes};
ghost use Rattle.cx_base.specs.declared.role.RoleId.{RoleId};
ghost use Rattle.cx_edge.specs.Depot.{first_faults};
ghost use Rattle.cx_edge.specs.Held.{store_of, shelf_role};
ghost use Rattle.cx_edge.specs.MemDepot.{depot_held, depot_out, depot_faults};
ghost use Rattle.cx_edge.specs.Shelf.{shelf};

use crate::desk::Desk;
use crate::memory::is_failing;
use crate::slot::Slot;
use crate::slots::{hand_out, put_back, roles_of, slots_for, store_in};
use crate::{CountedDisk, Depot, Shelf};
use cx_base::{NoMemory, RoleId};
use cx_disk::{Failed, MemDisk};
use std::alloc::Global;
use std::marker::Model;

/// Keeps disks in memory. A disk is synced when it is handed out, so that a crash then leaves what it holds.
#[derive(Drop)]
pub struct MemDepot {
    slots: Vec<Slot>,
    desk: Desk,
    failing: Vec<u64>,
    call: u64,
}

impl Model for MemDepot {
    ghost use Rattle.std.specs.Prelude.{map};
    ghost use Rattle.cx_edge.specs.MemDepot.{DepotState, OutHaveStores};
    ghost use Rattle.cx_edge.specs.Slot.{slot_held};

    ghost Value = { DepotState };

    ghost view = { λ d.
        record { stores = map slot_held d.slots.items; counts = d.desk.counts; out = d.desk.out } };

    ghost invariant = { λ d. OutHaveStores d.desk.out (map slot_held d.slots.items) };
}

impl MemDepot {
    /// The depot of these stores, each in a place of its own, none of them out. Openings are counted from 0, and those with
    /// the numbers in `failing` fail; so does that of a place without a store, and of a disk that can't be synced or holds more
    /// bytes than `room`. All memory is taken here, none by a call: so much room is kept for each store beside it, for what it
    /// held.
    #[tactic(auto, using(crate::proofs::DeskLaws::count_first))]
    pub fn new(
        alloc: Global,
        stores: Vec<(Shelf, MemDisk)>,
        room: usize,
        failing: Vec<u64>,
    ) -> Result<Self, NoMemory>
        ensures stores { IfOk result (λ depot. depot.stores ≡ map store_of stores.items) }
        ensures faults { IfOk result (λ depot. (role : RoleId)
            → depot_faults depot role ≡ first_faults role (map shelf_role stores.items)) }
        ensures out { IfOk result (λ depot. depot.out ≡ []) }
    {
        let roles = roles_of(alloc, &stores)?;
        let desk = Desk::new(alloc, &roles, stores.len())?;
        Ok(MemDepot {
            slots: slots_for(alloc, stores, room)?,
            desk,
            failing,
            call: 0,
        })
    }

    /// The store on a side of a role, while it isn't out.
    pub fn store(&self, role: RoleId, side: u8) -> Option<&MemDisk>
        ensures { IfSome result
            (λ disk. mem_disk_bytes disk.now ≡ depot_held self.now (shelf role side)) }
    {
        store_in(&self.slots, Shelf::new(role, side))
    }
}

impl Depot for MemDepot {
    type Store = CountedDisk<MemDisk>;

    ghost tells = { λ d. true };

    ghost stored = { depot_held };

    ghost out = { depot_out };

    ghost faults = { depot_faults };

    #[tactic(auto, using(crate::proofs::DeskLaws::count_rises, crate::proofs::DeskLaws::count_later, crate::proofs::DeskLaws::count_other))]
    fn open(&mut self, role: RoleId, side: u8) -> Result<CountedDisk<MemDisk>, Failed> {
        let place = Shelf::new(role, side);
        let call = self.call;
        self.call = call.saturating_add(1);
        if !is_failing(&self.failing, call) && self.desk.can_hand_out(place) {
            if let Some(disk) = hand_out(&mut self.slots, place) {
                self.desk.hand_out(place);
                return Ok(CountedDisk::new(disk));
            }
        }
        self.desk.fail(role);
        Err(Failed)
    }

    #[tactic(auto, using(crate::proofs::DeskLaws::count_rises, crate::proofs::DeskLaws::count_later, crate::proofs::DeskLaws::count_other, crate::proofs::DeskLaws::count_none))]
    fn close(&mut self, role: RoleId, side: u8, store: CountedDisk<MemDisk>) {
        let place = Shelf::new(role, side);
        let (disk, faults) = store.into_parts();
        put_back(&mut self.slots, place, disk);
        self.desk.take_back(place, faults);
    }
}
