//! Stores in memory are handed out, and come back.

ghost use Rattle.std.specs.Prelude.{◌≡◌, true, map, IfSome, IfOk};
ghost use Rattle.std.specs.List.{position};
ghost use Rattle.cx_disk.specs.Disk.{Only};
ghost use Rattle.cx_disk.specs.MemDiskViews.{mem_disk_bytes, IsCrashImage};
ghost use Rattle.cx_edge.specs.Held.{shelf_bytes, has_store, with_bytes, store_of, shelf_role};
ghost use Rattle.cx_edge.specs.Slot.{slot_held, is_slot_at};

use crate::Shelf;
use crate::slot::Slot;
use cx_base::{NoMemory, RoleId};
use cx_disk::{Disk, MemDisk};
use std::alloc::Global;

fn slot_at(slots: &[Slot], place: Shelf) -> Option<usize>
    ensures { result ≡ position (is_slot_at place) slots.now }
{
    slots.iter().position(|slot| place.is(slot.place))
}

/// Syncs the disk, so that a crash leaves what it holds, and copies that into room that is there.
fn settled(disk: &mut MemDisk, before: &mut Vec<u8>) -> bool
    ensures bytes { mem_disk_bytes disk.new ≡ mem_disk_bytes disk.old }
    ensures durable { result ≡ true → Only (mem_disk_bytes disk.old) (IsCrashImage disk.new) }
    ensures before { result ≡ true → before.new.items ≡ mem_disk_bytes disk.old }
{
    if disk.sync().is_err() || disk.bytes().len() > before.capacity() {
        return false;
    }
    before.clear();
    before.extend_from_slice(disk.bytes()).unwrap();
    true
}

/// Hands out the store of one slot.
fn handed_from(slot: &mut Slot) -> Option<MemDisk>
    ensures stored { slot_held slot.new ≡ slot_held slot.old }
    ensures bytes { IfSome result (λ disk. mem_disk_bytes disk ≡ (slot_held slot.old).bytes) }
    ensures durable { IfSome result (λ disk. Only (slot_held slot.old).bytes (IsCrashImage disk)) }
{
    match slot.disk.take() {
        None => None,
        Some(mut disk) => {
            if settled(&mut disk, &mut slot.before) {
                Some(disk)
            } else {
                slot.disk = Some(disk);
                None
            }
        }
    }
}

/// Hands out the store in a place, unless there is none, it is out, can't be synced, or holds more than the room for a copy.
pub(crate) fn hand_out(slots: &mut Vec<Slot>, place: Shelf) -> Option<MemDisk>
    ensures stored { map slot_held slots.new.items ≡ map slot_held slots.old.items }
    ensures known { IfSome result (λ disk. has_store place (map slot_held slots.old.items) ≡ true) }
    ensures bytes { IfSome result
        (λ disk. mem_disk_bytes disk ≡ shelf_bytes (map slot_held slots.old.items) place) }
    ensures durable { IfSome result
        (λ disk. Only (shelf_bytes (map slot_held slots.old.items) place) (IsCrashImage disk)) }
{
    match slot_at(slots, place) {
        None => None,
        Some(at) => handed_from(&mut slots[at]),
    }
}

/// Puts a store back in its place, if there is one.
pub(crate) fn put_back(slots: &mut Vec<Slot>, place: Shelf, disk: MemDisk)
    ensures { map slot_held slots.new.items
        ≡ with_bytes place (mem_disk_bytes disk) (map slot_held slots.old.items) }
{
    match slot_at(slots, place) {
        None => {}
        Some(at) => slots[at].disk = Some(disk),
    }
}

/// The store of one slot.
fn shown(slot: &Slot) -> Option<&MemDisk>
    ensures { IfSome result (λ disk. mem_disk_bytes disk.now ≡ (slot_held slot.now).bytes) }
{
    match &slot.disk {
        None => None,
        Some(disk) => Some(disk),
    }
}

/// The store in a place, while it isn't out.
pub(crate) fn store_in(slots: &[Slot], place: Shelf) -> Option<&MemDisk>
    ensures { IfSome result
        (λ disk. mem_disk_bytes disk.now ≡ shelf_bytes (map slot_held slots.now) place) }
{
    match slot_at(slots, place) {
        None => None,
        Some(at) => shown(&slots[at]),
    }
}

/// The roles of the stores, one for each store.
pub(crate) fn roles_of(alloc: Global, stores: &[(Shelf, MemDisk)]) -> Result<Vec<RoleId>, NoMemory>
    ensures { IfOk result (λ roles. roles.items ≡ map shelf_role stores.now) }
{
    let mut roles = Vec::with_capacity(alloc, stores.len())?;
    for store in stores {
        roles.push(store.0.role)?;
    }
    Ok(roles)
}

/// A place for each store, with room for a copy of `room` bytes.
pub(crate) fn slots_for(
    alloc: Global,
    stores: Vec<(Shelf, MemDisk)>,
    room: usize,
) -> Result<Vec<Slot>, NoMemory>
    ensures { IfOk result (λ slots. map slot_held slots.items ≡ map store_of stores.items) }
{
    let mut slots = Vec::with_capacity(alloc, stores.len())?;
    for (place, disk) in stores {
        slots.push(Slot {
            place,
            disk: Some(disk),
            before: Vec::with_capacity(alloc, room)?,
        })?;
    }
    Ok(slots)
}
