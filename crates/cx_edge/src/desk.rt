//! Which stores are out, and how often each role was failed.

ghost use Rattle.std.specs.Prelude.{◌≡◌, ◌<◌, ◌++◌, [], ◌∷◌, true, false, map, IfOk};
ghost use Rattle.std.specs.List.{list_any, position};
ghost use Rattle.cx_edge.specs.Depot.{without};
ghost use Rattle.cx_edge.specs.Desk.{of_role, no_faults, with_faults, plus};
ghost use Rattle.cx_edge.specs.Shelf.{same_shelf};

use crate::Shelf;
use crate::rows::CountRow;
use cx_base::{NoMemory, RoleId};
use std::alloc::Global;
use std::marker::Model;

/// Counts faults for each of its roles, and keeps a list of the stores that are out.
#[derive(Drop)]
pub(crate) struct Desk {
    counts: Vec<CountRow>,
    out: Vec<Shelf>,
}

impl Model for Desk {
    ghost use Rattle.std.specs.Prelude.{◌-◌, vec_len, vec_capacity};
    ghost use Rattle.cx_edge.specs.Desk.{DeskState};

    ghost Value = { DeskState };

    ghost view = { λ d. record {
      counts = d.counts.items;
      out = d.out.items;
      room = vec_capacity d.out - vec_len d.out;
    } };
}

fn row_of(rows: &[CountRow], role: RoleId) -> Option<usize>
    ensures { result ≡ position (of_role role) rows.now }
{
    rows.iter().position(|row| role.is(row.role))
}

fn index_of(places: &[Shelf], place: Shelf) -> Option<usize>
    ensures { result ≡ position (same_shelf place) places.now }
{
    places.iter().position(|other| place.is(*other))
}

fn is_among(places: &[Shelf], place: Shelf) -> bool
    ensures { result ≡ list_any (same_shelf place) places.now }
{
    places.iter().any(|other| place.is(*other))
}

/// Adds to the count of a role, if it has one.
fn count(rows: &mut Vec<CountRow>, role: RoleId, faults: u64)
    ensures { rows.new.items ≡ with_faults role faults rows.old.items }
{
    match row_of(rows, role) {
        Some(at) => rows[at] = added(rows[at], faults),
        None => {}
    }
}

fn added(row: CountRow, faults: u64) -> CountRow
    ensures { result ≡ record row { count = plus row.count faults } }
{
    CountRow {
        role: row.role,
        count: row.count.saturating_add(faults),
    }
}

/// Takes a place out of the list.
fn remove(places: &mut Vec<Shelf>, place: Shelf)
    ensures { places.new.items ≡ without place places.old.items }
{
    match index_of(places, place) {
        Some(at) => {
            places.remove(at);
        }
        None => {}
    }
}

impl Desk {
    /// No store out, and no faults. All memory is taken here, for so many stores that are out at once.
    pub(crate) fn new(alloc: Global, roles: &[RoleId], room: usize) -> Result<Self, NoMemory>
        ensures counts { IfOk result (λ desk. desk.counts ≡ map no_faults roles.now) }
        ensures out { IfOk result (λ desk. desk.out ≡ []) }
    {
        let mut counts = Vec::with_capacity(alloc, roles.len())?;
        for role in roles {
            counts.push(CountRow {
                role: *role,
                count: 0,
            })?;
        }
        Ok(Desk {
            counts,
            out: Vec::with_capacity(alloc, room)?,
        })
    }

    /// Whether the store is of one of the desk's roles, isn't out, and there is room to note that it is.
    pub(crate) fn can_hand_out(&self, place: Shelf) -> bool
        ensures room { result ≡ true → 0 < self.now.room }
        ensures once { result ≡ true → list_any (same_shelf place) self.now.out ≡ false }
    {
        row_of(&self.counts, place.role).is_some()
            && !is_among(&self.out, place)
            && self.out.len() < self.out.capacity()
    }

    /// Notes that the store is out.
    pub(crate) fn hand_out(&mut self, place: Shelf)
        requires { 0 < self.old.room }
        ensures counts { self.new.counts ≡ self.old.counts }
        ensures out { self.new.out ≡ self.old.out ++ place ∷ [] }
    {
        self.out.push_reserved(place);
    }

    /// Counts one fault of the role.
    pub(crate) fn fail(&mut self, role: RoleId)
        ensures counts { self.new.counts ≡ with_faults role 1 self.old.counts }
        ensures out { self.new.out ≡ self.old.out }
    {
        count(&mut self.counts, role, 1);
    }

    /// Notes that the store is back, and has failed so often.
    pub(crate) fn take_back(&mut self, place: Shelf, faults: u64)
        ensures counts { self.new.counts ≡ with_faults place.role faults self.old.counts }
        ensures out { self.new.out ≡ without place self.old.out }
    {
        count(&mut self.counts, place.role, faults);
        remove(&mut self.out, place);
    }
}
