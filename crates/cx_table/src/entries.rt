//! Where a client's entry is, and room for its answers.

ghost use Rattle.std.specs.Prelude.{◌≡◌, ◌<◌, ◌≤◌, nat_eq, None, IfNone, IfOk, IfSome, IsOk};
ghost use Rattle.indexmap.specs.IndexMap.{get, IsUnique};
ghost use Rattle.cx_base.specs.Noted.{Table};
ghost use Rattle.cx_table.specs.Entries.{IsEntryAt, AreClientEntries, IsRoomAt, rooms_in};
ghost use Rattle.cx_table.specs.State.{KeepsRoom, room_for};

use crate::entry::{ClientEntry, make_room};
use cx_base::NoMemory;
use indexmap::IndexMap;
use std::alloc::Global;

/// The place of a client's entry.
pub fn place_of(entries: &IndexMap<u16, ClientEntry>, client: u16) -> Option<usize>
    ensures place { IfSome result (λ place. IsEntryAt client entries.now.entries place) }
    ensures none { IfNone result (get nat_eq entries.now client ≡ None) }
    ensures unique { IsUnique nat_eq entries.now }
{
    let _len = entries.len();
    let (place, _, _) = entries.get_full(&client)?;
    Some(place)
}

/// Makes room for `count` more answers of a client, and gives the place of its entry.
pub fn room_at(
    entries: &mut IndexMap<u16, ClientEntry>,
    alloc: Global,
    client: u16,
    count: usize,
) -> Result<usize, NoMemory>
    ensures place { IfOk result (λ place. IsRoomAt client count entries.new.entries place) }
    ensures still { (t : Table) → AreClientEntries t entries.old.entries
        → AreClientEntries t entries.new.entries }
    ensures room { KeepsRoom (rooms_in entries.old.entries) (rooms_in entries.new.entries) }
    ensures succeeds { 0 < count → count ≤ room_for client (rooms_in entries.old.entries)
        → IsOk result }
    ensures unique { IsUnique nat_eq entries.new }
{
    if let Some(place) = place_of(entries, client) {
        make_room(&mut entries[place], count)?;
        return Ok(place);
    }
    let notes = Vec::with_capacity(alloc, count)?;
    let (place, _) = entries.insert_full(client, ClientEntry { floor: None, notes })?;
    Ok(place)
}
