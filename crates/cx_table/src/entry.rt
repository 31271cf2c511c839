//! What is held of one client.

ghost use Rattle.std.specs.Prelude.{◌≡◌, ◌+◌, ◌<◌, ◌≤◌, true, false, Some, None, Option, IsOk, OnOk};
ghost use Rattle.std.specs.Prelude.{length, nat_le, nat_lt, slice_get, vec_capacity, vec_len};
ghost use Rattle.std.specs.List.{list_all};
ghost use Rattle.std.specs.Option.{option_copied};
ghost use Rattle.cx_base.specs.declared.command.Answered.{Answered as Note};
ghost use Rattle.cx_base.specs.Lists.{rises};
ghost use Rattle.cx_base.specs.Noted.{is_done, noted_for, with_note};
ghost use Rattle.cx_table.specs.Entries.{IsPlace, above, are_of, is_lower, max_floor, room_in};
ghost use Rattle.cx_table.specs.Judged.{judge_in};

use crate::judge::Judge;
use cx_base::{Answered, NoMemory};

/// What is held of one client: the greatest floor that it told, and the answers noted for its numbers above that, by
/// rising number. One without a floor is room that was taken before the client's first command.
#[derive(Drop)]
pub struct ClientEntry {
    pub floor: Option<u64>,
    pub notes: Vec<Answered>,
}

// How many answers are to lower numbers.
fn place_of(notes: &[Answered], seq: u64) -> usize
    requires { rises is_lower notes.now ≡ true }
    ensures place { IsPlace seq notes.now result }
    ensures inside { result ≤ length notes.now }
{
    notes.partition_point(|note| note.seq < seq)
}

fn note_at(notes: &[Answered], place: usize) -> Option<&Answered>
    ensures { option_copied result ≡ slice_get notes.now place }
{
    notes.get(place)
}

/// What is noted for a client's number, among its answers.
fn find(notes: &[Answered], client: u16, seq: u64) -> Option<&Answered>
    requires own { are_of client notes.now ≡ true }
    requires rise { rises is_lower notes.now ≡ true }
    ensures { option_copied result ≡ noted_for client seq notes.now }
{
    let note = note_at(notes, place_of(notes, seq))?;
    if note.seq == seq { Some(note) } else { None }
}

/// Whether a client with this floor is done with a number.
fn is_done(floor: Option<u64>, seq: u64) -> bool
    ensures { result ≡ is_done seq floor }
{
    match floor {
        Some(floor) => seq <= floor,
        None => false,
    }
}

/// What a client's entry says of one of its numbers.
pub fn judge(entry: &ClientEntry, client: u16, seq: u64) -> Judge
    requires own { are_of client entry.now.notes.items ≡ true }
    requires rise { rises is_lower entry.now.notes.items ≡ true }
    ensures { result ≡ judge_in entry.now.floor entry.now.notes.items client seq }
{
    if is_done(entry.floor, seq) {
        return Judge::Past;
    }
    match find(entry.notes.as_slice(), client, seq) {
        Some(note) => Judge::Last {
            at: note.at,
            reply: note.reply,
        },
        None => Judge::New,
    }
}

// Whether all answers are to numbers up to a floor.
fn are_up_to(notes: &[Answered], floor: u64) -> bool
    requires { rises is_lower notes.now ≡ true }
    ensures { result ≡ list_all (λ (a : Note). nat_le a.seq floor) notes.now }
{
    match notes.last() {
        Some(note) => note.seq <= floor,
        None => true,
    }
}

// One answer more, in its place. There is room for it.
fn insert(notes: &mut Vec<Answered>, answer: &Answered)
    requires own { are_of answer.now.client notes.old.items ≡ true }
    requires rise { rises is_lower notes.old.items ≡ true }
    requires new { noted_for answer.now.client answer.now.seq notes.old.items ≡ None }
    requires room { vec_len notes.old < vec_capacity notes.old }
    ensures items { notes.new.items ≡ with_note answer.now notes.old.items }
    ensures len { vec_len notes.new ≡ vec_len notes.old + 1 }
    ensures capacity { vec_capacity notes.old ≤ vec_capacity notes.new }
{
    // Most numbers come in their order.
    if are_up_to(notes.as_slice(), answer.seq) {
        notes.push_reserved(*answer);
        return;
    }
    let place = place_of(notes.as_slice(), answer.seq);
    match notes.insert(place, *answer) {
        Ok(()) => {}
        // There is room.
        Err(_) => unreachable!(),
    }
}

// Drops the answers to numbers up to a floor.
fn drop_settled(notes: &mut Vec<Answered>, floor: u64)
    requires { rises is_lower notes.old.items ≡ true }
    ensures items { notes.new.items ≡ above floor notes.old.items }
    ensures len { vec_len notes.new ≤ vec_len notes.old }
    ensures capacity { vec_capacity notes.new ≡ vec_capacity notes.old }
{
    // Most clients are done with all before they ask again.
    if are_up_to(notes.as_slice(), floor) {
        notes.clear();
        return;
    }
    notes.retain(|note| note.seq > floor);
}

// The floor of a client that tells one.
fn max_floor(floor: Option<u64>, told: u64) -> u64
    ensures { result ≡ max_floor floor told }
{
    match floor {
        Some(floor) => floor.max(told),
        None => told,
    }
}

/// Makes room for `count` more answers. Out of memory, nothing changes.
pub fn make_room(entry: &mut ClientEntry, count: usize) -> Result<(), NoMemory>
    ensures floor { entry.new.floor ≡ entry.old.floor }
    ensures notes { entry.new.notes.items ≡ entry.old.notes.items }
    ensures room { OnOk result (count ≤ room_in (Some entry.new)) }
    ensures grows { room_in (Some entry.old) ≤ room_in (Some entry.new) }
    ensures succeeds { count ≤ room_in (Some entry.old) → IsOk result }
{
    entry.notes.reserve(count)?;
    Ok(())
}

/// The client tells a floor.
pub fn tell(entry: &mut ClientEntry, floor: u64)
    requires { rises is_lower entry.old.notes.items ≡ true }
    ensures floor { entry.new.floor ≡ Some (max_floor entry.old.floor floor) }
    ensures notes { entry.new.notes.items ≡ above floor entry.old.notes.items }
    ensures len { vec_len entry.new.notes ≤ vec_len entry.old.notes }
    ensures capacity { vec_capacity entry.new.notes ≡ vec_capacity entry.old.notes }
{
    entry.floor = Some(max_floor(entry.floor, floor));
    drop_settled(&mut entry.notes, floor);
}

/// The client's new number is answered, and tells a floor. There is room for its answer.
pub fn note(entry: &mut ClientEntry, answer: &Answered, floor: u64)
    requires own { are_of answer.now.client entry.old.notes.items ≡ true }
    requires rise { rises is_lower entry.old.notes.items ≡ true }
    requires new { noted_for answer.now.client answer.now.seq entry.old.notes.items ≡ None }
    requires room { vec_len entry.old.notes < vec_capacity entry.old.notes }
    ensures floor { entry.new.floor ≡ Some (max_floor entry.old.floor floor) }
    ensures notes { entry.new.notes.items
        ≡ above floor (with_note answer.now entry.old.notes.items) }
    ensures len { vec_len entry.new.notes ≤ vec_len entry.old.notes + 1 }
    ensures capacity { vec_capacity entry.old.notes ≤ vec_capacity entry.new.notes }
{
    tell(entry, floor);
    // A client isn't done with the number that it tells the floor with.
    if answer.seq > floor {
        insert(&mut entry.notes, answer);
    }
}
