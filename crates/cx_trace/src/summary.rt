//! The last lines of a run.

ghost use Rattle.std.specs.Prelude.{◌≡◌, ◌++◌, length, take, OnErr, OnOk};
ghost use Rattle.cx_trace.specs.Summary.{chosen_text, replica_text};

use crate::pieces::{put, put_number, put_role_at, undo_part};
use cx_base::{Kind, NoMemory};
use cx_kv::Store;

/// What a replica kept: how many slots it holds, and the map that they leave.
#[derive(Drop)]
pub struct Folded {
    pub held: u64,
    pub store: Store,
}

#[tactic(auto, unfolding(crate::specs::Summary::chosen_text))]
fn put_chosen(text: &mut Vec<u8>, count: u64) -> Result<(), NoMemory>
    ensures ok { OnOk result (text.new.items ≡ text.old.items ++ chosen_text count) }
    ensures err { OnErr result (take (length text.old.items) text.new.items ≡ text.old.items) }
{
    put(text, b"chosen ")?;
    put_number(text, count)?;
    put(text, b"\n")
}

#[tactic(auto, unfolding(crate::specs::Summary::replica_text))]
fn put_replica(text: &mut Vec<u8>, place: u64, folded: &Folded) -> Result<(), NoMemory>
    ensures ok { OnOk result (text.new.items ≡ text.old.items ++ replica_text place folded.now) }
    ensures err { OnErr result (take (length text.old.items) text.new.items ≡ text.old.items) }
{
    put_role_at(text, Kind::Replica, place)?;
    put(text, b" held ")?;
    put_number(text, folded.held)?;
    folded.store.print_into(text)?;
    put(text, b"\n")
}

/// Appends the first line of the summary of a run (this project's own format): how many values are chosen. An `Err` appends
/// nothing.
pub fn chosen_into(count: u64, out: &mut Vec<u8>) -> Result<(), NoMemory>
    ensures ok { OnOk result (out.new.items ≡ out.old.items ++ chosen_text count) }
    ensures err { OnErr result (out.new.items ≡ out.old.items) }
{
    let length = out.len();
    let done = put_chosen(out, count);
    undo_part(done, out, length)
}

/// Appends the line of a replica (this project's own format): how many slots it holds, and its map. An `Err` appends nothing.
pub fn replica_into(place: u64, folded: &Folded, out: &mut Vec<u8>) -> Result<(), NoMemory>
    ensures ok { OnOk result (out.new.items ≡ out.old.items ++ replica_text place folded.now) }
    ensures err { OnErr result (out.new.items ≡ out.old.items) }
{
    let length = out.len();
    let done = put_replica(out, place, folded);
    undo_part(done, out, length)
}
