//! What the types of fields say of their ranges. These calls do nothing when they run; they give their caller a fact.

ghost use Rattle.std.specs.Prelude.{◌≡◌, ◌<◌, ◌≤◌, ◌^◌, ℕ, length, slice_index, IsTrue};
ghost use Rattle.cx_base.specs.Asked.{floor_fits};
ghost use Rattle.cx_base.specs.Grid.{IsGrid};
ghost use Rattle.cx_base.specs.Name.{IsName};
ghost use Rattle.cx_field.specs.Fields as field;
ghost use Rattle.cx_field.specs.Fields.{goes_with};
ghost use Rattle.cx_field.specs.Ranges.{is_text_len, op_in_range};

use crate::parts::NackReason;
use cx_base::{Command, Grid, Name, Op, Reply, Round, Set, Text};

// Ids take two bytes.
fn ids_fit(ids: &[u16])
    ensures { (i : ℕ) → slice_index ids.now i < 65536 }
{}

// A client takes two bytes, and its number eight.
fn numbers_fit(client: u16, number: u64)
    ensures client { client < 65536 }
    ensures number { number < 2 ^ 64 }
{}

/// Each grid has a spelling.
pub fn grid_fits(grid: &Grid)
    ensures { IsTrue (field.grid.fits grid.now) }
{
    ids_fit(grid.members());
}

/// Each set of matchmakers has a spelling.
pub fn set_fits(set: &Set)
    ensures { IsTrue (field.set.fits set.now) }
{
    ids_fit(set.ids());
}

/// A set has a spelling behind the round in which it was accepted, where it is empty exactly if there is no round.
pub fn accepted_set_fits(accepted: &Round, set: &Set)
    requires { IsTrue (goes_with accepted.now (length set.now)) }
    ensures { IsTrue ((field.accepted_set accepted.now).fits set.now) }
{
    ids_fit(set.ids());
}

/// Each key and each text has a spelling.
pub fn name_fits<const N: usize>(name: &Name<N>)
    requires { N ≤ 255 }
    ensures { IsTrue ((field.name N).fits name.now) }
{
    let _bytes = name.as_bytes();
}

// Each key and each text has a spelling.
fn op_fits(op: &Op)
    ensures { IsTrue (op_in_range op.now) }
{
    match op {
        Op::Put(key, text) | Op::App(key, text) => {
            name_fits(key);
            name_fits(text);
        }
        Op::Del(key) => name_fits(key),
    }
}

/// A command has a spelling, where its floor fits its number.
pub fn command_fits(command: &Command)
    requires { IsTrue (floor_fits command.now.seq command.now.floor) }
    ensures { IsTrue (field.command.fits command.now) }
{
    numbers_fit(command.client, command.seq);
    op_fits(&command.op);
}

/// What a read found has a spelling.
#[tactic(auto, unfolding(crate::specs::Fields::found))]
pub fn found_fits(found: &Option<Text>)
    ensures { IsTrue (field.found.fits found.now) }
{
    match found {
        Some(text) => name_fits(text),
        None => {}
    }
}

/// Each reason of a refusal has a spelling.
#[tactic(auto, unfolding(crate::specs::Fields::reason))]
pub fn reason_fits(reason: NackReason)
    ensures { IsTrue (field.reason.fits reason) }
{
    match reason {
        NackReason::Collected | NackReason::Later | NackReason::Full => {}
    }
}

/// A reply has a spelling, where a length in it is that of a text, 1 to 64.
#[tactic(auto, unfolding(crate::specs::Fields::reply, crate::specs::Fields::reply_len, cx_wire::specs::Format::u8))]
pub fn reply_fits(reply: &Reply)
    requires { IsTrue (is_text_len reply.now) }
    ensures { IsTrue (field.reply.fits reply.now) }
{
    match reply {
        Reply::Was(text) => name_fits(text),
        Reply::Okay | Reply::Absent | Reply::Len(_) | Reply::Full => {}
    }
}
