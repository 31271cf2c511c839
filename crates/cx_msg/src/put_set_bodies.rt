//! The bodies of messages on sets of matchmakers, appended to bytes.

ghost use Rattle.std.specs.Prelude.{◌≡◌, ◌≤◌, ◌+◌, ◌++◌, OnOk};
ghost use Rattle.cx_field.specs.Fields as field;
ghost use Rattle.cx_letter.specs.Messages as message;
ghost use Rattle.cx_letter.specs.Records as records;
ghost use Rattle.cx_wire.specs.Format.{Appends, then_by};

use cx_base::{NoMemory, Round, Set};
use cx_field::{Entries, put_entries, put_round, put_set};

fn put_accepted(out: &mut Vec<u8>, accepted: &Round, set: &Set) -> Result<(), NoMemory>
    ensures { OnOk result (Appends (then_by field.round0 field.accepted_set) (accepted.now, set.now)
        25 out.old.items out.new.items) }
{
    put_round(out, accepted)?;
    put_set(out, set)
}

#[tactic(auto, unfolding(cx_letter::specs::Messages::stop_b))]
pub fn put_stop_b(
    out: &mut Vec<u8>,
    round: &Round,
    watermark: &Round,
    entries: &Entries,
    accepted: &Round,
    set: &Set,
) -> Result<(), NoMemory>
    ensures { OnOk result (Appends message.stop_b
        (round.now, (watermark.now, (entries.now, (accepted.now, set.now)))) 11266 out.old.items
        out.new.items) }
{
    put_round(out, round)?;
    put_round(out, watermark)?;
    put_entries(out, entries)?;
    put_accepted(out, accepted, set)
}

pub fn put_round_set(out: &mut Vec<u8>, round: &Round, set: &Set) -> Result<(), NoMemory>
    ensures { OnOk result
        (Appends records.round_set (round.now, set.now) 25 out.old.items out.new.items) }
{
    put_round(out, round)?;
    put_set(out, set)
}

/// Appends a set, a watermark and entries.
pub fn put_boot(
    out: &mut Vec<u8>,
    set: &Set,
    watermark: &Round,
    entries: &Entries,
) -> Result<(), NoMemory>
    ensures { OnOk result (Appends records.boot (set.now, (watermark.now, entries.now)) 11246
        out.old.items out.new.items) }
{
    put_set(out, set)?;
    put_round(out, watermark)?;
    put_entries(out, entries)
}
