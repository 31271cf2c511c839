//! The bodies of messages on sets of matchmakers, read from the start of bytes.

ghost use Rattle.std.specs.Prelude.{◌≡◌};
ghost use Rattle.cx_wire.specs.Format as wire;
ghost use Rattle.cx_field.specs.Fields as field;
ghost use Rattle.cx_letter.specs.Messages as message;
ghost use Rattle.cx_letter.specs.Records as records;
ghost use Rattle.cx_field.specs.Reading.{Gives};

use cx_field::{
    ByteReader, ReadFault, accepted_set_from, entries_from, joined_from, round_from, round0_from,
    set_from,
};
use cx_letter::Msg;
use std::alloc::Global;

pub fn stop_a_from(reader: &mut ByteReader<'_>) -> Result<Msg, ReadFault>
    ensures { Gives (λ m. m) result ((wire.case 30 field.round (λ x. Msg.StopA x)).read reader.old)
        reader.new }
{
    let round = round_from(reader)?;
    Ok(Msg::StopA { round })
}

#[tactic(auto, unfolding(cx_letter::specs::Messages::stop_b))]
pub fn stop_b_from(alloc: Global, reader: &mut ByteReader<'_>) -> Result<Msg, ReadFault>
    ensures { Gives (λ m. m) result
        ((wire.case 31 message.stop_b
        (λ x. Msg.StopB x.0 x.1.0 x.1.1.0 x.1.1.1.0 x.1.1.1.1)).read reader.old) reader.new }
{
    let round = round_from(reader)?;
    let watermark = round0_from(reader)?;
    let entries = entries_from(alloc, reader)?;
    let accepted = round0_from(reader)?;
    let set = accepted_set_from(alloc, &accepted, reader)?;
    Ok(Msg::StopB {
        round,
        watermark,
        entries,
        accepted,
        set,
    })
}

#[tactic(auto, unfolding(cx_letter::specs::Messages::nack))]
pub fn stop_nack_from(reader: &mut ByteReader<'_>) -> Result<Msg, ReadFault>
    ensures { Gives (λ m. m) result
        ((wire.case 32 message.nack (λ x. Msg.StopNack x.0 x.1)).read reader.old) reader.new }
{
    let round = round_from(reader)?;
    let other = round_from(reader)?;
    Ok(Msg::StopNack { round, other })
}

pub fn next_a_from(alloc: Global, reader: &mut ByteReader<'_>) -> Result<Msg, ReadFault>
    ensures { Gives (λ m. m) result
        ((wire.case 33 records.round_set (λ x. Msg.NextA x.0 x.1)).read reader.old) reader.new }
{
    let round = round_from(reader)?;
    let set = set_from(alloc, reader)?;
    Ok(Msg::NextA { round, set })
}

pub fn next_b_from(reader: &mut ByteReader<'_>) -> Result<Msg, ReadFault>
    ensures { Gives (λ m. m) result ((wire.case 34 field.round (λ x. Msg.NextB x)).read reader.old)
        reader.new }
{
    let round = round_from(reader)?;
    Ok(Msg::NextB { round })
}

pub fn boot_a_from(alloc: Global, reader: &mut ByteReader<'_>) -> Result<Msg, ReadFault>
    ensures { Gives (λ m. m) result
        ((wire.case 35 records.boot (λ x. Msg.BootA x.0 x.1.0 x.1.1)).read reader.old) reader.new }
{
    let set = set_from(alloc, reader)?;
    let watermark = round0_from(reader)?;
    let entries = joined_from(alloc, reader)?;
    Ok(Msg::BootA {
        set,
        watermark,
        entries,
    })
}

pub fn boot_b_from(alloc: Global, reader: &mut ByteReader<'_>) -> Result<Msg, ReadFault>
    ensures { Gives (λ m. m) result ((wire.case 36 field.set (λ x. Msg.BootB x)).read reader.old)
        reader.new }
{
    let set = set_from(alloc, reader)?;
    Ok(Msg::BootB { set })
}

pub fn sets_from(alloc: Global, reader: &mut ByteReader<'_>) -> Result<Msg, ReadFault>
    ensures { Gives (λ m. m) result ((wire.case 37 field.set (λ x. Msg.Sets x)).read reader.old)
        reader.new }
{
    let set = set_from(alloc, reader)?;
    Ok(Msg::Sets { set })
}
