//! The bodies of messages, read from the start of bytes.

ghost use Rattle.std.specs.Prelude.{◌≡◌, length};
ghost use Rattle.cx_wire.specs.Format as wire;
ghost use Rattle.cx_field.specs.Fields as field;
ghost use Rattle.cx_field.specs.Fields.{in_window};
ghost use Rattle.cx_letter.specs.Messages as message;
ghost use Rattle.cx_letter.specs.Records as records;
ghost use Rattle.cx_field.specs.Reading.{Gives, Reads};

use crate::read_bodies::{
    match_read_ack_from, match_read_from, pre_read_ack_from, pre_read_from, read_answer_from,
    read_from, read_req_from, sess_read_from,
};
use crate::set_bodies::{
    boot_a_from, boot_b_from, next_a_from, next_b_from, sets_from, stop_a_from, stop_b_from,
    stop_nack_from,
};
use cx_base::WINDOW;
use cx_field::{
    ByteReader, ReadFault, answers_from, at_from, command_from, commands_from, entries_from,
    grid_from, mark_from, reason_from, reply_from, round_from, round0_from, seq_from, slot_from,
    value_from, votes_from,
};
use cx_letter::Msg;
use std::alloc::Global;

/// Reads the body of a message of this kind, in which commands may tell their floors or may not.
#[tactic(auto, unfolding(cx_letter::specs::Messages::cases_with))]
pub fn body_from(
    kind: u8,
    alloc: Global,
    floors: bool,
    reader: &mut ByteReader<'_>,
) -> Result<Msg, ReadFault>
    ensures { Gives (λ m. m) result
        (wire.by_tag (message.cases_with floors) kind (length reader.old) reader.old) reader.new }
{
    match kind {
        1 => submit_from(floors, reader),
        2 => batch_from(alloc, floors, reader),
        3 => leads_from(reader),
        4 => match_a_from(alloc, reader),
        5 => match_b_from(alloc, reader),
        6 => match_nack_from(reader),
        7 => phase1a_from(reader),
        8 => phase1b_from(alloc, floors, reader),
        9 => nack_from(reader),
        10 => propose_from(alloc, floors, reader),
        11 => phase2a_from(alloc, floors, reader),
        12 => phase2b_from(reader),
        13 => chosen_from(alloc, floors, reader),
        14 => chosen_in_from(reader),
        15 => results_from(alloc, reader),
        16 => answer_from(reader),
        17 => held_from(reader),
        18 => fetch_from(reader),
        19 => inform_from(reader),
        20 => informed_from(reader),
        21 => garbage_a_from(alloc, reader),
        22 => garbage_b_from(reader),
        23 => read_req_from(reader),
        24 => match_read_from(reader),
        25 => match_read_ack_from(alloc, reader),
        26 => pre_read_from(reader),
        27 => pre_read_ack_from(reader),
        28 => read_from(reader),
        29 => read_answer_from(reader),
        30 => stop_a_from(reader),
        31 => stop_b_from(alloc, reader),
        32 => stop_nack_from(reader),
        33 => next_a_from(alloc, reader),
        34 => next_b_from(reader),
        35 => boot_a_from(alloc, reader),
        36 => boot_b_from(alloc, reader),
        37 => sets_from(alloc, reader),
        38 => sess_read_from(reader),
        _ => Err(ReadFault::Bad {
            left: reader.left(),
        }),
    }
}

fn submit_from(floors: bool, reader: &mut ByteReader<'_>) -> Result<Msg, ReadFault>
    ensures { Gives (λ m. m) result
        ((wire.case 1 (field.command_with floors) (λ x. Msg.Submit x)).read reader.old) reader.new }
{
    let command = command_from(floors, reader)?;
    Ok(Msg::Submit { command })
}

fn batch_from(alloc: Global, floors: bool, reader: &mut ByteReader<'_>) -> Result<Msg, ReadFault>
    ensures { Gives (λ m. m) result
        ((wire.case 2 (field.commands_with floors) (λ x. Msg.Batch x)).read reader.old) reader.new }
{
    let commands = commands_from(alloc, floors, reader)?;
    Ok(Msg::Batch { commands })
}

fn leads_from(reader: &mut ByteReader<'_>) -> Result<Msg, ReadFault>
    ensures { Gives (λ m. m) result ((wire.case 3 field.round (λ x. Msg.Leads x)).read reader.old)
        reader.new }
{
    let round = round_from(reader)?;
    Ok(Msg::Leads { round })
}

fn match_a_from(alloc: Global, reader: &mut ByteReader<'_>) -> Result<Msg, ReadFault>
    ensures { Gives (λ m. m) result
        ((wire.case 4 records.round_grid (λ x. Msg.MatchA x.0 x.1)).read reader.old) reader.new }
{
    let round = round_from(reader)?;
    let grid = grid_from(alloc, reader)?;
    Ok(Msg::MatchA { round, grid })
}

#[tactic(auto, unfolding(cx_letter::specs::Messages::match_b))]
fn match_b_from(alloc: Global, reader: &mut ByteReader<'_>) -> Result<Msg, ReadFault>
    ensures { Gives (λ m. m) result
        ((wire.case 5 message.match_b
        (λ x. Msg.MatchB x.0 x.1.0 x.1.1)).read reader.old) reader.new }
{
    let round = round_from(reader)?;
    let watermark = round0_from(reader)?;
    let entries = entries_from(alloc, reader)?;
    Ok(Msg::MatchB {
        round,
        watermark,
        entries,
    })
}

#[tactic(auto, unfolding(cx_letter::specs::Messages::match_nack))]
fn match_nack_from(reader: &mut ByteReader<'_>) -> Result<Msg, ReadFault>
    ensures { Gives (λ m. m) result
        ((wire.case 6 message.match_nack (λ x. Msg.MatchNack x.0 x.1.0 x.1.1)).read reader.old)
        reader.new }
{
    let round = round_from(reader)?;
    let reason = reason_from(reader)?;
    let other = round_from(reader)?;
    Ok(Msg::MatchNack {
        round,
        reason,
        other,
    })
}

fn phase1a_from(reader: &mut ByteReader<'_>) -> Result<Msg, ReadFault>
    ensures { Gives (λ m. m) result ((wire.case 7 field.round (λ x. Msg.Phase1A x)).read reader.old)
        reader.new }
{
    let round = round_from(reader)?;
    Ok(Msg::Phase1A { round })
}

#[tactic(auto, unfolding(cx_letter::specs::Messages::phase1b))]
fn phase1b_from(alloc: Global, floors: bool, reader: &mut ByteReader<'_>) -> Result<Msg, ReadFault>
    ensures { Gives (λ m. m) result
        ((wire.case 8 (message.phase1b floors) (λ x. Msg.Phase1B x.0 x.1.0 x.1.1)).read reader.old)
        reader.new }
{
    let round = round_from(reader)?;
    let cw = mark_from(reader)?;
    let votes = votes_from(alloc, floors, cw, reader)?;
    Ok(Msg::Phase1B { round, cw, votes })
}

#[tactic(auto, unfolding(cx_letter::specs::Messages::nack))]
fn nack_from(reader: &mut ByteReader<'_>) -> Result<Msg, ReadFault>
    ensures { Gives (λ m. m) result
        ((wire.case 9 message.nack (λ x. Msg.Nack x.0 x.1)).read reader.old) reader.new }
{
    let round = round_from(reader)?;
    let promise = round_from(reader)?;
    Ok(Msg::Nack { round, promise })
}

// A watermark whose window has the slot.
fn window_from(slot: u64, reader: &mut ByteReader<'_>) -> Result<u64, ReadFault>
    ensures { Reads (wire.only (λ cw. in_window cw slot) field.mark) reader.old result reader.new }
{
    let left = reader.left();
    let cw = mark_from(reader)?;
    if slot < cw || slot - cw >= WINDOW {
        return Err(ReadFault::Bad { left });
    }
    Ok(cw)
}

#[tactic(auto, unfolding(cx_letter::specs::Messages::propose))]
fn propose_from(alloc: Global, floors: bool, reader: &mut ByteReader<'_>) -> Result<Msg, ReadFault>
    ensures { Gives (λ m. m) result
        ((wire.case 10 (message.propose floors)
        (λ x. Msg.Propose x.0 x.1.0 x.1.1.0 x.1.1.1.0 x.1.1.1.1)).read reader.old) reader.new }
{
    let round = round_from(reader)?;
    let grid = grid_from(alloc, reader)?;
    let slot = slot_from(reader)?;
    let cw = window_from(slot, reader)?;
    let value = value_from(alloc, floors, reader)?;
    Ok(Msg::Propose {
        round,
        grid,
        slot,
        cw,
        value,
    })
}

#[tactic(auto, unfolding(cx_letter::specs::Messages::phase2a))]
fn phase2a_from(alloc: Global, floors: bool, reader: &mut ByteReader<'_>) -> Result<Msg, ReadFault>
    ensures { Gives (λ m. m) result
        ((wire.case 11 (message.phase2a floors) (λ x. Msg.Phase2A x.0 x.1.0 x.1.1.0 x.1.1.1)).read
        reader.old) reader.new }
{
    let round = round_from(reader)?;
    let slot = slot_from(reader)?;
    let cw = window_from(slot, reader)?;
    let value = value_from(alloc, floors, reader)?;
    Ok(Msg::Phase2A {
        round,
        slot,
        cw,
        value,
    })
}

#[tactic(auto, unfolding(cx_letter::specs::Messages::round_slot))]
fn phase2b_from(reader: &mut ByteReader<'_>) -> Result<Msg, ReadFault>
    ensures { Gives (λ m. m) result
        ((wire.case 12 message.round_slot (λ x. Msg.Phase2B x.0 x.1)).read reader.old) reader.new }
{
    let round = round_from(reader)?;
    let slot = slot_from(reader)?;
    Ok(Msg::Phase2B { round, slot })
}

#[tactic(auto, unfolding(cx_letter::specs::Messages::slot_value))]
fn chosen_from(alloc: Global, floors: bool, reader: &mut ByteReader<'_>) -> Result<Msg, ReadFault>
    ensures { Gives (λ m. m) result
        ((wire.case 13 (message.slot_value floors) (λ x. Msg.Chosen x.0 x.1)).read reader.old)
        reader.new }
{
    let slot = slot_from(reader)?;
    let value = value_from(alloc, floors, reader)?;
    Ok(Msg::Chosen { slot, value })
}

#[tactic(auto, unfolding(cx_letter::specs::Messages::round_slot))]
fn chosen_in_from(reader: &mut ByteReader<'_>) -> Result<Msg, ReadFault>
    ensures { Gives (λ m. m) result
        ((wire.case 14 message.round_slot (λ x. Msg.ChosenIn x.0 x.1)).read reader.old) reader.new }
{
    let round = round_from(reader)?;
    let slot = slot_from(reader)?;
    Ok(Msg::ChosenIn { round, slot })
}

#[tactic(auto, unfolding(cx_letter::specs::Messages::results))]
fn results_from(alloc: Global, reader: &mut ByteReader<'_>) -> Result<Msg, ReadFault>
    ensures { Gives (λ m. m) result
        ((wire.case 15 message.results (λ x. Msg.Results x.0 x.1)).read reader.old) reader.new }
{
    let slot = slot_from(reader)?;
    let answers = answers_from(alloc, reader)?;
    Ok(Msg::Results { slot, answers })
}

#[tactic(auto, unfolding(cx_letter::specs::Messages::answer))]
fn answer_from(reader: &mut ByteReader<'_>) -> Result<Msg, ReadFault>
    ensures { Gives (λ m. m) result
        ((wire.case 16 message.answer
        (λ x. Msg.Answer x.0 x.1.0 x.1.1)).read reader.old) reader.new }
{
    let seq = seq_from(reader)?;
    let at = at_from(reader)?;
    let reply = reply_from(reader)?;
    Ok(Msg::Answer { seq, at, reply })
}

fn held_from(reader: &mut ByteReader<'_>) -> Result<Msg, ReadFault>
    ensures { Gives (λ m. m) result ((wire.case 17 field.mark (λ x. Msg.Held x)).read reader.old)
        reader.new }
{
    let mark = mark_from(reader)?;
    Ok(Msg::Held { mark })
}

fn fetch_from(reader: &mut ByteReader<'_>) -> Result<Msg, ReadFault>
    ensures { Gives (λ m. m) result ((wire.case 18 field.mark (λ x. Msg.Fetch x)).read reader.old)
        reader.new }
{
    let mark = mark_from(reader)?;
    Ok(Msg::Fetch { mark })
}

fn inform_from(reader: &mut ByteReader<'_>) -> Result<Msg, ReadFault>
    ensures { Gives (λ m. m) result
        ((wire.case 19 records.round_mark (λ x. Msg.Inform x.0 x.1)).read reader.old) reader.new }
{
    let round = round_from(reader)?;
    let mark = mark_from(reader)?;
    Ok(Msg::Inform { round, mark })
}

fn informed_from(reader: &mut ByteReader<'_>) -> Result<Msg, ReadFault>
    ensures { Gives (λ m. m) result
        ((wire.case 20 records.round_mark (λ x. Msg.Informed x.0 x.1)).read reader.old) reader.new }
{
    let round = round_from(reader)?;
    let mark = mark_from(reader)?;
    Ok(Msg::Informed { round, mark })
}

fn garbage_a_from(alloc: Global, reader: &mut ByteReader<'_>) -> Result<Msg, ReadFault>
    ensures { Gives (λ m. m) result
        ((wire.case 21 records.round_grid (λ x. Msg.GarbageA x.0 x.1)).read reader.old) reader.new }
{
    let round = round_from(reader)?;
    let grid = grid_from(alloc, reader)?;
    Ok(Msg::GarbageA { round, grid })
}

fn garbage_b_from(reader: &mut ByteReader<'_>) -> Result<Msg, ReadFault>
    ensures { Gives (λ m. m) result
        ((wire.case 22 field.round (λ x. Msg.GarbageB x)).read reader.old) reader.new }
{
    let round = round_from(reader)?;
    Ok(Msg::GarbageB { round })
}
