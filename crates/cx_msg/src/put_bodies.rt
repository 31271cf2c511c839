//! The bodies of messages, appended to bytes.

ghost use Rattle.std.specs.Prelude.{◌≡◌, ◌≤◌, ◌+◌, ◌++◌, true, length, OnOk};
ghost use Rattle.cx_letter.specs.Messages as message;
ghost use Rattle.cx_letter.specs.Records as records;
ghost use Rattle.cx_wire.specs.Format.{Appends};

use crate::put_read_bodies::{
    put_match_read_ack, put_pre_read, put_pre_read_ack, put_read_answer, put_read_key,
    put_read_req, put_sess_read,
};
use crate::put_set_bodies::{put_boot, put_round_set, put_stop_b};
use cx_base::{Grid, NoMemory, Reply, Round, Value};
use cx_field::{
    Answers, Entries, NackReason, Votes, put_answers, put_asking, put_at, put_command,
    put_commands, put_entries, put_grid, put_mark, put_reason, put_reply, put_round, put_seq,
    put_set, put_slot, put_value, put_votes,
};
use cx_letter::Msg;

fn put_round_grid(out: &mut Vec<u8>, round: &Round, grid: &Grid) -> Result<(), NoMemory>
    ensures { OnOk result
        (Appends records.round_grid (round.now, grid.now) 44 out.old.items out.new.items) }
{
    put_round(out, round)?;
    put_grid(out, grid)
}

#[tactic(auto, unfolding(cx_letter::specs::Messages::round_slot))]
fn put_round_slot(out: &mut Vec<u8>, round: &Round, slot: u64) -> Result<(), NoMemory>
    ensures { OnOk result
        (Appends message.round_slot (round.now, slot) 18 out.old.items out.new.items) }
{
    put_round(out, round)?;
    put_slot(out, slot)
}

fn put_round_mark(out: &mut Vec<u8>, round: &Round, mark: u64) -> Result<(), NoMemory>
    ensures { OnOk result
        (Appends records.round_mark (round.now, mark) 18 out.old.items out.new.items) }
{
    put_round(out, round)?;
    put_mark(out, mark)
}

#[tactic(auto, unfolding(cx_letter::specs::Messages::match_b))]
fn put_match_b(
    out: &mut Vec<u8>,
    round: &Round,
    watermark: &Round,
    entries: &Entries,
) -> Result<(), NoMemory>
    ensures { OnOk result (Appends message.match_b (round.now, (watermark.now, entries.now)) 11241
        out.old.items out.new.items) }
{
    put_round(out, round)?;
    put_round(out, watermark)?;
    put_entries(out, entries)
}

#[tactic(auto, unfolding(cx_letter::specs::Messages::match_nack))]
fn put_match_nack(
    out: &mut Vec<u8>,
    round: &Round,
    reason: NackReason,
    other: &Round,
) -> Result<(), NoMemory>
    ensures { OnOk result (Appends message.match_nack (round.now, (reason, other.now)) 21
        out.old.items out.new.items) }
{
    put_round(out, round)?;
    put_reason(out, reason)?;
    put_round(out, other)
}

#[tactic(auto, unfolding(cx_letter::specs::Messages::phase1b, cx_field::specs::Fields::votes))]
fn put_phase1b(out: &mut Vec<u8>, round: &Round, cw: u64, votes: &Votes) -> Result<(), NoMemory>
    ensures { OnOk result (Appends (message.phase1b true) (round.now, (cw, votes.now)) 30611
        out.old.items out.new.items) }
{
    put_round(out, round)?;
    put_mark(out, cw)?;
    put_votes(out, cw, votes)
}

#[tactic(auto, unfolding(cx_letter::specs::Messages::propose, cx_field::specs::Fields::value))]
fn put_propose(
    out: &mut Vec<u8>,
    round: &Round,
    grid: &Grid,
    slot: u64,
    cw: u64,
    value: &Value,
) -> Result<(), NoMemory>
    ensures { OnOk result (Appends (message.propose true)
        (round.now, (grid.now, (slot, (cw, value.now)))) 998 out.old.items out.new.items) }
{
    put_round(out, round)?;
    put_grid(out, grid)?;
    put_slot(out, slot)?;
    put_mark(out, cw)?;
    put_value(out, value)
}

#[tactic(auto, unfolding(cx_letter::specs::Messages::phase2a, cx_field::specs::Fields::value))]
fn put_phase2a(
    out: &mut Vec<u8>,
    round: &Round,
    slot: u64,
    cw: u64,
    value: &Value,
) -> Result<(), NoMemory>
    ensures { OnOk result (Appends (message.phase2a true) (round.now, (slot, (cw, value.now))) 964
        out.old.items out.new.items) }
{
    put_round(out, round)?;
    put_slot(out, slot)?;
    put_mark(out, cw)?;
    put_value(out, value)
}

#[tactic(auto, unfolding(cx_letter::specs::Messages::slot_value, cx_field::specs::Fields::value))]
fn put_slot_value(out: &mut Vec<u8>, slot: u64, value: &Value) -> Result<(), NoMemory>
    ensures { OnOk result
        (Appends (message.slot_value true) (slot, value.now) 946 out.old.items out.new.items) }
{
    put_slot(out, slot)?;
    put_value(out, value)
}

#[tactic(auto, unfolding(cx_letter::specs::Messages::nack))]
fn put_nack(out: &mut Vec<u8>, round: &Round, promise: &Round) -> Result<(), NoMemory>
    ensures { OnOk result
        (Appends message.nack (round.now, promise.now) 20 out.old.items out.new.items) }
{
    put_round(out, round)?;
    put_round(out, promise)
}

#[tactic(auto, unfolding(cx_letter::specs::Messages::results))]
fn put_results(out: &mut Vec<u8>, slot: u64, answers: &Answers) -> Result<(), NoMemory>
    ensures { OnOk result
        (Appends message.results (slot, answers.now) 681 out.old.items out.new.items) }
{
    put_slot(out, slot)?;
    put_answers(out, answers)
}

#[tactic(auto, unfolding(cx_letter::specs::Messages::answer))]
fn put_answer(out: &mut Vec<u8>, seq: u64, at: u64, reply: &Reply) -> Result<(), NoMemory>
    ensures { OnOk result
        (Appends message.answer (seq, (at, reply.now)) 82 out.old.items out.new.items) }
{
    put_seq(out, seq)?;
    put_at(out, at)?;
    put_reply(out, reply)
}

/// Appends a message's body, at most 30,611 bytes.
#[tactic(auto, unfolding(cx_field::specs::Fields::command, cx_field::specs::Fields::commands))]
pub fn put_body(out: &mut Vec<u8>, msg: &Msg) -> Result<(), NoMemory>
    ensures bytes { OnOk result
        (out.new.items ≡ out.old.items ++ (message.body_shape msg.now).bytes) }
    ensures room { OnOk result (length out.new.items ≤ length out.old.items + 30611) }
{
    match msg {
        Msg::Submit { command } => put_command(out, command),
        Msg::Batch { commands } => put_commands(out, commands),
        Msg::Leads { round }
        | Msg::Phase1A { round }
        | Msg::GarbageB { round }
        | Msg::StopA { round }
        | Msg::NextB { round } => put_round(out, round),
        Msg::MatchA { round, grid } | Msg::GarbageA { round, grid } => {
            put_round_grid(out, round, grid)
        }
        Msg::MatchB {
            round,
            watermark,
            entries,
        } => put_match_b(out, round, watermark, entries),
        Msg::MatchNack {
            round,
            reason,
            other,
        } => put_match_nack(out, round, *reason, other),
        Msg::Phase1B { round, cw, votes } => put_phase1b(out, round, *cw, votes),
        Msg::Nack { round, promise } => put_nack(out, round, promise),
        Msg::Propose {
            round,
            grid,
            slot,
            cw,
            value,
        } => put_propose(out, round, grid, *slot, *cw, value),
        Msg::Phase2A {
            round,
            slot,
            cw,
            value,
        } => put_phase2a(out, round, *slot, *cw, value),
        Msg::Phase2B { round, slot } | Msg::ChosenIn { round, slot } => {
            put_round_slot(out, round, *slot)
        }
        Msg::Chosen { slot, value } => put_slot_value(out, *slot, value),
        Msg::Results { slot, answers } => put_results(out, *slot, answers),
        Msg::Answer { seq, at, reply } => put_answer(out, *seq, *at, reply),
        Msg::Held { mark } | Msg::Fetch { mark } => put_mark(out, *mark),
        Msg::Inform { round, mark } | Msg::Informed { round, mark } => {
            put_round_mark(out, round, *mark)
        }
        Msg::ReadReq { seq, replica, key } => put_read_req(out, *seq, *replica, key),
        Msg::MatchRead { asking } => put_asking(out, asking),
        Msg::MatchReadAck {
            asking,
            watermark,
            entries,
        } => put_match_read_ack(out, asking, watermark, entries),
        Msg::PreRead { asking, watermark } => put_pre_read(out, asking, watermark),
        Msg::PreReadAck {
            asking,
            watermark,
            mark,
        } => put_pre_read_ack(out, asking, watermark, *mark),
        Msg::Read { token, mark, key } => put_read_key(out, token, *mark, key),
        Msg::ReadAnswer { seq, mark, found } => put_read_answer(out, *seq, *mark, found),
        Msg::StopB {
            round,
            watermark,
            entries,
            accepted,
            set,
        } => put_stop_b(out, round, watermark, entries, accepted, set),
        Msg::StopNack { round, other } => put_nack(out, round, other),
        Msg::NextA { round, set } => put_round_set(out, round, set),
        Msg::BootA {
            set,
            watermark,
            entries,
        } => put_boot(out, set, watermark, entries),
        Msg::BootB { set } | Msg::Sets { set } => put_set(out, set),
        Msg::SessRead { seq, mark, key } => put_sess_read(out, *seq, *mark, key),
    }
}
