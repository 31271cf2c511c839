//! Messages made a second time.

ghost use Rattle.std.specs.Prelude.{◌≡◌, IfOk, true, false};
ghost use Rattle.cx_letter.specs.Copies.{has_list, has_value};

use crate::message::Msg;
use cx_base::{Duplicate, NoMemory};
use std::alloc::Global;

// A message that holds a value.
fn copy_value(msg: &Msg, alloc: Global) -> Result<Msg, NoMemory>
    requires { has_value msg.now ≡ true }
    ensures { IfOk result (λ copied. copied ≡ msg.now) }
{
    match *msg {
        Msg::Propose {
            round,
            grid,
            slot,
            cw,
            ref value,
        } => Ok(Msg::Propose {
            round,
            grid,
            slot,
            cw,
            value: value.copy(alloc)?,
        }),
        Msg::Phase2A {
            round,
            slot,
            cw,
            ref value,
        } => Ok(Msg::Phase2A {
            round,
            slot,
            cw,
            value: value.copy(alloc)?,
        }),
        Msg::Chosen { slot, ref value } => Ok(Msg::Chosen {
            slot,
            value: value.copy(alloc)?,
        }),
        _ => unreachable!(),
    }
}

// A message that holds a list.
fn copy_list(msg: &Msg, alloc: Global) -> Result<Msg, NoMemory>
    requires { has_list msg.now ≡ true }
    ensures { IfOk result (λ copied. copied ≡ msg.now) }
{
    match *msg {
        Msg::Batch { ref commands } => Ok(Msg::Batch {
            commands: commands.copy(alloc)?,
        }),
        Msg::MatchB {
            round,
            watermark,
            ref entries,
        } => Ok(Msg::MatchB {
            round,
            watermark,
            entries: entries.copy(alloc)?,
        }),
        Msg::Phase1B {
            round,
            cw,
            ref votes,
        } => Ok(Msg::Phase1B {
            round,
            cw,
            votes: votes.copy(alloc)?,
        }),
        Msg::Results { slot, ref answers } => Ok(Msg::Results {
            slot,
            answers: answers.copy(alloc)?,
        }),
        Msg::MatchReadAck {
            asking,
            watermark,
            ref entries,
        } => Ok(Msg::MatchReadAck {
            asking,
            watermark,
            entries: entries.copy(alloc)?,
        }),
        Msg::StopB {
            round,
            watermark,
            ref entries,
            accepted,
            set,
        } => Ok(Msg::StopB {
            round,
            watermark,
            entries: entries.copy(alloc)?,
            accepted,
            set,
        }),
        Msg::BootA {
            set,
            watermark,
            ref entries,
        } => Ok(Msg::BootA {
            set,
            watermark,
            entries: entries.copy(alloc)?,
        }),
        _ => unreachable!(),
    }
}

// A message of which each part is small.
fn copy_small(msg: &Msg) -> Msg
    requires value { has_value msg.now ≡ false }
    requires list { has_list msg.now ≡ false }
    ensures { result ≡ msg.now }
{
    match *msg {
        Msg::Submit { command } => Msg::Submit { command },
        Msg::Leads { round } => Msg::Leads { round },
        Msg::MatchA { round, grid } => Msg::MatchA { round, grid },
        Msg::MatchNack {
            round,
            reason,
            other,
        } => Msg::MatchNack {
            round,
            reason,
            other,
        },
        Msg::Phase1A { round } => Msg::Phase1A { round },
        Msg::Nack { round, promise } => Msg::Nack { round, promise },
        Msg::Phase2B { round, slot } => Msg::Phase2B { round, slot },
        Msg::ChosenIn { round, slot } => Msg::ChosenIn { round, slot },
        Msg::Answer { seq, at, reply } => Msg::Answer { seq, at, reply },
        Msg::Held { mark } => Msg::Held { mark },
        Msg::Fetch { mark } => Msg::Fetch { mark },
        Msg::Inform { round, mark } => Msg::Inform { round, mark },
        Msg::Informed { round, mark } => Msg::Informed { round, mark },
        Msg::GarbageA { round, grid } => Msg::GarbageA { round, grid },
        Msg::GarbageB { round } => Msg::GarbageB { round },
        Msg::ReadReq { seq, replica, key } => Msg::ReadReq { seq, replica, key },
        Msg::MatchRead { asking } => Msg::MatchRead { asking },
        Msg::PreRead { asking, watermark } => Msg::PreRead { asking, watermark },
        Msg::PreReadAck {
            asking,
            watermark,
            mark,
        } => Msg::PreReadAck {
            asking,
            watermark,
            mark,
        },
        Msg::Read { token, mark, key } => Msg::Read { token, mark, key },
        Msg::ReadAnswer { seq, mark, found } => Msg::ReadAnswer { seq, mark, found },
        Msg::StopA { round } => Msg::StopA { round },
        Msg::StopNack { round, other } => Msg::StopNack { round, other },
        Msg::NextA { round, set } => Msg::NextA { round, set },
        Msg::NextB { round } => Msg::NextB { round },
        Msg::BootB { set } => Msg::BootB { set },
        Msg::Sets { set } => Msg::Sets { set },
        Msg::SessRead { seq, mark, key } => Msg::SessRead { seq, mark, key },
        _ => unreachable!(),
    }
}

impl Duplicate for Msg {
    fn copy(&self, alloc: Global) -> Result<Self, NoMemory> {
        match *self {
            Msg::Propose { .. } | Msg::Phase2A { .. } | Msg::Chosen { .. } => {
                copy_value(self, alloc)
            }
            Msg::Batch { .. }
            | Msg::MatchB { .. }
            | Msg::Phase1B { .. }
            | Msg::Results { .. }
            | Msg::MatchReadAck { .. }
            | Msg::StopB { .. }
            | Msg::BootA { .. } => copy_list(self, alloc),
            _ => Ok(copy_small(self)),
        }
    }
}
