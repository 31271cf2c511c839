//! The numbers of messages on the wire, and their names.

ghost use Rattle.std.specs.Prelude.{◌≡◌};
ghost use Rattle.cx_letter.specs.Messages as message;
ghost use Rattle.cx_letter.specs.Names.{name_of_kind};

use crate::message::Msg;

/// A message's number on the wire.
pub fn message_kind(msg: &Msg) -> u8
    ensures { result ≡ (message.body_shape msg.now).tag }
{
    match msg {
        Msg::Submit { .. } => 1,
        Msg::Batch { .. } => 2,
        Msg::Leads { .. } => 3,
        Msg::MatchA { .. } => 4,
        Msg::MatchB { .. } => 5,
        Msg::MatchNack { .. } => 6,
        Msg::Phase1A { .. } => 7,
        Msg::Phase1B { .. } => 8,
        Msg::Nack { .. } => 9,
        Msg::Propose { .. } => 10,
        Msg::Phase2A { .. } => 11,
        Msg::Phase2B { .. } => 12,
        Msg::Chosen { .. } => 13,
        Msg::ChosenIn { .. } => 14,
        Msg::Results { .. } => 15,
        Msg::Answer { .. } => 16,
        Msg::Held { .. } => 17,
        Msg::Fetch { .. } => 18,
        Msg::Inform { .. } => 19,
        Msg::Informed { .. } => 20,
        Msg::GarbageA { .. } => 21,
        Msg::GarbageB { .. } => 22,
        Msg::ReadReq { .. } => 23,
        Msg::MatchRead { .. } => 24,
        Msg::MatchReadAck { .. } => 25,
        Msg::PreRead { .. } => 26,
        Msg::PreReadAck { .. } => 27,
        Msg::Read { .. } => 28,
        Msg::ReadAnswer { .. } => 29,
        Msg::StopA { .. } => 30,
        Msg::StopB { .. } => 31,
        Msg::StopNack { .. } => 32,
        Msg::NextA { .. } => 33,
        Msg::NextB { .. } => 34,
        Msg::BootA { .. } => 35,
        Msg::BootB { .. } => 36,
        Msg::Sets { .. } => 37,
        Msg::SessRead { .. } => 38,
    }
}

/// The name in texts of a kind of message, whose number is from 1 to 38.
#[tactic(auto, unfolding(crate::specs::Names::name_of_kind))]
pub fn name_of_kind(kind: u8) -> &'static str
    ensures { result.now ≡ name_of_kind kind }
{
    match kind {
        1 => "Submit",
        2 => "Batch",
        3 => "Leads",
        4 => "MatchA",
        5 => "MatchB",
        6 => "MatchNack",
        7 => "Phase1A",
        8 => "Phase1B",
        9 => "Nack",
        10 => "Propose",
        11 => "Phase2A",
        12 => "Phase2B",
        13 => "Chosen",
        14 => "ChosenIn",
        15 => "Results",
        16 => "Answer",
        17 => "Held",
        18 => "Fetch",
        19 => "Inform",
        20 => "Informed",
        21 => "GarbageA",
        22 => "GarbageB",
        23 => "ReadReq",
        24 => "MatchRead",
        25 => "MatchReadAck",
        26 => "PreRead",
        27 => "PreReadAck",
        28 => "Read",
        29 => "ReadAnswer",
        30 => "StopA",
        31 => "StopB",
        32 => "StopNack",
        33 => "NextA",
        34 => "NextB",
        35 => "BootA",
        36 => "BootB",
        37 => "Sets",
        _ => "SessRead",
    }
}
