//! How much has happened.

ghost use Rattle.std.specs.Prelude.{◌≡◌, length};
ghost use Rattle.cx_history.specs.Answers.{answers_in, read_answers_in};

use cx_history::{Events, Kept, Sent};

/// How many events, datagrams, answers, answers to reads and session reads, and changes of stores there are.
#[derive(Clone, Copy)]
pub struct Counts {
    pub events: u64,
    pub datagrams: u64,
    pub answers: u64,
    pub reads: u64,
    pub kept: u64,
}

/// The counts of these histories.
pub fn count(events: &Events, kept: &Kept, sent: &Sent) -> Counts
    ensures events { result.events ≡ length events.now }
    ensures datagrams { result.datagrams ≡ length sent.now }
    ensures answers { result.answers ≡ answers_in sent.now }
    ensures reads { result.reads ≡ read_answers_in sent.now }
    ensures kept { result.kept ≡ length kept.now }
{
    Counts {
        events: events.len(),
        datagrams: sent.len(),
        answers: sent.answers(),
        reads: sent.read_answers(),
        kept: kept.len() as u64,
    }
}
