//! What one role says to another.

ghost use Rattle.std.specs.Prelude.{◌≡◌};
ghost use Rattle.cx_letter.specs.Names.{name_of_message};

use crate::names::{message_kind, name_of_kind};
use cx_base::{Command, Commands, Grid, Key, Reply, Round, Set, Text, Value};
use cx_field::{Answers, Asking, Entries, NackReason, Token, Votes};

/// What a datagram says. Rounds are real ones, but for a watermark, which may be none; slots are below 2^40; `cw` and
/// `mark` are numbers of slots, at most 2^40; a client's numbers and a reader's turns are 1 or more.
#[derive(Drop)]
pub enum Msg {
    /// A client's command.
    Submit {
        command: Command,
    },
    /// Commands that a batcher gathered.
    Batch {
        commands: Commands,
    },
    /// The leader leads this round.
    Leads {
        round: Round,
    },
    /// Asks a matchmaker to record a round and its grid.
    MatchA {
        round: Round,
        grid: Grid,
    },
    /// The round is recorded; the earlier ones from the watermark on.
    MatchB {
        round: Round,
        watermark: Round,
        entries: Entries,
    },
    /// The round is not recorded. The other round is the watermark where it is collected, else the greatest that is recorded.
    MatchNack {
        round: Round,
        reason: NackReason,
        other: Round,
    },
    /// Asks an acceptor to promise a round.
    Phase1A {
        round: Round,
    },
    /// The round is promised; what was voted from the slot `cw` on.
    Phase1B {
        round: Round,
        cw: u64,
        votes: Votes,
    },
    /// A greater round is promised.
    Nack {
        round: Round,
        promise: Round,
    },
    /// Asks a proxy to have a value chosen for a slot; all slots below `cw` are held by enough replicas.
    Propose {
        round: Round,
        grid: Grid,
        slot: u64,
        cw: u64,
        value: Value,
    },
    /// Asks an acceptor to vote.
    Phase2A {
        round: Round,
        slot: u64,
        cw: u64,
        value: Value,
    },
    /// The vote is kept.
    Phase2B {
        round: Round,
        slot: u64,
    },
    /// The value is chosen for the slot.
    Chosen {
        slot: u64,
        value: Value,
    },
    /// A value was chosen for the slot in this round.
    ChosenIn {
        round: Round,
        slot: u64,
    },
    /// What the commands of a slot are answered.
    Results {
        slot: u64,
        answers: Answers,
    },
    /// What a client's command is answered; `at` is one more than its slot.
    Answer {
        seq: u64,
        at: u64,
        reply: Reply,
    },
    /// The replica holds `mark` slots.
    Held {
        mark: u64,
    },
    /// Asks a replica for the value of a slot.
    Fetch {
        mark: u64,
    },
    /// Informs an acceptor that enough replicas hold `mark` slots.
    Inform {
        round: Round,
        mark: u64,
    },
    /// The acceptor knows that enough replicas hold `mark` slots.
    Informed {
        round: Round,
        mark: u64,
    },
    /// Asks a matchmaker to forget the rounds below this one.
    GarbageA {
        round: Round,
        grid: Grid,
    },
    /// The rounds below this one are forgotten.
    GarbageB {
        round: Round,
    },
    /// A client's read of a key, to be answered by a replica.
    ReadReq {
        seq: u64,
        replica: u16,
        key: Key,
    },
    /// Asks a matchmaker for its entries, for the reads of a reader's turn.
    MatchRead {
        asking: Asking,
    },
    /// The entries of a matchmaker, from the watermark on.
    MatchReadAck {
        asking: Asking,
        watermark: Round,
        entries: Entries,
    },
    /// Asks an acceptor how far it voted, for the reads of a reader's turn.
    PreRead {
        asking: Asking,
        watermark: Round,
    },
    /// The acceptor voted in no slot from the mark on.
    PreReadAck {
        asking: Asking,
        watermark: Round,
        mark: u64,
    },
    /// Asks a replica for a key's text, once it holds `mark` slots.
    Read {
        token: Token,
        mark: u64,
        key: Key,
    },
    /// A key's text where the replica holds `mark` slots, or that it has none.
    ReadAnswer {
        seq: u64,
        mark: u64,
        found: Option<Text>,
    },
    /// Asks a matchmaker to stop, under this ballot.
    StopA {
        round: Round,
    },
    /// It has stopped; what it recorded, and which set it accepted as the next one in which ballot.
    StopB {
        round: Round,
        watermark: Round,
        entries: Entries,
        accepted: Round,
        set: Set,
    },
    /// A greater ballot is promised.
    StopNack {
        round: Round,
        other: Round,
    },
    /// Asks a matchmaker to accept the next set.
    NextA {
        round: Round,
        set: Set,
    },
    /// The next set is accepted.
    NextB {
        round: Round,
    },
    /// Asks a matchmaker to begin with this log, as a member of this set.
    BootA {
        set: Set,
        watermark: Round,
        entries: Entries,
    },
    /// It has begun as a member of this set.
    BootB {
        set: Set,
    },
    /// Tells the set of matchmakers.
    Sets {
        set: Set,
    },
    /// A client's session read: asks a replica for a key's text, once it holds `mark` slots, which the client has heard of.
    SessRead {
        seq: u64,
        mark: u64,
        key: Key,
    },
}

impl Msg {
    /// Its name in texts, which is that of its kind.
    pub fn name(&self) -> &'static str
        ensures { result.now ≡ name_of_message self.now }
    {
        name_of_kind(message_kind(self))
    }
}
