//! Records that roles keep.

use cx_base::{Duplicate, Grid, NoMemory, Round, Set, Value};
use cx_field::{Entries, LogValues, Notes, Pairs, Votes};
use std::alloc::Global;

/// What a role keeps. A stored record's fields are in their ranges, which whoever stores it owes: rounds are real ones,
/// slots are below 2^40, `cw` and `mark` are numbers of slots, at most 2^40.
#[derive(Drop)]
pub enum Record {
    /// An acceptor promises a round.
    Promise {
        round: Round,
    },
    /// An acceptor votes for a value; enough replicas hold all slots below `cw`.
    Vote {
        round: Round,
        slot: u64,
        cw: u64,
        value: Value,
    },
    /// An acceptor learns that enough replicas hold `mark` slots.
    Water {
        round: Round,
        mark: u64,
    },
    /// A matchmaker records a round and its grid.
    Match {
        round: Round,
        grid: Grid,
    },
    /// A matchmaker forgets the rounds below this one.
    Garbage {
        round: Round,
        grid: Grid,
    },
    /// A leader begins a round with this grid.
    Round {
        round: Round,
        grid: Grid,
    },
    /// A replica executes the next values.
    Log {
        values: LogValues,
    },
    /// A replica's list begins anew: the first slot whose value it has, how many slots are held, at most 2^40, and how many
    /// pairs and clients follow. What follows it is `Pairs`, `Notes` and `Tail`, in this order.
    Base {
        first: u64,
        held: u64,
        pairs: u32,
        clients: u8,
    },
    /// Pairs of the map, their keys rising.
    Pairs {
        pairs: Pairs,
    },
    /// What is noted of a client: the greatest floor that it told, and the answers to its numbers above it.
    Notes {
        client: u16,
        floor: u64,
        notes: Notes,
    },
    /// Values from the first slot on, which were executed before.
    Tail {
        values: LogValues,
    },
    /// A replacer begins a ballot.
    Ballot {
        round: Round,
    },
    /// A matchmaker stops, and promises a ballot.
    Stop {
        round: Round,
    },
    /// A matchmaker accepts the next set in a ballot.
    Next {
        round: Round,
        set: Set,
    },
    /// A matchmaker begins with this log, as a member of this set.
    Boot {
        set: Set,
        watermark: Round,
        entries: Entries,
    },
    /// A reader uses its next turn, which is 1 or more: it asks under it for the reads that wait.
    Turn {
        turn: u64,
    },
    /// An acceptor's list begins anew, by this record alone: its promise, one more than the greatest slot that it voted at, at
    /// most 2^40, its chosen watermark, and its last vote at each slot from there on.
    Voted {
        round: Round,
        top: u64,
        cw: u64,
        votes: Votes,
    },
    /// A replacer comes to know a set of matchmakers that was decided.
    Known {
        set: Set,
    },
}

impl Duplicate for Record {
    fn copy(&self, alloc: Global) -> Result<Self, NoMemory> {
        match self {
            Record::Promise { round } => Ok(Record::Promise { round: *round }),
            Record::Vote {
                round,
                slot,
                cw,
                value,
            } => Ok(Record::Vote {
                round: *round,
                slot: *slot,
                cw: *cw,
                value: value.copy(alloc)?,
            }),
            Record::Water { round, mark } => Ok(Record::Water {
                round: *round,
                mark: *mark,
            }),
            Record::Match { round, grid } => Ok(Record::Match {
                round: *round,
                grid: *grid,
            }),
            Record::Garbage { round, grid } => Ok(Record::Garbage {
                round: *round,
                grid: *grid,
            }),
            Record::Round { round, grid } => Ok(Record::Round {
                round: *round,
                grid: *grid,
            }),
            Record::Log { values } => Ok(Record::Log {
                values: values.copy(alloc)?,
            }),
            Record::Base {
                first,
                held,
                pairs,
                clients,
            } => Ok(Record::Base {
                first: *first,
                held: *held,
                pairs: *pairs,
                clients: *clients,
            }),
            Record::Pairs { pairs } => Ok(Record::Pairs {
                pairs: pairs.copy(alloc)?,
            }),
            Record::Notes {
                client,
                floor,
                notes,
            } => Ok(Record::Notes {
                client: *client,
                floor: *floor,
                notes: notes.copy(alloc)?,
            }),
            Record::Tail { values } => Ok(Record::Tail {
                values: values.copy(alloc)?,
            }),
            Record::Ballot { round } => Ok(Record::Ballot { round: *round }),
            Record::Stop { round } => Ok(Record::Stop { round: *round }),
            Record::Next { round, set } => Ok(Record::Next {
                round: *round,
                set: *set,
            }),
            Record::Boot {
                set,
                watermark,
                entries,
            } => Ok(Record::Boot {
                set: *set,
                watermark: *watermark,
                entries: entries.copy(alloc)?,
            }),
            Record::Turn { turn } => Ok(Record::Turn { turn: *turn }),
            Record::Voted {
                round,
                top,
                cw,
                votes,
            } => Ok(Record::Voted {
                round: *round,
                top: *top,
                cw: *cw,
                votes: votes.copy(alloc)?,
            }),
            Record::Known { set } => Ok(Record::Known { set: *set }),
        }
    }
}
