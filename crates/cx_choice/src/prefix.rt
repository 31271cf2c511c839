//! The chosen values, by the records with votes for them.

ghost use Rattle.std.specs.Prelude.{◌≡◌, IfOk, length, map, slice_get, true};
ghost use Rattle.std.specs.List.{All};
ghost use Rattle.cx_choice.specs.Prefix.{IsVoteAt, is_vote_written, vote_value_at, written_value};

use cx_base::{NoMemory, Value};
use cx_history::Kept;
use cx_letter::{Record, Written};
use std::marker::Model;

/// The values chosen in slot 0, 1 and so on, up to the first slot without one. What is held of each is the number of a vote's
/// record: a value is read when it is asked for.
#[derive(Drop)]
pub struct Chosen<'a> {
    kept: &'a Kept,
    votes: Vec<u32>,
}

impl<'a> Model for Chosen<'a> {
    ghost use Rattle.std.specs.Prelude.{List, map};
    ghost use Rattle.std.specs.List.{All};
    ghost use Rattle.cx_base.specs.declared.command.Value.{Value as Held};
    ghost use Rattle.cx_choice.specs.Prefix.{IsVoteAt, vote_value_at};

    ghost Value = { List Held };

    ghost view = { λ c. map (vote_value_at c.kept.now) c.votes.items };

    ghost invariant = { λ c. All (IsVoteAt c.kept.now) c.votes.items };
}

// The value of a vote.
fn written_value(what: Written) -> Value
    requires { is_vote_written what ≡ true }
    ensures { result ≡ written_value what }
{
    match what {
        Written::Record {
            what: Record::Vote { value, .. },
        } => value,
        _ => unreachable!(),
    }
}

impl<'a> Chosen<'a> {
    /// The values of the votes of these numbers.
    pub fn of_votes(kept: &'a Kept, votes: Vec<u32>) -> Chosen<'a>
        requires { All (IsVoteAt kept.now) votes.items }
        ensures { result ≡ map (vote_value_at kept.now) votes.items }
    {
        Chosen { kept, votes }
    }

    /// How many there are.
    pub fn len(&self) -> u64
        ensures { result ≡ length self.now }
    {
        self.votes.len() as u64
    }

    /// The value chosen in a slot, None exactly from the first slot without one on.
    pub fn get(&self, slot: u64) -> Result<Option<Value>, NoMemory>
        ensures { IfOk result (λ value. value ≡ slice_get self.now slot) }
    {
        if slot >= self.len() {
            return Ok(None);
        }
        let number = self.votes[slot as usize];
        Ok(Some(written_value(self.kept.at(number as usize)?.what)))
    }
}
