//! Room for answers that is taken before values are executed.

ghost use Rattle.std.specs.Prelude.{◌≡◌, ◌+◌, ◌<◌, ◌≤◌, [], IfOk, vec_capacity};

use cx_base::{Answered, BATCH, NoMemory};
use std::alloc::Global;
use std::marker::Model;

/// Vectors without answers, each with room for those of one value. Contracts see how many they are.
#[derive(Drop)]
pub struct Rooms {
    list: Vec<Vec<Answered>>,
}

impl Model for Rooms {
    ghost use Rattle.std.specs.Prelude.{ℕ, vec_len};
    ghost use Rattle.std.specs.List.{All};
    ghost use Rattle.cx_replica.specs.Room.{IsVacant};

    ghost Value = { ℕ };

    ghost view = { λ rooms. vec_len rooms.list };

    ghost invariant = { λ rooms. All IsVacant rooms.list.items };
}

impl Rooms {
    /// Room for the answers of `values` values.
    #[tactic(auto, using(crate::proofs::Vacant::rooms_more))]
    pub fn new(alloc: Global, values: usize) -> Result<Self, NoMemory>
        ensures { IfOk result (λ rooms. rooms ≡ values) }
    {
        let mut list = Vec::with_capacity(alloc, values)?;
        for _number in 0..values {
            list.push(Vec::with_capacity(alloc, BATCH)?)?;
        }
        Ok(Rooms { list })
    }

    /// Room for the answers of one value.
    pub fn take(&mut self) -> Vec<Answered>
        requires { 0 < self.old }
        ensures empty { result.items ≡ [] }
        ensures room { 8 ≤ vec_capacity result }
        ensures left { self.new + 1 ≡ self.old }
    {
        match self.list.pop() {
            Some(room) => room,
            None => unreachable!(),
        }
    }
}
