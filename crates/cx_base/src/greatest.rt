//! The greatest number that each client has used, which shows at once that most numbers are new.

ghost use Rattle.std.specs.Prelude.{◌≡◌, length, replicate};
ghost use Rattle.cx_base.specs.Greatest.{is_above_greatest, raise_greatest};

use crate::limits::CLIENTS;
use std::marker::Model;

/// The greatest number that each client of a cluster has used, 0 where it has used none.
#[derive(Drop)]
pub struct Greatest {
    numbers: [u64; CLIENTS],
}

impl Model for Greatest {
    ghost use Rattle.std.specs.Prelude.{◌≡◌, ℕ, List, length};

    ghost Value = { List ℕ };

    ghost view = { λ g. g.numbers };

    ghost invariant = { λ g. length g.numbers ≡ 64 };
}

impl Greatest {
    /// No client has used a number.
    pub fn new() -> Self
        ensures { result ≡ replicate 64 0 }
    {
        Greatest {
            numbers: [0; CLIENTS],
        }
    }

    /// Whether a number is above its client's greatest one. None is of a client that no cluster has.
    pub fn is_above(&self, client: u16, seq: u64) -> bool
        ensures above { result ≡ is_above_greatest self.now client seq }
        ensures clients { length self.now ≡ 64 }
    {
        let client = usize::from(client);
        client < CLIENTS && self.numbers[client] < seq
    }

    /// A client has used a number: it is the client's greatest if it is above the one before.
    pub fn raise(&mut self, client: u16, seq: u64)
        ensures { self.new ≡ raise_greatest self.old client seq }
    {
        if self.is_above(client, seq) {
            self.numbers[usize::from(client)] = seq;
        }
    }
}
