//! What a renewed list has still to say while a replica is opened.

ghost use Rattle.std.specs.Prelude.{◌≡◌, ◌==◌, ◌&&◌, true, false};

/// Whether a record was read or appended, after which no base may come, and how many pairs, clients and values of a renewed
/// list are still to come.
#[derive(Clone, Copy)]
pub struct Wanted {
    pub begun: bool,
    pub pairs: u64,
    pub clients: u64,
    pub values: u64,
}

impl Wanted {
    /// No record was read.
    pub fn new() -> Self
        ensures { result ≡ record { begun = false; pairs = 0; clients = 0; values = 0 } }
    {
        Wanted {
            begun: false,
            pairs: 0,
            clients: 0,
            values: 0,
        }
    }

    /// A list that wants nothing more.
    pub fn nothing() -> Self
        ensures { result ≡ record { begun = true; pairs = 0; clients = 0; values = 0 } }
    {
        Wanted {
            begun: true,
            pairs: 0,
            clients: 0,
            values: 0,
        }
    }

    /// Whether nothing more is to come.
    pub fn is_whole(&self) -> bool
        ensures { result ≡ (self.now.pairs == 0 && self.now.clients == 0 && self.now.values == 0) }
    {
        self.pairs == 0 && self.clients == 0 && self.values == 0
    }
}
