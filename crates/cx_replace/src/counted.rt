//! Who was counted, and how many they are.

ghost use Rattle.std.specs.Prelude.{◌≡◌, ◌<◌};
ghost use Rattle.cx_role.specs.Prelude.{[], false, length, is_in};
ghost use Rattle.cx_grid.specs.Quorum.{with_mark};

use cx_grid::Marks;
use std::marker::Model;

/// The matchmakers that were counted, which contracts see as the rising list of their ids. Nothing here takes memory.
#[derive(Drop)]
pub struct Counted {
    marks: Marks,
    len: u8,
}

impl Model for Counted {
    ghost use Rattle.std.specs.Prelude.{◌≡◌};
    ghost use Rattle.cx_role.specs.Prelude.{ℕ, List, length};

    ghost Value = { List ℕ };

    ghost view = { λ c. c.marks };

    ghost invariant = { λ c. length c.marks ≡ c.len };
}

impl Counted {
    /// Nobody.
    pub fn new() -> Self
        ensures { result ≡ [] }
    {
        Counted {
            marks: Marks::new(),
            len: 0,
        }
    }

    /// Whether a matchmaker was counted.
    pub fn contains(&self, id: u16) -> bool
        ensures { result ≡ is_in id self.now }
    {
        self.marks.contains(id)
    }

    /// How many were counted.
    pub fn len(&self) -> u8
        ensures { result ≡ length self.now }
    {
        self.len
    }

    /// Counts a matchmaker, whose id is below 64, and which was not counted before.
    pub fn add(&mut self, id: u16)
        requires id { id < 64 }
        requires new { is_in id self.old ≡ false }
        requires few { length self.old < 255 }
        ensures { self.new ≡ with_mark id self.old }
    {
        self.marks.add(id);
        self.len += 1;
    }
}
