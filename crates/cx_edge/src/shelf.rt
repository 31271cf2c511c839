//! Which of a role's stores is meant.

ghost use Rattle.std.specs.Prelude.{◌≡◌};
ghost use Rattle.cx_edge.specs.Shelf.{same_shelf, shelf};

use cx_base::RoleId;

/// The place of a store in a depot: a role, and which of its stores it is. The first one, for most roles the only one, is on
/// side 0; a replica's second one is on side 1.
#[derive(Clone, Copy)]
pub struct Shelf {
    pub role: RoleId,
    pub side: u8,
}

impl Shelf {
    /// The place on this side of this role.
    pub fn new(role: RoleId, side: u8) -> Self
        ensures { result ≡ shelf role side }
    {
        Shelf { role, side }
    }

    /// Whether it is the other place.
    pub fn is(self, other: Shelf) -> bool
        ensures { result ≡ same_shelf self other }
    {
        self.role.is(other.role) && self.side == other.side
    }
}
