//! Depots: where the stores of roles stay while no role has them.

ghost use Rattle.std.specs.Prelude.{◌≡◌, ◌≤◌, ◌++◌, [], ◌∷◌, ℕ, Bool, true, false, List, Some, IfOk, OnOk, OnErr};
ghost use Rattle.std.specs.List.{list_any};
ghost use Rattle.cx_base.specs.declared.role.RoleId.{RoleId};
ghost use Rattle.cx_base.specs.Faults.{Rises};
ghost use Rattle.cx_disk.specs.Disk.{Only};
ghost use Rattle.cx_edge.specs.declared.shelf.Shelf.{Shelf};
ghost use Rattle.cx_edge.specs.Depot.{IsOut, without};
ghost use Rattle.cx_edge.specs.Shelf.{same_shelf, shelf};

use cx_base::RoleId;
use cx_disk::{Disk, Failed};

/// Keeps the stores of roles, lends them, and takes them back. A role that is stopped finds in them what it left. A role has
/// one store, on side 0, or two: a replica has a second one on side 1.
pub trait Depot {
    type Store: Disk + Drop;

    /// Whether what the stores hold is known.
    ghost tells: { Self → Bool };

    /// What a store holds while it isn't out.
    ghost stored: { Self → Shelf → List ℕ };

    /// The stores that are out, in the order in which they were lent.
    ghost out: { Self → List Shelf };

    /// How often the depot has failed a role: openings that failed, and the faults of its stores while they were out.
    ghost faults: { Self → RoleId → ℕ };

    /// Lends the store on a side of a role. It fails, and the role's count rises, where the store can't be opened, or is out
    /// already, or there is none.
    fn open(&mut self, role: RoleId, side: u8) -> Result<Self::Store, Failed>
        ensures seen { tells self.old ≡ true
            → IfOk result
            (λ store. Self.Store.Disk.seen store ≡ Some (stored self.old (shelf role side))) }
        ensures durable { tells self.old ≡ true
            → IfOk result
            (λ store. Only (stored self.old (shelf role side)) (Self.Store.Disk.may_leave store)) }
        ensures fresh { IfOk result (λ store. Self.Store.Disk.faults store ≡ 0) }
        ensures once { OnOk result
            (list_any (same_shelf (shelf role side)) (out self.old) ≡ false) }
        ensures out { OnOk result (out self.new ≡ out self.old ++ shelf role side ∷ []) }
        ensures refused { OnErr result (out self.new ≡ out self.old) }
        ensures stored { (place : Shelf) → stored self.new place ≡ stored self.old place }
        ensures tells_same { tells self.new ≡ tells self.old }
        ensures cause { OnErr result (Rises (faults self.old role) (faults self.new role)) }
        ensures still { OnOk result ((who : RoleId) → faults self.new who ≡ faults self.old who) }
        ensures others { (who : RoleId) → (who ≡ role → ⊥)
            → faults self.new who ≡ faults self.old who }
        ensures later { faults self.old role ≤ faults self.new role };

    /// Takes back the store on a side of a role, with what it holds and how often it has failed.
    fn close(&mut self, role: RoleId, side: u8, store: Self::Store)
        requires { IsOut (shelf role side) (out self.old) }
        ensures out { out self.new ≡ without (shelf role side) (out self.old) }
        ensures stored { tells self.old ≡ true → (file : List ℕ)
            → Self.Store.Disk.seen store ≡ Some file → stored self.new (shelf role side) ≡ file }
        ensures others_stored { (place : Shelf) → (place ≡ shelf role side → ⊥)
            → stored self.new place ≡ stored self.old place }
        ensures tells_same { tells self.new ≡ tells self.old }
        ensures cause { Rises 0 (Self.Store.Disk.faults store)
            → Rises (faults self.old role) (faults self.new role) }
        ensures still { Self.Store.Disk.faults store ≡ 0
            → faults self.new role ≡ faults self.old role }
        ensures others { (who : RoleId) → (who ≡ role → ⊥)
            → faults self.new who ≡ faults self.old who }
        ensures later { faults self.old role ≤ faults self.new role };
}
