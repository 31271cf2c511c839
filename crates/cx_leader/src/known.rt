//! The slots of a window that are known to be chosen.

ghost use Rattle.std.specs.Prelude.{◌≡◌, ◌≤◌, ◌<◌, ◌+◌, ◌^◌, ◌++◌, ◌∷◌};
ghost use Rattle.cx_role.specs.Prelude.{[], filter, nat_le, OnOk, OnErr, list_all, is_in, numbers};
ghost use Rattle.cx_leader.specs.Knowing.{KnownSlotsState, with_known_slot, known_from};

use cx_base::NoMemory;
use cx_ring::{GhostList, GhostListOf, Ring, Slotted};
use std::alloc::Global;
use std::marker::Model;

/// The slots of a window that are known to be chosen: looked up at once, where contracts see the list of them in the
/// order in which they were noted.
#[derive(Drop)]
pub struct KnownSlots {
    slots: Ring<u64, Itself>,
    // Only contracts read this list, which takes no memory. A slot that is noted twice is here twice.
    noted: GhostList<u64>,
}

impl Model for KnownSlots {
    ghost use Rattle.cx_leader.specs.Knowing.{KnownSlotsState, AreSame};

    ghost Value = { KnownSlotsState };

    ghost view = { λ k. record { first = k.slots.first; list = k.noted.items } };

    ghost invariant = { λ k. AreSame k.slots.items k.noted.items };
}

// A slot stands in the ring at its own number.
struct Itself;

impl Slotted<u64> for Itself {
    ghost at = { λ s. s };

    fn slot(one: &u64) -> u64 {
        *one
    }
}

// What contracts see where no slot is noted.
struct Nothing;

impl GhostListOf<(), u64> for Nothing {
    ghost list_shown = { λ _. [] };
}

// What they see once one more is noted.
struct Added;

impl<'a> GhostListOf<(&'a GhostList<u64>, u64), u64> for Added {
    ghost list_shown = { λ x. x.0.now.items ++ x.1 ∷ [] };
}

// What they see once those below a slot are forgotten.
struct Raised;

impl<'a> GhostListOf<(u64, &'a GhostList<u64>), u64> for Raised {
    ghost list_shown = { λ x. filter (λ s. nat_le x.0 s) x.1.now.items };
}

impl KnownSlots {
    /// None, of the window that begins at a slot.
    pub fn new(alloc: Global, first: u64) -> Self
        requires { first ≤ 2 ^ 40 }
        ensures { result ≡ record { first = first; list = [] } }
    {
        KnownSlots {
            slots: Ring::new(alloc, first),
            noted: GhostList::of::<(), Nothing>(&()),
        }
    }

    /// Notes a slot of the window. Out of memory, it changes nothing.
    #[tactic(auto, using(crate::proofs::Knows::same_noted))]
    pub fn note(&mut self, alloc: Global, slot: u64) -> Result<(), NoMemory>
        requires low { self.old.first ≤ slot }
        requires high { slot < self.old.first + 32 }
        ensures ok { OnOk result (self.new ≡ with_known_slot slot self.old) }
        ensures no_memory { OnErr result (self.new ≡ self.old) }
    {
        self.slots.make_room(alloc)?;
        self.slots.put(slot);
        self.noted = GhostList::of::<(&GhostList<u64>, u64), Added>(&(&self.noted, slot));
        Ok(())
    }

    /// Lets the window begin at a slot, or leaves a later beginning; the slots below it are forgotten.
    #[tactic(auto, using(crate::proofs::Knows::same_from))]
    pub fn raise(&mut self, first: u64)
        requires { first ≤ 2 ^ 40 }
        ensures { self.new ≡ known_from first self.old }
    {
        self.slots.raise(first);
        let first = self.slots.first();
        self.noted = GhostList::of::<(u64, &GhostList<u64>), Raised>(&(first, &self.noted));
    }

    /// Forgets all slots; the window stays where it is.
    pub fn clear(&mut self)
        ensures { self.new ≡ record self.old { list = [] } }
    {
        self.slots.clear();
        self.noted = GhostList::of::<(), Nothing>(&());
    }

    /// Whether a slot is known to be chosen.
    #[tactic(auto, using(crate::proofs::Knows::found))]
    pub fn contains(&self, slot: u64) -> bool
        ensures { result ≡ is_in slot self.now.list }
    {
        self.slots.get(slot).is_some()
    }

    /// Whether each of `count` slots from the first on is known to be chosen.
    #[tactic(auto, using(cx_grid::proofs::Crossing::numbers_more))]
    pub fn contains_all(&self, first: u64, count: u64) -> bool
        requires { first + count < 2 ^ 64 }
        ensures { result ≡ list_all (λ s. is_in s self.now.list) (numbers first count) }
    {
        for slot in first..first + count {
            if !self.contains(slot) {
                return false;
            }
        }
        true
    }
}
