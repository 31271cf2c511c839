//! The values of a ring in the order in which their slots came.

ghost use Rattle.std.specs.Prelude.{◌≡◌, ℕ, []};
ghost use Rattle.cx_ring.specs.Ring.{with_value, values_from_slot};

use crate::ghost_list::{GhostList, GhostListOf};
use std::marker::PhantomData;

/// Which slot a value has: implemented by a type that names the way.
pub trait Slotted<T> {
    ghost at: { T → ℕ };

    /// The slot of a value.
    fn slot(one: &T) -> u64
        ensures { result ≡ at one.now };
}

struct Nothing;

impl<T> GhostListOf<(), T> for Nothing {
    ghost list_shown = { λ _. [] };
}

struct Same;

impl<T> GhostListOf<GhostList<T>, T> for Same {
    ghost list_shown = { λ list. list.items };
}

struct Added<S> {
    by: PhantomData<S>,
}

impl<'a, T, S: Slotted<T>> GhostListOf<(&'a GhostList<T>, &'a T), T> for Added<S> {
    ghost list_shown = { λ x. with_value S.at x.1.now x.0.now.items };
}

struct Raised<S> {
    by: PhantomData<S>,
}

impl<'a, T, S: Slotted<T>> GhostListOf<(u64, &'a GhostList<T>), T> for Raised<S> {
    ghost list_shown = { λ x. values_from_slot S.at x.0 x.1.now.items };
}

/// No values.
pub fn none<T>() -> GhostList<T>
    ensures { result.items ≡ [] }
{
    GhostList::of::<(), Nothing>(&())
}

/// The same values.
pub fn same_values<T>(list: &GhostList<T>) -> GhostList<T>
    ensures { result.items ≡ list.now.items }
{
    GhostList::of::<GhostList<T>, Same>(list)
}

/// The values with one more.
pub fn with<T, S: Slotted<T>>(list: &GhostList<T>, one: &T) -> GhostList<T>
    ensures { result.items ≡ with_value S.at one.now list.now.items }
{
    GhostList::of::<(&GhostList<T>, &T), Added<S>>(&(list, one))
}

/// The values from a slot on.
pub fn from<T, S: Slotted<T>>(first: u64, list: &GhostList<T>) -> GhostList<T>
    ensures { result.items ≡ values_from_slot S.at first list.now.items }
{
    GhostList::of::<(u64, &GhostList<T>), Raised<S>>(&(first, list))
}
