//! Where a key is in the order of pairs.

ghost use Rattle.std.specs.Prelude.{◌≡◌, ◌<◌, ℕ, length, slice_get, slice_index_or, IfErr, IfOk};
ghost use Rattle.std.specs.Str.{bytes_eq};
ghost use Rattle.cx_base.specs.Fold.{is_less};
ghost use Rattle.cx_base.specs.declared.command.Pair.{Pair};
ghost use Rattle.cx_kv.specs.Picked.{AreBelow, is_pair_before, picked, IsKeyOrder};
ghost use Rattle.cx_kv.specs.Place.{IsFreeAt, IsHeldAt, IsPlace};

use cx_base::{Key, Pair};

fn is_less(one: &Key, other: &Key) -> bool
    ensures { result ≡ is_less one.now other.now }
{
    one < other
}

/// Whether two keys are the same.
pub fn same_key(one: &Key, other: &Key) -> bool
    ensures { result ≡ bytes_eq one.now other.now }
{
    one == other
}

/// Where the pair at a place of the order is.
#[tactic(auto, using(crate::proofs::Picking::inside_at))]
pub fn index_at(order: &[u32], place: usize) -> usize
    requires { place < length order.now }
    ensures index { result ≡ slice_index_or order.now place 0 }
    ensures inside { (end : ℕ) → AreBelow end order.now → result < end }
{
    order[place] as usize
}

/// The pair at a place of the order.
pub fn pair_at<'a>(list: &'a [Pair], order: &[u32], place: usize) -> &'a Pair
    requires ordered { IsKeyOrder list.now order.now }
    requires inside { place < length order.now }
    ensures { (d : Pair) → slice_index_or (picked list.now order.now) place d ≡ result.now }
{
    let index = index_at(order, place);
    &list[index]
}

fn is_pair_before(list: &[Pair], index: u32, key: &Key) -> bool
    ensures { result ≡ is_pair_before key.now (slice_get list.now index) }
{
    match list.get(index as usize) {
        Some(pair) => is_less(&pair.key, key),
        None => false,
    }
}

/// The place of a key in the order, or where it would be.
pub fn key_place(list: &[Pair], order: &[u32], key: &Key) -> usize
    requires { IsKeyOrder list.now order.now }
    ensures { IsPlace key.now (picked list.now order.now) result }
{
    order.partition_point(|index| is_pair_before(list, *index, key))
}

/// Where a key is in the order, or else where it belongs.
pub fn look_up(list: &[Pair], order: &[u32], key: &Key) -> Result<usize, usize>
    requires { IsKeyOrder list.now order.now }
    ensures placed { IfOk result (IsHeldAt key.now (picked list.now order.now)) }
    ensures free { IfErr result (IsFreeAt key.now (picked list.now order.now)) }
{
    let place = key_place(list, order, key);
    if place < order.len() && same_key(&pair_at(list, order, place).key, key) {
        return Ok(place);
    }
    Err(place)
}
