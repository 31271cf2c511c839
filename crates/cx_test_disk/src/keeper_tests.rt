//! What a keeper in memory keeps where an append or a renewal is cut.

ghost use Rattle.std.specs.Prelude.{IfOk, IsTrue};
ghost use Rattle.cx_letter.specs.Records.{fits};

use cx_base::Cut;
use cx_keeper::{Keeper, MemKeeper, Renew};
use cx_msg::{Record, record_from};
use std::alloc::Global;
use std::test::Fail;

// A promise of the round (1, 0, 0).
const PROMISE: [u8; 11] = [1, 0, 0, 0, 1, 0, 0, 0, 0, 0, 0];

// An append, or a renewal with so many records; what it is cut by, whether it succeeds, and how many records are kept after it.
const CHANGES: [(Option<usize>, Cut, bool, usize); 9] = [
    (None, Cut::Whole, true, 1),
    (None, Cut::Torn, false, 1),
    (None, Cut::Kept, false, 2),
    (Some(1), Cut::Torn, false, 2),
    (Some(1), Cut::Kept, false, 1),
    (Some(2), Cut::Whole, true, 2),
    (Some(0), Cut::Torn, false, 2),
    (Some(0), Cut::Whole, true, 0),
    (None, Cut::Whole, true, 1),
];

fn promise(alloc: Global) -> Result<Record, Fail>
    ensures { IfOk result (λ r. IsTrue (fits r)) }
{
    Ok(record_from(alloc, &PROMISE)?)
}

fn appends(alloc: Global, keeper: &mut MemKeeper) -> Result<bool, Fail> {
    let what = promise(alloc)?;
    Ok(keeper.append(&what).is_ok())
}

fn renews(alloc: Global, keeper: &mut MemKeeper, count: usize) -> Result<bool, Fail> {
    match count {
        0 => Ok(keeper.renew(&[]).is_ok()),
        1 => Ok(keeper.renew(&[promise(alloc)?]).is_ok()),
        _ => Ok(keeper.renew(&[promise(alloc)?, promise(alloc)?]).is_ok()),
    }
}

fn changes(
    alloc: Global,
    keeper: &mut MemKeeper,
    renewed: Option<usize>,
    cut: Cut,
) -> Result<bool, Fail> {
    keeper.cut(cut);
    match renewed {
        Some(count) => renews(alloc, keeper, count),
        None => appends(alloc, keeper),
    }
}

// Whether it reads its records again.
fn recovers(keeper: &mut MemKeeper) -> bool {
    keeper.recover().is_ok()
}

// Whether it gives the record that was kept last.
fn gives_last(keeper: &MemKeeper) -> Result<bool, Fail> {
    let count = keeper.len();
    if count == 0 {
        return Ok(false);
    }
    Ok(keeper.kept_since(count - 1)?.is_some())
}

#[test]
fn keeps_what_a_change_leaves(rt: HostRuntime) -> Result<(), Fail> {
    let mut keeper = MemKeeper::new(rt.alloc());
    for (renewed, cut, is_ok, count) in CHANGES {
        assert_eq!(rt; changes(rt.alloc(), &mut keeper, renewed, cut)?, is_ok);
        assert_eq!(rt; keeper.len(), count);
    }
    assert!(rt; recovers(&mut keeper));
    assert!(rt; gives_last(&keeper)?);
    Ok(())
}
