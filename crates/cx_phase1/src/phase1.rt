//! Who has promised.

ghost use Rattle.std.specs.Prelude.{◌≡◌, ◌≤◌, ◌^◌, [], true, IsTrue, IfOk, OnOk, OnErr};
ghost use Rattle.cx_field.specs.Fields as field;
ghost use Rattle.cx_model.specs.Matched.{is_member_of, rows_whole};
ghost use Rattle.cx_model.specs.Plan.{plan};
ghost use Rattle.cx_phase1.specs.Counting.{are_ids, count_promise, counted_by};
ghost use Rattle.cx_phase1.specs.Planned.{IsPlan};

use crate::best::{Best, take_in};
use crate::planning::{end_of, plan};
use crate::promises::{Promises, none, same_promises, with_promise};
use crate::told::Told;
use cx_base::{Duplicate, NoMemory, copy_all};
use cx_field::{Entry, Votes};
use cx_grid::{Marks, is_member, row_whole};
use cx_model::Plan;
use cx_ring::Ring;
use std::alloc::Global;
use std::marker::Model;

/// The grids of earlier rounds that are not retired, and the acceptors that have promised, with what they reported.
#[derive(Drop)]
pub struct Phase1 {
    alloc: Global,
    live: Vec<Entry>,
    marks: Marks,
    // The best vote reported for each slot from the greatest chosen watermark reported on.
    best: Best,
    // One more than the greatest slot reported, or 0.
    end: u64,
    // What contracts see of the promises.
    told: Promises,
}

impl Model for Phase1 {
    ghost use Rattle.cx_phase1.specs.Counting.{Phase1State};
    ghost use Rattle.cx_phase1.specs.Sound.{IsSound};

    ghost Value = { Phase1State };

    ghost view = { λ p. record { live = p.live.items; promises = p.told.items } };

    ghost invariant = { λ p. IsSound p.live.items p.told.items p.marks p.best p.end };
}

// Whether an acceptor is a member of one of the grids.
fn is_member_of(live: &[Entry], acceptor: u16) -> bool
    ensures { result ≡ is_member_of live.now acceptor }
{
    live.iter().any(|entry| is_member(&entry.grid, acceptor))
}

// Whether each of the grids has a whole row.
fn rows_whole(live: &[Entry], marks: &Marks) -> bool
    ensures { result ≡ rows_whole live.now marks.now }
{
    for entry in live {
        if !row_whole(&entry.grid, marks) {
            return false;
        }
    }
    true
}

impl Phase1 {
    /// Nobody counted, over the entries of earlier rounds that are not retired. A grid's members are below 64.
    pub fn new(alloc: Global, entries: &[Entry]) -> Result<Self, NoMemory>
        requires { IsTrue (are_ids entries.now) }
        ensures { IfOk result (λ phase1. phase1 ≡ record { live = entries.now; promises = [] }) }
    {
        Ok(Phase1 {
            alloc,
            live: copy_all(alloc, entries)?,
            marks: Marks::new(),
            best: Ring::new(alloc, 0),
            end: 0,
            told: none(),
        })
    }

    /// Whether an acceptor is asked: it is a member of one of the grids.
    pub fn asks(&self, acceptor: u16) -> bool
        ensures { result ≡ is_member_of self.now.live acceptor }
    {
        is_member_of(&self.live, acceptor)
    }

    /// An acceptor promises, and reports what it voted from the slot `cw` on: votes of rising slots of the window of 32 slots
    /// from there on. Out of memory, it leaves all as it was, and so do the answers `Same` and `Unasked`,
    /// of which the latter takes none.
    pub fn answer(&mut self, acceptor: u16, cw: u64, votes: &Votes) -> Result<Told, NoMemory>
        requires cw { IsTrue (field.mark.fits cw) }
        requires votes { IsTrue ((field.votes cw).fits votes.now) }
        ensures told { IfOk result
            (λ told. told ≡ count_promise self.old
            (record { acceptor = acceptor; cw = cw; votes = votes.now })) }
        ensures counted { OnOk result
            (self.new ≡ counted_by self.old
            (record { acceptor = acceptor; cw = cw; votes = votes.now })) }
        ensures no_memory { OnErr result (self.new ≡ self.old) }
        ensures spared { OnErr result (is_member_of self.old.live acceptor ≡ true) }
    {
        if !is_member_of(&self.live, acceptor) {
            return Ok(Told::Unasked);
        }
        if self.marks.contains(acceptor) {
            return Ok(Told::Same);
        }
        let copied = votes.copy(self.alloc)?;
        self.best.make_room(self.alloc)?;
        // From here on nothing takes memory.
        self.told = with_promise(&self.told, acceptor, cw, votes);
        self.end = end_of(self.end, cw, votes.as_slice());
        take_in(&mut self.best, cw, copied.into_vec());
        self.marks.add(acceptor);
        if rows_whole(&self.live, &self.marks) {
            Ok(Told::Whole)
        } else {
            Ok(Told::Counted)
        }
    }

    /// What the leader proposes once each live grid has a whole row: from the greatest chosen watermark reported, and at least `low`, to
    /// after the greatest slot reported, in each slot the value of the greatest round voted there, or a no-op (VLDB 2021).
    pub fn plan(&self, low: u64) -> Result<Plan, NoMemory>
        requires { low ≤ 2 ^ 40 }
        ensures plan { IfOk result (λ found. found ≡ plan low self.now.promises) }
        ensures ranges { IfOk result (λ found. IsPlan found) }
    {
        plan(self.alloc, low, &self.best, self.end)
    }
}

impl Duplicate for Phase1 {
    fn copy(&self, alloc: Global) -> Result<Self, NoMemory> {
        Ok(Phase1 {
            alloc,
            live: copy_all(alloc, &self.live)?,
            marks: self.marks.copy(alloc)?,
            best: self.best.copy(alloc)?,
            end: self.end,
            told: same_promises(&self.told),
        })
    }
}
