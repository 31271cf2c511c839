//! Which rounds follow one another, and the orders to begin one. A round is a number, its leader, and how often that leader has
//! changed its grid since it began with the number: `(r, id, s)`, in this order.

ghost use Rattle.std.specs.Prelude.{◌≡◌, ◌==◌, ◌&&◌, ◌+◌};
ghost use Rattle.cx_role.specs.Prelude.{[], true, Some, IsTrue, same_round, names_round, names_grid, IsStep, MayKeep};
ghost use Rattle.cx_model.specs.Leader.{round_of, follows, begin_in, lead_row, change_row, leader_rules};
ghost use Rattle.cx_field.specs.Fields as field;

use crate::Leader;
use crate::sending::ask_to_record;
use cx_base::{Cluster, Grid, Round, Why};
use cx_collect::Collector;
use cx_field::{Entry, grid_fits};
use cx_keep::Keeper;
use cx_letter::Record;
use cx_model::Mode;
use cx_role::{Outbox, StepFault, keep, names_grid, names_round};

pub fn is_same(a: Round, b: Round) -> bool
    ensures { result ≡ same_round a b }
{
    a.r == b.r && a.id == b.id && a.s == b.s
}

/// The round of an entry, or no round.
pub fn round_of(own: &Option<Entry>) -> Round
    ensures { result ≡ round_of own.now }
{
    match own {
        None => Round::ZERO,
        Some(entry) => entry.round,
    }
}

// Whether a change goes from one round on to the other.
fn is_next(own: Round, round: Round) -> bool
    ensures { result ≡ same_round round (record own { s = own.s + 1 }) }
{
    match Round::change_after(own) {
        None => false,
        Some(next) => is_same(round, next),
    }
}

// Whether a leader's last round and its next one may be these: it leads in a greater one anew, or it changes its grid.
fn follows(own: Round, round: Round) -> bool
    ensures { result ≡ follows own round }
{
    own.is_before(&round) && round.s == 0 || is_next(own, round)
}

/// Whether a leader with this last round may begin that one with this grid.
pub fn may_begin(cluster: &Cluster, leader: u16, own: Round, round: Round, grid: &Grid) -> bool
    ensures { result ≡ (names_round cluster.now round && names_grid cluster.now grid.now
        && (round.id == leader) && follows own round) }
{
    names_round(cluster, round)
        && names_grid(cluster, grid)
        && round.id == leader
        && follows(own, round)
}

impl Leader {
    // The round is kept before the matchmakers are asked to record it. What was proposed stays, for a change to begin with.
    #[tactic(auto, unfolding(cx_letter::specs::Records::kept_record, cx_letter::specs::Records::round_grid))]
    fn begin<K: Keeper>(
        &mut self,
        keeper: &mut K,
        round: Round,
        grid: &Grid,
        out: &mut Outbox,
    ) -> Result<Why, StepFault>
        requires live { self.old.live ≡ true }
        requires empty { out.old.list ≡ [] }
        requires round { IsTrue (field.round.fits round) }
        requires own { round.id ≡ self.old.me.index }
        ensures { let s = self.old in
            IsStep K.append_gives K.tells leader_rules s (begin_in s.cluster s.me s.volatile
            grid.now (Some round)) result self.new keeper.old keeper.new out.new.list }
    {
        out.room(self.set.ids().len())?;
        // It does nothing when it runs: its contract says that the record has a spelling, the bytes it is stored as.
        grid_fits(grid);
        keep(
            keeper,
            &mut self.live,
            &Record::Round { round, grid: *grid },
        )?;
        self.own = Some(Entry { round, grid: *grid });
        self.mode = Mode::Matching;
        self.told.clear();
        self.phase1 = None;
        self.collector = Collector::off();
        ask_to_record(self.index, round, grid, self.set.ids(), out);
        Ok(Why::Started)
    }

    /// The order to lead: a round above all that it has seen, unless numbers end (`End`).
    #[tactic(auto, unfolding(cx_field::specs::Fields::round, cx_wire::specs::Format::u16, cx_wire::specs::Format::u32))]
    pub(crate) fn lead<K: Keeper>(
        &mut self,
        keeper: &mut K,
        grid: &Grid,
        out: &mut Outbox,
    ) -> Result<Why, StepFault>
        requires live { self.old.live ≡ true }
        requires empty { out.old.list ≡ [] }
        ensures step { let s = self.old in
            IsStep K.append_gives K.tells leader_rules s (lead_row s.cluster s.me s.durable
            s.volatile grid.now) result self.new keeper.old keeper.new out.new.list }
        ensures fits { let s = self.old in
            MayKeep leader_rules s (lead_row s.cluster s.me s.durable s.volatile grid.now) }
    {
        if !names_grid(&self.cluster, grid) {
            return Ok(Why::Stranger);
        }
        match Round::lead_after(round_of(&self.own), self.seen, self.index) {
            None => Ok(Why::End),
            Some(round) => self.begin(keeper, round, grid, out),
        }
    }

    /// The order to go on with another grid: the next round of its own (JSys 2021).
    #[tactic(auto, unfolding(cx_field::specs::Fields::round, cx_wire::specs::Format::u16, cx_wire::specs::Format::u32))]
    pub(crate) fn change<K: Keeper>(
        &mut self,
        keeper: &mut K,
        grid: &Grid,
        out: &mut Outbox,
    ) -> Result<Why, StepFault>
        requires live { self.old.live ≡ true }
        requires empty { out.old.list ≡ [] }
        ensures step { let s = self.old in
            IsStep K.append_gives K.tells leader_rules s (change_row s.cluster s.me s.durable
            s.volatile grid.now) result self.new keeper.old keeper.new out.new.list }
        ensures fits { let s = self.old in
            MayKeep leader_rules s (change_row s.cluster s.me s.durable s.volatile grid.now) }
    {
        if !names_grid(&self.cluster, grid) {
            return Ok(Why::Stranger);
        }
        if !matches!(self.mode, Mode::Leading) {
            return Ok(Why::Idle);
        }
        match Round::change_after(round_of(&self.own)) {
            None => Ok(Why::End),
            Some(round) => self.begin(keeper, round, grid, out),
        }
    }
}
