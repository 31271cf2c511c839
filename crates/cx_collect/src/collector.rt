//! Who has answered.

ghost use Rattle.std.specs.Prelude.{◌≡◌, ◌<◌, ◌&&◌, IsTrue};
ghost use Rattle.cx_base.specs.Grid.{is_in};
ghost use Rattle.cx_model.specs.Collection.{not_collecting, collection_from, is_off, is_collecting, is_retired};
ghost use Rattle.cx_collect.specs.Collecting.{counts_informed, informed_by, counts_forgotten, forgotten_by, recounted};

use cx_base::Grid;
use cx_grid::{Marks, column_whole, is_member};
use cx_model::Stage;
use std::marker::Model;

/// How far a leader is in retiring the rounds below its own. Nothing here takes memory.
#[derive(Drop)]
pub struct Collector {
    grid: Grid,
    f: u8,
    stage: Stage,
    mark: u64,
    counted: Marks,
    // How many matchmakers were counted, while they are asked.
    forgotten: u8,
}

impl Model for Collector {
    ghost use Rattle.cx_collect.specs.Collecting.{CollectorState, IsCount};

    ghost Value = { CollectorState };

    ghost view = { λ k. record {
      grid = k.grid;
      f = k.f;
      collection = record { stage = k.stage; mark = k.mark; counted = k.counted };
    } };

    ghost invariant = { λ k.
        IsCount k.f k.forgotten (record { stage = k.stage; mark = k.mark; counted = k.counted }) };
}

impl Collector {
    /// No collection.
    pub fn off() -> Self
        ensures { result.collection ≡ not_collecting }
    {
        Collector {
            // Nobody is asked, so any grid will do.
            grid: Grid::from_parts(1, 1, &[0]),
            f: 0,
            stage: Stage::Off,
            mark: 0,
            counted: Marks::new(),
            forgotten: 0,
        }
    }

    /// A collection that begins: the acceptors of a grid are informed that enough replicas hold all slots below `cw`, and then
    /// f + 1 matchmakers are to forget the earlier rounds.
    pub fn start(grid: Grid, f: u8, cw: u64) -> Self
        ensures { result ≡ record { grid = grid; f = f; collection = collection_from cw } }
    {
        Collector {
            grid,
            f,
            stage: Stage::Informing,
            mark: cw,
            counted: Marks::new(),
            forgotten: 0,
        }
    }

    /// An acceptor, whose id is below 64, knows that enough replicas hold `cw` slots. Answers whether a column became whole,
    /// which ends the stage. Nothing changes, and the answer is no, outside the stage `Informing`, and where `cw` is below
    /// the mark, the acceptor is no member of the grid, or it was counted.
    pub fn informed(&mut self, id: u16, cw: u64) -> bool
        requires { id < 64 }
        ensures whole { result
            ≡ (counts_informed id cw self.old && is_collecting self.new.collection.stage) }
        ensures counted { self.new ≡ informed_by id cw self.old }
    {
        if !self.counts_informed(id, cw) {
            return false;
        }
        self.counted.add(id);
        if !column_whole(&self.grid, &self.counted) {
            return false;
        }
        self.stage = Stage::Collecting;
        self.counted = Marks::new();
        self.forgotten = 0;
        true
    }

    /// A matchmaker, whose id is below 64, forgot the earlier rounds. Answers whether f + 1 have, which ends the stage.
    /// Nothing changes, and the answer is no, outside the stage `Collecting` and where the matchmaker was counted.
    pub fn garbage_b(&mut self, id: u16) -> bool
        requires { id < 64 }
        ensures enough { result
            ≡ (counts_forgotten id self.old && is_retired self.new.collection.stage) }
        ensures counted { self.new ≡ forgotten_by id self.old }
    {
        if !self.counts_forgotten(id) {
            return false;
        }
        self.counted.add(id);
        if self.forgotten == self.f {
            self.stage = Stage::Retired;
            return true;
        }
        self.forgotten += 1;
        false
    }

    /// Forgets which matchmakers were counted, where those of another set are asked in their place: f + 1 of these are to
    /// forget the earlier rounds.
    pub fn recount(&mut self)
        requires { IsTrue (is_collecting self.old.collection.stage) }
        ensures { self.new ≡ recounted self.old }
    {
        self.counted = Marks::new();
        self.forgotten = 0;
    }

    /// Whether an acceptor or a matchmaker was counted in the present stage.
    pub fn counted(&self, id: u16) -> bool
        ensures { result ≡ is_in id self.now.collection.counted }
    {
        self.counted.contains(id)
    }

    /// The number of slots that is sent.
    pub fn mark(&self) -> u64
        ensures { result ≡ self.now.collection.mark }
    {
        self.mark
    }

    /// What it waits for.
    pub fn stage(&self) -> Stage
        ensures { result ≡ self.now.collection.stage }
    {
        self.stage
    }

    fn counts_informed(&self, id: u16, cw: u64) -> bool
        ensures { result ≡ counts_informed id cw self.now }
    {
        matches!(self.stage, Stage::Informing)
            && self.mark <= cw
            && is_member(&self.grid, id)
            && !self.counted.contains(id)
    }

    fn counts_forgotten(&self, id: u16) -> bool
        ensures { result ≡ counts_forgotten id self.now }
    {
        matches!(self.stage, Stage::Collecting) && !self.counted.contains(id)
    }
}
