//! Linearizability, in the textbook's words: what clients see of a run is what one map would answer.
//!
//! Its theorem is `runs_are_linearizable` (Herlihy and Wing 1990): the calls of each run, commands and reads at
//! readers, stand in one order that keeps real time, in which a sequential map answers each call as its client heard.
#![tactic(auto)]

ghost use Rattle.cx_model.specs.Promises.{OfEveryRun};
ghost use Rattle.cx_linear.specs.Examples.{HistoriesAreJudged};
ghost use Rattle.cx_linear.specs.History.{IsLinearizableRun};

/// The history of every run is linearizable.
pub fn runs_are_linearizable()
    ensures { OfEveryRun IsLinearizableRun }
{}

/// What the definition takes and refuses: a stale read, an append that acts twice and appends in a turned order are no
/// linearizable histories, nor is a response to nothing.
pub fn histories_are_judged()
    ensures { HistoriesAreJudged }
{}
