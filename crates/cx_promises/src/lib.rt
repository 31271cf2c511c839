//! What every run is promised: linearizability, agreement, one list, fresh reads, sessions, safe retirement, one next
//! set of matchmakers, safe snapshots, announcement, changes of grid, recovery, no dead ends.
//!
//! The world, the replay and the node cite it; the law crates prove its sentences, each in one of
//! them. Its theorem is `runs_are_lawful`: all promises (`IsLawful`) hold of the run of each list of
//! events over each cluster.
#![tactic(auto)]

ghost use Rattle.cx_promises.specs.Lawful.{RunsAreLawful};

/// Every run is lawful: all that is promised, of one run.
pub fn runs_are_lawful()
    ensures { RunsAreLawful }
{}
