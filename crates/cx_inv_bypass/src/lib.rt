//! A change of grid: the leader asks no acceptor, and goes on with what it proposed in the round before.
//!
//! Between a leader's round and its next one there is no other, so it knows already what a first
//! phase could report. Its theorem is `bypassed_rounds_law`: in every run a step that answers
//! `bypassed` asks no acceptor; it proposes in each slot from the chosen watermark to the end what its
//! leader's round before proposed there, and nothing else.
#![tactic(auto)]

ghost use Rattle.cx_model.specs.Promises.{OfEveryRun};
ghost use Rattle.cx_inv_bypass.specs.Bypassed.{BypassedRounds};

/// A round that bypasses its first phase asks no acceptor, and proposes in each slot from its chosen watermark to its end what the
/// round before proposed there.
pub fn bypassed_rounds_law()
    ensures { OfEveryRun BypassedRounds }
{}
