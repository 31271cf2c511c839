//! No dead ends: while room is left, each command that was submitted can be answered.
//!
//! The other laws say that nothing bad happens; a cluster that can do nothing any more breaks none of
//! them. Its theorem is `no_dead_ends`: from each world that any list of events reaches, while room is
//! left in its stores (`IsRoomy`), some further events bring an answer to each command that was
//! submitted.
//!
//! Room is left while f + 1 of the first set of matchmakers haven't stopped and have fewer than 16 rounds
//! recorded now, or, where the cluster has one entry a grid, one whose grid is acceptor 0 alone; a round
//! is left above all in the stores, and a slot above all that are held or were voted in; recorded grids
//! have rows, which they have where those of all orders have, as the program's type of a grid says
//! (`grids_come_from_orders`); and neither a replica nor a vote knows that the client is done with the
//! number.
//!
//! The further events stop and open roles, let them tick, deliver datagrams, and order leaders to lead
//! over real grids (`may_help`); no client asks anew. So nothing that only runs matters, and what a restart
//! alone would heal is no dead end here. Nothing is said of time, nor of what nodes do by themselves; nor
//! of reads and sessions, nor of clusters whose first set of matchmakers was replaced.
#![tactic(auto)]

ghost use Rattle.cx_model.specs.Promises.{OfEveryRun};
ghost use Rattle.cx_inv_alive.specs.Alive.{GridsComeFromOrders, NoDeadEnds};
ghost use Rattle.cx_inv_alive.specs.Examples.{FirstCommandIsAnswered, VotedCommandIsAnswered};

/// No list of events leads a cluster to a dead end, while room is left.
pub fn no_dead_ends()
    ensures { OfEveryRun NoDeadEnds }
{}

/// The grids that matchmakers recorded have rows, where those of the orders have: each one was ordered.
pub fn grids_come_from_orders()
    ensures { GridsComeFromOrders }
{}

/// So three of each of matchmakers, acceptors and replicas can answer a first command.
pub fn first_command_is_answered()
    ensures { FirstCommandIsAnswered }
{}

/// So a command that was voted for can be answered, though the acceptor crashed in its vote, and then all others.
pub fn voted_command_is_answered()
    ensures { VotedCommandIsAnswered }
{}
