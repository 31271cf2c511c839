//! Opening again: a role refuses no record of its store.
//!
//! A role that is opened tests each record of its store, since a store may be another role's. Its
//! theorem is `roles_reopen_law`: in every run (of a replica: of events that the world takes) no role
//! refuses a record of the list in its store, also where that was renewed, so that each can be opened
//! again at any moment. Since a second Boot would be refused, a matchmaker keeps one at most
//! (`matchmakers_begin_once`).
#![tactic(auto)]

ghost use Rattle.cx_model.specs.Promises.{EachBeginsOnce, OfEveryRun};
ghost use Rattle.cx_inv_open.specs.Reopened.{RolesReopen};

/// Each role can be opened again from the list in its store.
pub fn roles_reopen_law()
    ensures { OfEveryRun RolesReopen }
{}

/// A matchmaker begins in a set once at most, and a member of the first set never.
pub fn matchmakers_begin_once()
    ensures { OfEveryRun EachBeginsOnce }
{}
