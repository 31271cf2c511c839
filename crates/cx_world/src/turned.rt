//! The result of a turn, of one role and of the world.

ghost use Rattle.std.specs.Prelude.{◌≡◌, true, option_to_list};
ghost use Rattle.cx_history.specs.Kept.{all_changes_fit, changes_kept};

use cx_base::{RoleId, Why};
use cx_letter::{KeptRecord, Written};

/// The result of a turn of a role, beside the seat and the outbox: in which word, and how its store was changed.
#[derive(Drop)]
pub struct Turned {
    pub why: Why,
    pub kept: Option<Written>,
    ghost fits: { all_changes_fit (option_to_list kept) ≡ true },
}

/// The result of an event, beside the roles and the outbox: at which role, in which word, and which store was changed how.
#[derive(Drop)]
pub struct Changed {
    pub who: Option<RoleId>,
    pub why: Why,
    pub kept: Option<KeptRecord>,
    ghost fits: { all_changes_fit (changes_kept (option_to_list kept)) ≡ true },
}
