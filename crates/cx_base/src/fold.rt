//! Which command of a list acts.

ghost use Rattle.std.specs.Prelude.{◌≡◌};
ghost use Rattle.cx_base.specs.Fold.{acts};

use crate::command::Command;

/// Whether a command acts after those before it: none of them is its client's with the same number, or with a floor that isn't below it
/// (this project's own rule, by which a client tells which of its numbers it is done with).
pub fn acts(before: &[Command], command: &Command) -> bool
    ensures { result ≡ acts before.now command.now }
{
    for earlier in before {
        if earlier.client == command.client
            && (earlier.seq == command.seq || command.seq <= earlier.floor)
        {
            return false;
        }
    }
    true
}
