//! A kind of role that puts its list anew.

ghost use Rattle.std.specs.Prelude.{◌≡◌, [], true};
ghost use Rattle.cx_role.specs.Snap.{IsSnap, MayRenew, snap_of};

use crate::{Outbox, Role, StepFault};
use cx_base::Why;
use cx_keep::Renew;

/// A kind of role whose list may be put anew: a snapshot, and log compaction. Of all other kinds a snap is `idle`.
pub trait Snaps: Role {
    /// Its list is put anew, where the rules say so (this project's own); else it answers `idle`. It sends nothing. Out of memory,
    /// all stays as it is. After `Failed` the list is the old one or the new one, and the role has to be opened again.
    fn snap<K: Renew>(&mut self, keeper: &mut K, out: &mut Outbox) -> Result<Why, StepFault>
        requires live { (Self.Role.state self.old).live ≡ true }
        requires empty { out.old.list ≡ [] }
        ensures snaps { IsSnap K.renew_gives K.tells Self.Role.rules (Self.Role.state self.old)
            (snap_of Self.Role.rules (Self.Role.state self.old))
            result (Self.Role.state self.new) keeper.old keeper.new out.new.list }
        ensures fits { MayRenew Self.Role.rules (Self.Role.state self.old) };
}
