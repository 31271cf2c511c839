//! A role opens from what its own steps appended.

ghost use Rattle.std.specs.Prelude.{◌≡◌, ◌++◌, List, None};
ghost use Rattle.cx_base.specs.declared.cluster.Cluster.{Cluster};
ghost use Rattle.cx_base.specs.declared.role.RoleId.{RoleId};
ghost use Rattle.cx_model.specs.Rules.{folded, refused};
ghost use Rattle.cx_letter.specs.declared.kept.Record.{Record};
ghost use Rattle.cx_role.specs.Own.{FitAlong};

use crate::Role;

/// A law of each kind of role. Each step says of its record that the role may append it in the state in which it is (the clause
/// `fits` of `take` and of `order`). So a role that refused none of the records from which it was opened refuses none of those
/// that its steps append after them.
pub fn own_records_open<R: Role>()
    ensures { (c : Cluster) (me : RoleId) (records own : List Record)
        → refused R.rules c me records ≡ None
        → FitAlong R.rules c me (folded R.rules records) own
        → refused R.rules c me (records ++ own) ≡ None }
{}
