//! Of what more is said than how a run ended.

ghost use Rattle.std.specs.Prelude.{◌≡◌};
ghost use Rattle.compax.specs.Further.{further_of, is_tended};

use crate::words::Invocation;
use cx_base::{RoleId, Status};

/// What the system said of the last fault of these.
#[derive(Clone, Copy)]
pub enum Further {
    Link,
    Store { role: RoleId },
}

// Whether a node is asked for that tends its roles.
fn is_tended(asked: &Option<Invocation>) -> bool
    ensures { result ≡ is_tended asked.now }
{
    match asked {
        Some(Invocation::Node { tend, .. }) => tend.is_some(),
        _ => false,
    }
}

/// What is told behind the line of a status, where a node tends its roles: what the system said of its link or of a store that failed.
pub fn further_of(status: &Status, asked: &Option<Invocation>) -> Option<Further>
    ensures { result ≡ further_of status.now asked.now }
{
    if !is_tended(asked) {
        return None;
    }
    match status {
        Status::LinkFault => Some(Further::Link),
        Status::StoreFault { role } => Some(Further::Store { role: *role }),
        _ => None,
    }
}
