//! How hosted roles get their ports.

ghost use Rattle.std.specs.Prelude.{◌≡◌, ℕ, true, false, take};
ghost use Rattle.cx_base.specs.Faults.{Rises};
ghost use Rattle.cx_node.specs.Hosting.{with_bound};

use crate::sending::port_of;
use cx_base::{Cluster, RoleId};
use cx_edge::Link;

/// Binds each role to its port, in their order, up to the first that fails, and answers whether none did.
pub fn bind_all<L: Link>(cluster: &Cluster, roles: &[RoleId], link: &mut L) -> bool
    ensures all { result ≡ true
        → L.history link.new ≡ with_bound cluster.now roles.now (L.history link.old) }
    ensures part { (bound : ℕ)
        × (L.history link.new
        ≡ with_bound cluster.now (take bound roles.now) (L.history link.old)) }
    ensures failed { result ≡ false → Rises (L.faults link.old) (L.faults link.new) }
    ensures still { result ≡ true → L.faults link.new ≡ L.faults link.old }
{
    for role in roles {
        if link.bind(*role, port_of(cluster, *role)).is_err() {
            return false;
        }
    }
    true
}
