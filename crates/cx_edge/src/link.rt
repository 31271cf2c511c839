//! Links: datagrams between roles, each bound to a port.

ghost use Rattle.std.specs.Prelude.{◌≡◌, ℕ, Option, OnOk, IfSome};
ghost use Rattle.cx_base.specs.Faults.{Rises};
ghost use Rattle.cx_disk.specs.Disk.{HasCause};
ghost use Rattle.cx_edge.specs.declared.link.TakeEnd.TheVariants as take_end;
ghost use Rattle.cx_edge.specs.Link.{LinkHistory, Binds, IsUnbound, Sends, Takes};

use cx_base::RoleId;
use cx_disk::Failed;

/// One datagram was taken, none was there, or the take failed.
#[derive(Clone, Copy, Debug, PartialEq, Eq)]
pub enum TakeEnd {
    /// A datagram of this many bytes, which are now the first of the buffer.
    Got(usize),
    Nothing,
    /// None, and the fault was counted.
    Failed,
}

/// What carries datagrams between ports. They may be lost, repeated, and come in any order.
pub trait Link {
    /// Its history, where it is known.
    ghost history: { Self → Option LinkHistory };

    /// How often a bind or a take has failed.
    ghost faults: { Self → ℕ };

    /// How many sends were lost, which is no fault.
    ghost losses: { Self → ℕ };

    /// Gives the role a port of its own, from which it sends and to which others send. It fails where the role or the port is
    /// bound already.
    fn bind(&mut self, role: RoleId, port: u16) -> Result<(), Failed>
        ensures history { Binds (history self.old) (history self.new) role port result }
        ensures once { OnOk result (IfSome (history self.old) (IsUnbound role port)) }
        ensures cause { HasCause (faults self.old) (faults self.new) result }
        ensures still { OnOk result (faults self.new ≡ faults self.old) }
        ensures losses { losses self.new ≡ losses self.old };

    /// Sends bytes from a role to a port. A send that fails is a loss, and counted as one.
    fn send(&mut self, from: RoleId, port: u16, bytes: &[u8]) -> Result<(), Failed>
        ensures history { Sends (history self.old) (history self.new) from port bytes.now result }
        ensures losses { HasCause (losses self.old) (losses self.new) result }
        ensures still { faults self.new ≡ faults self.old };

    /// Takes one datagram that was sent to a bound port, if one is there. A datagram that is longer than the buffer is cut to it.
    fn take(&mut self, buffer: &mut [u8]) -> TakeEnd
        ensures history { Takes (history self.old) (history self.new) buffer.new result }
        ensures cause { result ≡ take_end.Failed → Rises (faults self.old) (faults self.new) }
        ensures still { (result ≡ take_end.Failed → ⊥) → faults self.new ≡ faults self.old }
        ensures losses { losses self.new ≡ losses self.old };
}
