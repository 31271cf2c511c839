//! What a tended node tells whoever watches it. It is no part of what the node prints.

ghost use Rattle.std.specs.Prelude.{◌≡◌};

use crate::care::Care;
use cx_edge::{Remark, Sink};
use cx_keep::Renew;
use cx_seat::Seat;

// After so many beats in which no client was told anything that is said, once in each silence.
const SILENT: u32 = 64;

// Says of each client that it waits.
fn remark_all<K: Renew, W: Sink>(seats: &[Seat<K>], out: &mut W)
    ensures taken { W.taken out.new ≡ W.taken out.old }
    ensures still { W.faults out.new ≡ W.faults out.old }
{
    for seat in seats {
        if let Some(number) = seat.unanswered() {
            out.remark(Remark {
                client: seat.name(),
                number,
                beats: SILENT,
            });
        }
    }
}

/// Where this is the beat at which the clients have been told nothing for long, each that waits is remarked on.
pub fn remark_silence<K: Renew, W: Sink>(seats: &[Seat<K>], care: &Care, out: &mut W)
    ensures taken { W.taken out.new ≡ W.taken out.old }
    ensures still { W.faults out.new ≡ W.faults out.old }
{
    if care.still() == SILENT {
        remark_all(seats, out);
    }
}
