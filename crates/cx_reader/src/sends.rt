//! What a reader sends for a turn.

ghost use Rattle.std.specs.Prelude.{◌≡◌, ◌≤◌, ◌++◌};
ghost use Rattle.cx_role.specs.Prelude.{length, IsTrue, role};
ghost use Rattle.cx_role.specs.Prelude.kind;
ghost use Rattle.cx_model.specs.Reader.{asking, ask_matchmakers};
ghost use Rattle.cx_field.specs.Fields as field;

use cx_field::Asking;
use cx_letter::match_read;
use cx_role::Outbox;

/// What tells the datagrams of a turn apart.
#[tactic(auto, unfolding(cx_field::specs::Fields::asking, cx_wire::specs::Format::u16))]
pub fn asking(reader: u16, turn: u64) -> Asking
    requires { IsTrue (field.seq.fits turn) }
    ensures asking { result ≡ asking reader turn }
    ensures fits { IsTrue (field.asking.fits result) }
{
    Asking { reader, turn }
}

/// Asks the matchmakers of a set for their entries. Room was taken beforehand.
pub fn ask_matchmakers(reader: u16, turn: u64, set: &[u16], out: &mut Outbox)
    requires spare { length set.now ≤ out.old.spare }
    requires turn { IsTrue (field.seq.fits turn) }
    ensures { out.new.list
        ≡ out.old.list ++ ask_matchmakers (role kind.Reader reader) set.now turn }
{
    let asking = asking(reader, turn);
    for matchmaker in set {
        out.push(match_read(reader, *matchmaker, asking));
    }
}
