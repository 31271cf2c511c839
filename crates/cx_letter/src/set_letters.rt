//! The datagrams by which matchmakers are replaced, each with the ranges of its parts, which its sender owes. None takes memory.

ghost use Rattle.std.specs.Prelude.{◌≡◌, IsTrue, length};
ghost use Rattle.cx_base.specs.Role.{role};
ghost use Rattle.cx_base.specs.declared.role.Kind.{Kind};
ghost use Rattle.cx_field.specs.Fields as field;
ghost use Rattle.cx_field.specs.Fields.{goes_with};
ghost use Rattle.cx_letter.specs.Letter.{letter};

use crate::datagram::Datagram;
use crate::message::Msg;
use cx_base::{Kind, RoleId, Round, Set};
use cx_field::{Entries, accepted_set_fits, set_fits};

/// A replacer's word to a matchmaker that it is to stop, under this ballot.
#[tactic(auto, unfolding(cx_wire::specs::Format::u16))]
pub fn stop_a(replacer: u16, matchmaker: u16, round: Round) -> Datagram
    requires round { IsTrue (field.round.fits round) }
    ensures { result
        ≡ letter (role Kind.Replacer replacer) (role Kind.Matchmaker matchmaker) (Msg.StopA round) }
{
    let from = RoleId::new(Kind::Replacer, replacer);
    let to = RoleId::new(Kind::Matchmaker, matchmaker);
    Datagram::new(from, to, Msg::StopA { round })
}

/// A matchmaker's word that it has stopped, with its entries from the watermark on, and the set that it accepted in the
/// greatest ballot; without such a ballot the set is empty.
#[tactic(auto, unfolding(crate::specs::Messages::stop_b, cx_wire::specs::Format::u16))]
pub fn stop_b(
    matchmaker: u16,
    replacer: u16,
    round: Round,
    watermark: Round,
    entries: Entries,
    accepted: Round,
    set: Set,
) -> Datagram
    requires round { IsTrue (field.round.fits round) }
    requires watermark { IsTrue (field.round0.fits watermark) }
    requires entries { IsTrue (field.entries.fits entries) }
    requires accepted { IsTrue (field.round0.fits accepted) }
    requires set { IsTrue (goes_with accepted (length set)) }
    ensures { result ≡ letter (role Kind.Matchmaker matchmaker) (role Kind.Replacer replacer)
        (Msg.StopB round watermark entries accepted set) }
{
    accepted_set_fits(&accepted, &set);
    let from = RoleId::new(Kind::Matchmaker, matchmaker);
    let to = RoleId::new(Kind::Replacer, replacer);
    Datagram::new(
        from,
        to,
        Msg::StopB {
            round,
            watermark,
            entries,
            accepted,
            set,
        },
    )
}

/// A matchmaker's word that it promised a greater ballot.
#[tactic(auto, unfolding(crate::specs::Messages::nack, cx_wire::specs::Format::u16))]
pub fn stop_nack(matchmaker: u16, replacer: u16, round: Round, other: Round) -> Datagram
    requires round { IsTrue (field.round.fits round) }
    requires other { IsTrue (field.round.fits other) }
    ensures { result ≡ letter (role Kind.Matchmaker matchmaker) (role Kind.Replacer replacer)
        (Msg.StopNack round other) }
{
    let from = RoleId::new(Kind::Matchmaker, matchmaker);
    let to = RoleId::new(Kind::Replacer, replacer);
    Datagram::new(from, to, Msg::StopNack { round, other })
}

/// A replacer's question whether a matchmaker accepts the next set.
#[tactic(auto, unfolding(cx_wire::specs::Format::u16))]
pub fn next_a(replacer: u16, matchmaker: u16, round: Round, set: Set) -> Datagram
    requires round { IsTrue (field.round.fits round) }
    ensures { result ≡ letter (role Kind.Replacer replacer) (role Kind.Matchmaker matchmaker)
        (Msg.NextA round set) }
{
    set_fits(&set);
    let from = RoleId::new(Kind::Replacer, replacer);
    let to = RoleId::new(Kind::Matchmaker, matchmaker);
    Datagram::new(from, to, Msg::NextA { round, set })
}

/// A matchmaker's word that it accepted the next set.
#[tactic(auto, unfolding(cx_wire::specs::Format::u16))]
pub fn next_b(matchmaker: u16, replacer: u16, round: Round) -> Datagram
    requires round { IsTrue (field.round.fits round) }
    ensures { result
        ≡ letter (role Kind.Matchmaker matchmaker) (role Kind.Replacer replacer) (Msg.NextB round) }
{
    let from = RoleId::new(Kind::Matchmaker, matchmaker);
    let to = RoleId::new(Kind::Replacer, replacer);
    Datagram::new(from, to, Msg::NextB { round })
}

/// A replacer's word to a matchmaker that it begins with this log, as a member of this set.
#[tactic(auto, unfolding(cx_wire::specs::Format::u16))]
pub fn boot_a(
    replacer: u16,
    matchmaker: u16,
    set: Set,
    watermark: Round,
    entries: Entries,
) -> Datagram
    requires watermark { IsTrue (field.round0.fits watermark) }
    requires entries { IsTrue (field.joined.fits entries) }
    ensures { result ≡ letter (role Kind.Replacer replacer) (role Kind.Matchmaker matchmaker)
        (Msg.BootA set watermark entries) }
{
    set_fits(&set);
    let from = RoleId::new(Kind::Replacer, replacer);
    let to = RoleId::new(Kind::Matchmaker, matchmaker);
    Datagram::new(
        from,
        to,
        Msg::BootA {
            set,
            watermark,
            entries,
        },
    )
}

/// A matchmaker's word that it has begun as a member of this set.
#[tactic(auto, unfolding(cx_wire::specs::Format::u16))]
pub fn boot_b(matchmaker: u16, replacer: u16, set: Set) -> Datagram
    ensures { result
        ≡ letter (role Kind.Matchmaker matchmaker) (role Kind.Replacer replacer) (Msg.BootB set) }
{
    set_fits(&set);
    let from = RoleId::new(Kind::Matchmaker, matchmaker);
    let to = RoleId::new(Kind::Replacer, replacer);
    Datagram::new(from, to, Msg::BootB { set })
}

/// A replacer's word to a leader which set of matchmakers it knows.
#[tactic(auto, unfolding(cx_wire::specs::Format::u16))]
pub fn sets_to_leader(replacer: u16, leader: u16, set: Set) -> Datagram
    ensures { result
        ≡ letter (role Kind.Replacer replacer) (role Kind.Leader leader) (Msg.Sets set) }
{
    set_fits(&set);
    let from = RoleId::new(Kind::Replacer, replacer);
    let to = RoleId::new(Kind::Leader, leader);
    Datagram::new(from, to, Msg::Sets { set })
}

/// A replacer's word to a reader which set of matchmakers it knows.
#[tactic(auto, unfolding(cx_wire::specs::Format::u16))]
pub fn sets_to_reader(replacer: u16, reader: u16, set: Set) -> Datagram
    ensures { result
        ≡ letter (role Kind.Replacer replacer) (role Kind.Reader reader) (Msg.Sets set) }
{
    set_fits(&set);
    let from = RoleId::new(Kind::Replacer, replacer);
    let to = RoleId::new(Kind::Reader, reader);
    Datagram::new(from, to, Msg::Sets { set })
}

/// A replacer's word to another which set of matchmakers it knows.
#[tactic(auto, unfolding(cx_wire::specs::Format::u16))]
pub fn sets_to_replacer(replacer: u16, other: u16, set: Set) -> Datagram
    ensures { result
        ≡ letter (role Kind.Replacer replacer) (role Kind.Replacer other) (Msg.Sets set) }
{
    set_fits(&set);
    let from = RoleId::new(Kind::Replacer, replacer);
    let to = RoleId::new(Kind::Replacer, other);
    Datagram::new(from, to, Msg::Sets { set })
}
