//! The datagrams of reads, each with the ranges of its parts, which its sender owes. None takes memory.

ghost use Rattle.std.specs.Prelude.{◌≡◌, IsTrue};
ghost use Rattle.cx_base.specs.Role.{role};
ghost use Rattle.cx_base.specs.declared.role.Kind.{Kind};
ghost use Rattle.cx_field.specs.Fields as field;
ghost use Rattle.cx_letter.specs.Letter.{letter};

use crate::datagram::Datagram;
use crate::message::Msg;
use cx_base::{Key, Kind, RoleId, Round, Text};
use cx_field::{Asking, Entries, Token, found_fits, name_fits};

/// A client's read of a key, for a reader; a replica is to answer it.
#[tactic(auto, unfolding(crate::specs::Messages::read_req, cx_wire::specs::Format::u16))]
pub fn read_req(client: u16, reader: u16, seq: u64, replica: u16, key: Key) -> Datagram
    requires seq { IsTrue (field.seq.fits seq) }
    ensures { result
        ≡ letter (role Kind.Client client) (role Kind.Reader reader) (Msg.ReadReq seq replica key) }
{
    name_fits(&key);
    let from = RoleId::new(Kind::Client, client);
    let to = RoleId::new(Kind::Reader, reader);
    Datagram::new(from, to, Msg::ReadReq { seq, replica, key })
}

/// A reader's question for a matchmaker's entries.
#[tactic(auto, unfolding(cx_wire::specs::Format::u16))]
pub fn match_read(reader: u16, matchmaker: u16, asking: Asking) -> Datagram
    requires asking { IsTrue (field.asking.fits asking) }
    ensures { result ≡ letter (role Kind.Reader reader) (role Kind.Matchmaker matchmaker)
        (Msg.MatchRead asking) }
{
    let from = RoleId::new(Kind::Reader, reader);
    let to = RoleId::new(Kind::Matchmaker, matchmaker);
    Datagram::new(from, to, Msg::MatchRead { asking })
}

/// A matchmaker's entries, for a reader.
#[tactic(auto, unfolding(crate::specs::Messages::match_read_ack, cx_wire::specs::Format::u16))]
pub fn match_read_ack(
    matchmaker: u16,
    reader: u16,
    asking: Asking,
    watermark: Round,
    entries: Entries,
) -> Datagram
    requires asking { IsTrue (field.asking.fits asking) }
    requires watermark { IsTrue (field.round0.fits watermark) }
    requires entries { IsTrue (field.entries.fits entries) }
    ensures { result ≡ letter (role Kind.Matchmaker matchmaker) (role Kind.Reader reader)
        (Msg.MatchReadAck asking watermark entries) }
{
    let from = RoleId::new(Kind::Matchmaker, matchmaker);
    let to = RoleId::new(Kind::Reader, reader);
    Datagram::new(
        from,
        to,
        Msg::MatchReadAck {
            asking,
            watermark,
            entries,
        },
    )
}

/// A reader's question how far an acceptor voted.
#[tactic(auto, unfolding(crate::specs::Messages::pre_read, cx_wire::specs::Format::u16))]
pub fn pre_read(reader: u16, acceptor: u16, asking: Asking, watermark: Round) -> Datagram
    requires asking { IsTrue (field.asking.fits asking) }
    requires watermark { IsTrue (field.round0.fits watermark) }
    ensures { result ≡ letter (role Kind.Reader reader) (role Kind.Acceptor acceptor)
        (Msg.PreRead asking watermark) }
{
    let from = RoleId::new(Kind::Reader, reader);
    let to = RoleId::new(Kind::Acceptor, acceptor);
    Datagram::new(from, to, Msg::PreRead { asking, watermark })
}

/// An acceptor's word to a reader that it voted in no slot from the mark on.
#[tactic(auto, unfolding(crate::specs::Messages::pre_read_ack, cx_wire::specs::Format::u16))]
pub fn pre_read_ack(
    acceptor: u16,
    reader: u16,
    asking: Asking,
    watermark: Round,
    mark: u64,
) -> Datagram
    requires asking { IsTrue (field.asking.fits asking) }
    requires watermark { IsTrue (field.round0.fits watermark) }
    requires mark { IsTrue (field.mark.fits mark) }
    ensures { result ≡ letter (role Kind.Acceptor acceptor) (role Kind.Reader reader)
        (Msg.PreReadAck asking watermark mark) }
{
    let from = RoleId::new(Kind::Acceptor, acceptor);
    let to = RoleId::new(Kind::Reader, reader);
    Datagram::new(
        from,
        to,
        Msg::PreReadAck {
            asking,
            watermark,
            mark,
        },
    )
}

/// A reader's question for a key, for a replica that holds `mark` slots.
#[tactic(auto, unfolding(crate::specs::Messages::read_key, cx_wire::specs::Format::u16))]
pub fn replica_read(reader: u16, replica: u16, token: Token, mark: u64, key: Key) -> Datagram
    requires token { IsTrue (field.token.fits token) }
    requires mark { IsTrue (field.mark.fits mark) }
    ensures { result
        ≡ letter (role Kind.Reader reader) (role Kind.Replica replica) (Msg.Read token mark key) }
{
    name_fits(&key);
    let from = RoleId::new(Kind::Reader, reader);
    let to = RoleId::new(Kind::Replica, replica);
    Datagram::new(from, to, Msg::Read { token, mark, key })
}

/// A replica's answer to a client's read, where it holds `mark` slots.
#[tactic(auto, unfolding(crate::specs::Messages::read_answer, cx_wire::specs::Format::u16))]
pub fn read_answer(replica: u16, client: u16, seq: u64, mark: u64, found: Option<Text>) -> Datagram
    requires seq { IsTrue (field.seq.fits seq) }
    requires mark { IsTrue (field.mark.fits mark) }
    ensures { result ≡ letter (role Kind.Replica replica) (role Kind.Client client)
        (Msg.ReadAnswer seq mark found) }
{
    found_fits(&found);
    let from = RoleId::new(Kind::Replica, replica);
    let to = RoleId::new(Kind::Client, client);
    Datagram::new(from, to, Msg::ReadAnswer { seq, mark, found })
}

/// A client's session read of a key, for a replica that holds `mark` slots.
#[tactic(auto, unfolding(crate::specs::Messages::sess_read, cx_wire::specs::Format::u16))]
pub fn sess_read(client: u16, replica: u16, seq: u64, mark: u64, key: Key) -> Datagram
    requires seq { IsTrue (field.seq.fits seq) }
    requires mark { IsTrue (field.mark.fits mark) }
    ensures { result
        ≡ letter (role Kind.Client client) (role Kind.Replica replica) (Msg.SessRead seq mark key) }
{
    name_fits(&key);
    let from = RoleId::new(Kind::Client, client);
    let to = RoleId::new(Kind::Replica, replica);
    Datagram::new(from, to, Msg::SessRead { seq, mark, key })
}
