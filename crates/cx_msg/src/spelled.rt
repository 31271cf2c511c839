//! Datagrams whose bodies aren't read.

ghost use Rattle.std.specs.Prelude.{◌≡◌, ◌≤◌, ◌+◌, ◌++◌, IfOk, OnOk, drop, length, slice_index};
ghost use Rattle.cx_letter.specs.Letter.{body};
ghost use Rattle.cx_letter.specs.Names.{name_of_message};
ghost use Rattle.cx_msg.specs.Spelled.{IsShort, letter_of, role_at, role_bytes, short};

use crate::bodies::body_from;
use crate::put_bodies::put_body;
use cx_base::{Kind, NoMemory, RoleId};
use cx_field::{ByteReader, ReadFault};
use cx_letter::{Datagram, message_kind, name_of_kind};
use cx_wire::{put_u8, put_u16};
use std::alloc::Global;
use std::marker::Model;

/// A datagram whose body isn't read, but lies where it is held: contracts see the datagram.
#[derive(Debug, Drop)]
pub struct Spelled<'a> {
    kind: u8,
    from: RoleId,
    to: RoleId,
    body: &'a [u8],
}

impl<'a> Model for Spelled<'a> {
    ghost use Rattle.cx_letter.specs.Letter.{Letter};
    ghost use Rattle.cx_msg.specs.Spelled.{IsSpelled, letter_with};

    ghost Value = { Letter };

    ghost view = { λ s. letter_with s.kind s.from s.to s.body.now };

    ghost invariant = { λ s.
        IsSpelled (letter_with s.kind s.from s.to s.body.now) s.kind s.body.now };
}

// The role in the three bytes from a place on.
fn role_at(bytes: &[u8], at: usize) -> RoleId
    requires room { at + 3 ≤ length bytes.now }
    requires code { slice_index bytes.now at ≤ 10 }
    ensures { result ≡ role_at at bytes.now }
{
    RoleId {
        kind: Kind::from_code(bytes[at]),
        index: u16::from_be_bytes([bytes[at + 1], bytes[at + 2]]),
    }
}

// What comes after the first `count` bytes.
fn after(bytes: &[u8], count: usize) -> &[u8]
    requires { count ≤ length bytes.now }
    ensures { result.now ≡ drop count bytes.now }
{
    &bytes[count..]
}

impl<'a> Spelled<'a> {
    /// The datagram in bytes that `short_into` appended.
    #[tactic(auto, using(crate::proofs::SpelledLaws::opened))]
    pub fn new(bytes: &'a [u8]) -> Self
        requires { IsShort bytes.now }
        ensures { result ≡ letter_of bytes.now }
    {
        Spelled {
            kind: bytes[0],
            from: role_at(bytes, 1),
            to: role_at(bytes, 4),
            body: after(bytes, 7),
        }
    }

    /// Its message's name in texts.
    pub fn name(&self) -> &'static str
        ensures { result.now ≡ name_of_message self.now.msg }
    {
        name_of_kind(self.kind)
    }

    /// Who sends it.
    pub fn from(&self) -> RoleId
        ensures { result ≡ self.now.from }
    {
        self.from
    }

    /// Who is to get it.
    pub fn to(&self) -> RoleId
        ensures { result ≡ self.now.to }
    {
        self.to
    }

    /// The bytes of its body.
    pub fn body(&self) -> &'a [u8]
        ensures { result.now ≡ body self.now }
    {
        self.body
    }

    /// The datagram, whose body is read now.
    pub fn datagram(&self, alloc: Global) -> Result<Datagram, NoMemory>
        ensures { IfOk result (λ datagram. datagram ≡ self.now) }
    {
        let mut reader = ByteReader::new(self.body);
        match body_from(self.kind, alloc, true, &mut reader) {
            Ok(msg) => Ok(Datagram::new(self.from, self.to, msg)),
            Err(ReadFault::NoMemory) => Err(NoMemory),
            // What was spelled is read.
            Err(ReadFault::Bad { .. }) => unreachable!(),
            Err(ReadFault::Cut { .. }) => unreachable!(),
        }
    }
}

// Appends the three bytes of a role.
#[tactic(auto, unfolding(cx_wire::specs::Format::u8, cx_wire::specs::Format::u16))]
fn put_role(out: &mut Vec<u8>, role: RoleId) -> Result<(), NoMemory>
    ensures { OnOk result (out.new.items ≡ out.old.items ++ role_bytes role) }
{
    put_u8(out, role.kind.code())?;
    put_u16(out, role.index)
}

/// Appends a datagram's bytes without those that the others give, at most 30,618: its kind, who sends and who gets it, and its
/// body. Out of memory, a part may be appended.
#[tactic(auto, unfolding(cx_wire::specs::Format::u8))]
pub fn short_into(datagram: &Datagram, out: &mut Vec<u8>) -> Result<(), NoMemory>
    ensures bytes { OnOk result (out.new.items ≡ out.old.items ++ short datagram.now) }
{
    put_u8(out, message_kind(datagram.msg()))?;
    put_role(out, datagram.from())?;
    put_role(out, datagram.to())?;
    put_body(out, datagram.msg())
}
