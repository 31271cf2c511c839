//! Datagrams: messages with who sends and who gets them.

ghost use Rattle.std.specs.Prelude.{◌≡◌, IsTrue};
ghost use Rattle.cx_letter.specs.Letter.{fits as letter_fits, letter};
ghost use Rattle.cx_letter.specs.LetterParts.{PartsFit};

use crate::message::Msg;
use cx_base::{Duplicate, NoMemory, RoleId};
use std::alloc::Global;
use std::marker::Model;

/// One message, from one role to another: the roles are those of its kind, and each field is in its range.
#[derive(Drop)]
pub struct Datagram {
    from: RoleId,
    to: RoleId,
    msg: Msg,
}

impl Model for Datagram {
    ghost use Rattle.std.specs.Prelude.{IsTrue};
    ghost use Rattle.cx_letter.specs.Letter.{Letter, fits, letter};

    ghost Value = { Letter };

    ghost view = { λ d. letter d.from d.to d.msg };

    ghost invariant = { λ d. IsTrue (fits (letter d.from d.to d.msg)) };
}

impl Datagram {
    /// The datagram with these parts.
    pub fn new(from: RoleId, to: RoleId, msg: Msg) -> Self
        requires { IsTrue (letter_fits (letter from to msg)) }
        ensures { result ≡ letter from to msg }
    {
        Datagram { from, to, msg }
    }

    /// Who sends it.
    pub fn from(&self) -> RoleId
        ensures from { result ≡ self.now.from }
        ensures fits { IsTrue (letter_fits self.now) }
    {
        self.from
    }

    /// Who is to get it.
    pub fn to(&self) -> RoleId
        ensures to { result ≡ self.now.to }
        ensures fits { IsTrue (letter_fits self.now) }
    {
        self.to
    }

    /// What it says.
    pub fn msg(&self) -> &Msg
        ensures msg { result.now ≡ self.now.msg }
        ensures fits { IsTrue (letter_fits self.now) }
        ensures parts { PartsFit self.now.from self.now.to result.now }
    {
        &self.msg
    }
}

impl Duplicate for Datagram {
    fn copy(&self, alloc: Global) -> Result<Self, NoMemory> {
        Ok(Datagram {
            from: self.from,
            to: self.to,
            msg: self.msg.copy(alloc)?,
        })
    }
}
