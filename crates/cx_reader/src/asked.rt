//! A read that was asked for.

ghost use Rattle.std.specs.Prelude.{◌≡◌};
ghost use Rattle.cx_role.specs.Prelude.{IsTrue, role};
ghost use Rattle.cx_role.specs.Prelude.kind;
ghost use Rattle.cx_model.specs.Reader.{asked_for, read_to};
ghost use Rattle.cx_field.specs.Fields as field;

use cx_base::Key;
use cx_field::Token;
use cx_letter::{Datagram, replica_read};
use std::marker::Model;

/// A read that was asked for: its client and number, the replica that is to answer it, and its key.
#[derive(Drop)]
pub struct Asked {
    read: Token,
    replica: u16,
    key: Key,
}

impl Model for Asked {
    ghost use Rattle.cx_role.specs.Prelude.{IsTrue};
    ghost use Rattle.cx_model.specs.Reader.{Asked as AskedFor};
    ghost use Rattle.cx_field.specs.Fields.{token};

    ghost Value = { AskedFor };

    ghost view = { λ a. record { read = a.read; replica = a.replica; key = a.key } };

    ghost invariant = { λ a. IsTrue (token.fits a.read) };
}

impl Asked {
    pub fn new(read: Token, replica: u16, key: Key) -> Self
        requires { IsTrue (field.token.fits read) }
        ensures { result ≡ asked_for read replica key }
    {
        Asked { read, replica, key }
    }

    /// Its client and number.
    pub fn token(&self) -> Token
        ensures token { result ≡ self.now.read }
        ensures fits { IsTrue (field.token.fits result) }
    {
        self.read
    }

    /// The replica that is to answer it.
    pub fn replica(&self) -> u16
        ensures { result ≡ self.now.replica }
    {
        self.replica
    }

    /// Its key.
    pub fn key(&self) -> Key
        ensures { result ≡ self.now.key }
    {
        self.key
    }

    /// The question for its key, for its replica that holds `mark` slots.
    pub fn question(&self, reader: u16, mark: u64) -> Datagram
        requires { IsTrue (field.mark.fits mark) }
        ensures { result ≡ read_to (role kind.Reader reader) mark self.now }
    {
        replica_read(reader, self.replica, self.read, mark, self.key)
    }
}
