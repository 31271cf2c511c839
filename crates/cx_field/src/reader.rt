//! Numbers from the start of bytes, the highest byte first.

ghost use Rattle.std.specs.Prelude.{◌≡◌, ◌∷◌, ◌≤◌, ◌<◌, ◌^◌, length, drop, take, IfOk};
ghost use Rattle.cx_wire.specs.Format as wire;
ghost use Rattle.cx_field.specs.Reading.{Reads};

use crate::fault::ReadFault;
use cx_wire::{take_u8, take_u16, take_u32, take_u64};
use std::marker::Model;

/// The bytes that are left.
#[derive(Drop)]
pub struct ByteReader<'a> {
    rest: &'a [u8],
}

impl<'a> Model for ByteReader<'a> {
    ghost use Rattle.std.specs.Prelude.{ℕ, List};

    ghost Value = { List ℕ };

    ghost view = { λ r. r.rest.now };
}

impl<'a> ByteReader<'a> {
    /// Reads from the first of these bytes on.
    pub fn new(bytes: &'a [u8]) -> ByteReader<'a>
        ensures { result ≡ bytes.now }
    {
        ByteReader { rest: bytes }
    }

    /// How many bytes are left.
    pub fn left(&self) -> usize
        ensures { result ≡ length self.now }
    {
        self.rest.len()
    }

    /// The bytes that are left.
    pub fn bytes(&self) -> &'a [u8]
        ensures { result.now ≡ self.now }
    {
        self.rest
    }

    /// Passes over this many bytes.
    pub fn skip(&mut self, count: usize)
        requires { count ≤ length self.old }
        ensures { self.new ≡ drop count self.old }
    {
        self.rest = &self.rest[count..];
    }

    /// The number in one byte; `Cut` with how many are left where there are fewer.
    #[tactic(auto, unfolding(cx_wire::specs::Format::u8))]
    pub fn u8(&mut self) -> Result<u8, ReadFault>
        ensures read { Reads wire.u8 self.old result self.new }
        ensures front { IfOk result (λ x. self.old ≡ x ∷ self.new) }
    {
        let number = take_u8(self.rest, 0)?;
        self.rest = &self.rest[1..];
        Ok(number)
    }

    /// The number in two bytes; `Cut` with how many are left where there are fewer.
    #[tactic(auto, unfolding(cx_wire::specs::Format::u16))]
    pub fn u16(&mut self) -> Result<u16, ReadFault>
        ensures { Reads wire.u16 self.old result self.new }
    {
        let number = take_u16(self.rest, 0)?;
        self.rest = &self.rest[2..];
        Ok(number)
    }

    /// The number in four bytes; `Cut` with how many are left where there are fewer.
    #[tactic(auto, unfolding(cx_wire::specs::Format::u32))]
    pub fn u32(&mut self) -> Result<u32, ReadFault>
        ensures { Reads wire.u32 self.old result self.new }
    {
        let number = take_u32(self.rest, 0)?;
        self.rest = &self.rest[4..];
        Ok(number)
    }

    /// The number in eight bytes; `Cut` with how many are left where there are fewer.
    #[tactic(auto, unfolding(cx_wire::specs::Format::u64))]
    pub fn u64(&mut self) -> Result<u64, ReadFault>
        ensures { Reads wire.u64 self.old result self.new }
    {
        let number = take_u64(self.rest, 0)?;
        self.rest = &self.rest[8..];
        Ok(number)
    }
}
