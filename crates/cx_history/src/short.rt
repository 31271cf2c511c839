//! Datagrams as pieces of bytes.

ghost use Rattle.std.specs.Prelude.{◌≡◌, ◌<◌, ◌++◌, ◌∷◌, [], All, Some, IfOk, OnOk, OnErr, IsTrue, length, slice_get};
ghost use Rattle.cx_letter.specs.Letter.{fits};
ghost use Rattle.cx_msg.specs.Spelled.{IsShort, letter_of};
ghost use Rattle.cx_history.specs.Short.{letters_of};

use bytes::Bytes;
use cx_base::NoMemory;
use cx_letter::Datagram;
use cx_msg::{Spelled, short_into};
use cx_pieces::Pieces;
use std::alloc::Global;

// Each field of a datagram is in its range.
fn field_ranges(datagram: &Datagram)
    ensures { IsTrue (fits datagram.now) }
{
    let _ = datagram.from();
}

/// Puts a datagram after the other pieces, by way of its bytes. Out of memory, it puts none.
pub fn put_datagram(
    datagram: &Datagram,
    bytes: &mut Vec<u8>,
    pieces: &mut Pieces,
) -> Result<(), NoMemory>
    ensures letters { OnOk result
        (letters_of pieces.new ≡ letters_of pieces.old ++ datagram.now ∷ []) }
    ensures pieces { All IsShort pieces.old → All IsShort pieces.new }
    ensures err { OnErr result (pieces.new ≡ pieces.old) }
{
    field_ranges(datagram);
    bytes.clear();
    short_into(datagram, bytes)?;
    pieces.push(bytes)?;
    Ok(())
}

/// The bytes of a datagram, which share their chunk with others.
pub fn shared(pieces: &Pieces, number: usize) -> Result<Bytes, NoMemory>
    requires pieces { All IsShort pieces.now }
    requires number { number < length pieces.now }
    ensures short { IfOk result (λ bytes. IsShort bytes) }
    ensures letter { IfOk result
        (λ bytes. slice_get (letters_of pieces.now) number ≡ Some (letter_of bytes)) }
{
    match pieces.shared(number)? {
        Some(bytes) => Ok(bytes),
        None => unreachable!(),
    }
}

/// The datagram of a number.
pub fn read_datagram(alloc: Global, pieces: &Pieces, number: usize) -> Result<Datagram, NoMemory>
    requires pieces { All IsShort pieces.now }
    requires number { number < length pieces.now }
    ensures { IfOk result (λ datagram. slice_get (letters_of pieces.now) number ≡ Some datagram) }
{
    let bytes = shared(pieces, number)?;
    Spelled::new(bytes.as_slice()).datagram(alloc)
}
