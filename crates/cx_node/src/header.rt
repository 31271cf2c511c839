//! The text of a header.

ghost use Rattle.std.specs.Prelude.{◌≡◌};

use std::marker::Model;

/// The text of a header, its lines each with a line feed.
#[derive(Drop)]
pub struct HeaderText {
    bytes: Vec<u8>,
}

impl Model for HeaderText {
    ghost use Rattle.std.specs.Prelude.{ℕ, List};

    ghost Value = { List ℕ };

    ghost view = { λ header. header.bytes.items };
}

impl HeaderText {
    /// The header with this text.
    pub fn new(bytes: Vec<u8>) -> Self
        ensures { result ≡ bytes.items }
    {
        HeaderText { bytes }
    }

    /// Its text.
    pub fn as_bytes(&self) -> &[u8]
        ensures { result.now ≡ self.now }
    {
        &self.bytes
    }
}
