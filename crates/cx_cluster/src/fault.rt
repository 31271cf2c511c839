//! Why bytes are no header of a cluster.

ghost use Rattle.std.specs.Prelude.{◌≡◌};

use crate::key::ClusterKey;
use std::marker::Model;
use thiserror::Error;

/// A key that no header has, as it was written.
#[derive(Debug, Drop)]
pub struct UnknownKey {
    text: String,
}

impl Model for UnknownKey {
    ghost use Rattle.std.specs.Prelude.{ℕ, List, string_bytes};

    ghost Value = { List ℕ };

    ghost view = { λ key. string_bytes key.text };
}

impl UnknownKey {
    ghost use Rattle.std.specs.Prelude.{string_bytes};

    /// The key with this text.
    pub fn from_text(text: String) -> Self
        ensures { result ≡ string_bytes text }
    {
        UnknownKey { text }
    }

    /// Its text.
    pub fn as_str(&self) -> &str
        ensures { result.now ≡ self.now }
    {
        self.text.as_str()
    }
}

impl std::fmt::Display for UnknownKey {
    fn fmt<W: std::fmt::Write>(&self, f: &mut std::fmt::Formatter<W>) -> std::fmt::Result {
        f.write_str(self.as_str())
    }
}

/// The first fault of a header, in the order of the variants; of several keys with a fault the first in the order of
/// `ClusterKey`.
#[derive(Debug, Drop, Error)]
pub enum ClusterFault {
    /// The bytes are no TOML document.
    #[error("not TOML")]
    Toml,
    /// A key that no header has: the least in byte order.
    #[error("unknown key {0}")]
    Unknown(UnknownKey),
    /// The key isn't there.
    #[error("missing key {0}")]
    Missing(ClusterKey),
    /// The key's value is no whole number.
    #[error("{0} is not a number")]
    NotNumber(ClusterKey),
    /// The key's number is outside its range.
    #[error("{0} = {1} is out of range")]
    Range(ClusterKey, i64),
    /// Out of memory.
    #[error("no memory")]
    NoMemory,
}
