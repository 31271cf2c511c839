//! Texts that grow.

ghost use Rattle.std.specs.Prelude.{◌≡◌, ◌+◌, ◌++◌, ◌<◌, ◌≤◌, length, take};
ghost use Rattle.cx_base.specs.Fold.{map_appended, reply_appended, text_at};

use crate::pairs::PairMap;
use cx_base::{Key, Reply, TEXT_LENGTH, Text};

/// How many bytes a text may have.
const LONGEST: usize = TEXT_LENGTH;

/// Writes one list and then the other at the start of a longer one.
fn lay(bytes: &mut [u8], one: &[u8], other: &[u8])
    requires { length one.now + length other.now ≤ length bytes.old }
    ensures { take (length one.now + length other.now) bytes.new ≡ one.now ++ other.now }
{
    let (front, rest) = bytes.split_at_mut(one.len());
    front.copy_from_slice(one);
    rest[..other.len()].copy_from_slice(other);
}

/// One text and then the other.
fn joined(one: &Text, other: &Text) -> Text
    requires { length one.now + length other.now ≤ 64 }
    ensures { result ≡ one.now ++ other.now }
{
    let one = one.as_bytes();
    let other = other.as_bytes();
    let mut bytes = [0; LONGEST];
    lay(&mut bytes, one, other);
    Text::new(&bytes[..one.len() + other.len()])
}

impl PairMap {
    /// Adds a text at the end of a key's, or sets it; a text that would grow past its limit stays.
    pub fn append(&mut self, key: &Key, more: &Text) -> Reply
        requires { 0 < self.old.spare }
        ensures reply { result ≡ reply_appended more.now (text_at key.now self.old.pairs) }
        ensures pairs { self.new.pairs
            ≡ map_appended self.old.pairs key.now more.now (text_at key.now self.old.pairs) }
        ensures spare { self.old.spare ≤ self.new.spare + 1 }
    {
        let Some(old) = self.get(key).copied() else {
            self.put(key, more);
            return Reply::Len(more.as_bytes().len() as u8);
        };
        let length = old.as_bytes().len() + more.as_bytes().len();
        if length > LONGEST {
            return Reply::Full;
        }
        self.put(key, &joined(&old, more));
        Reply::Len(length as u8)
    }
}
