//! A map that takes memory as it grows, and its text.

ghost use Rattle.std.specs.Prelude.{◌≡◌, ◌++◌, [], length, take, IfOk, OnErr, OnOk};
ghost use Rattle.std.specs.Option.{option_copied};
ghost use Rattle.cx_base.specs.Fold.{map_after, reply_of, text_at};
ghost use Rattle.cx_kv.specs.Printed.{map_text, pair_text};

use crate::pairs::PairMap;
use cx_base::{Command, Key, NoMemory, Pair, Reply, Text};
use std::alloc::Global;
use std::marker::Model;

/// A map from keys to texts, which contracts see as the list of its pairs in the rising order of their keys.
#[derive(Drop)]
pub struct Store {
    map: PairMap,
}

impl Model for Store {
    ghost use Rattle.std.specs.Prelude.{List};
    ghost use Rattle.cx_base.specs.declared.command.Pair.{Pair};

    ghost Value = { List Pair };

    ghost view = { λ store. store.map.pairs };
}

impl Store {
    /// The empty map.
    pub fn new(alloc: Global) -> Result<Self, NoMemory>
        ensures { IfOk result (λ store. store ≡ []) }
    {
        Ok(Store {
            map: PairMap::new(alloc),
        })
    }

    /// Does a command's operation to the map, and answers it (this project's own operations). An append that would make
    /// a text longer than 64 bytes is answered Full, and changes nothing.
    pub fn apply(&mut self, command: &Command) -> Result<Reply, NoMemory>
        ensures reply { IfOk result (λ reply. reply ≡ reply_of self.old command.now.op) }
        ensures ok { OnOk result (self.new ≡ map_after self.old command.now.op) }
        ensures err { OnErr result (self.new ≡ self.old) }
    {
        self.map.make_room(1)?;
        Ok(self.map.apply(command))
    }

    /// The text of a key.
    pub fn get(&self, key: &Key) -> Option<&Text>
        ensures { option_copied result ≡ text_at key.now self.now }
    {
        self.map.get(key)
    }

    /// Writes the map at the end of a text: for each key in rising order a space, the key, `=` and the key's text. Out
    /// of memory, the text is as before.
    pub fn print_into(&self, out: &mut Vec<u8>) -> Result<(), NoMemory>
        ensures ok { OnOk result (out.new.items ≡ out.old.items ++ map_text self.now) }
        ensures err { OnErr result (out.new.items ≡ out.old.items) }
    {
        let length = out.len();
        let printed = print_pairs(&self.map, out);
        undo_part(printed, out, length)
    }
}

fn print_pair(pair: &Pair, out: &mut Vec<u8>) -> Result<(), NoMemory>
    ensures ok { OnOk result (out.new.items ≡ out.old.items ++ pair_text pair.now) }
    ensures err { OnErr result (take (length out.old.items) out.new.items ≡ out.old.items) }
{
    out.push(b' ')?;
    out.extend_from_slice(pair.key.as_bytes())?;
    out.push(b'=')?;
    out.extend_from_slice(pair.text.as_bytes())?;
    Ok(())
}

fn print_pairs(map: &PairMap, out: &mut Vec<u8>) -> Result<(), NoMemory>
    ensures ok { OnOk result (out.new.items ≡ out.old.items ++ map_text map.now.pairs) }
    ensures err { OnErr result (take (length out.old.items) out.new.items ≡ out.old.items) }
{
    for place in 0..map.len() {
        print_pair(map.at(place), out)?;
    }
    Ok(())
}

// Out of memory, what was printed after the first `length` bytes of a text is removed again.
fn undo_part(
    printed: Result<(), NoMemory>,
    out: &mut Vec<u8>,
    length: usize,
) -> Result<(), NoMemory>
    ensures same { result ≡ printed }
    ensures ok { OnOk printed (out.new.items ≡ out.old.items) }
    ensures err { OnErr printed (out.new.items ≡ take length out.old.items) }
{
    if printed.is_err() {
        out.truncate(length);
    }
    printed
}
