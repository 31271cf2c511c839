//! A command done to the map.

ghost use Rattle.std.specs.Prelude.{◌≡◌, ◌+◌, ◌<◌, ◌≤◌};
ghost use Rattle.cx_base.specs.Fold.{map_after, reply_of};

use crate::pairs::PairMap;
use cx_base::{Command, Op, Reply};

impl PairMap {
    /// Does a command's operation to the map, and answers it (this project's own operations). An append that would make
    /// a text longer than 64 bytes is answered Full, and changes nothing.
    pub fn apply(&mut self, command: &Command) -> Reply
        requires { 0 < self.old.spare }
        ensures reply { result ≡ reply_of self.old.pairs command.now.op }
        ensures pairs { self.new.pairs ≡ map_after self.old.pairs command.now.op }
        ensures spare { self.old.spare ≤ self.new.spare + 1 }
    {
        match &command.op {
            Op::Put(key, text) => {
                self.put(key, text);
                Reply::Okay
            }
            Op::Del(key) => match self.remove(key) {
                Some(old) => Reply::Was(old),
                None => Reply::Absent,
            },
            Op::App(key, more) => self.append(key, more),
        }
    }
}
