//! The line of an event.

ghost use Rattle.std.specs.Prelude.{◌≡◌, ◌++◌, ◌∷◌, [], length, map, take, codes, decimal, OnErr, OnOk};
ghost use Rattle.cx_base.specs.declared.event.Event.TheVariants as event;
ghost use Rattle.cx_base.specs.declared.role.Kind.TheVariants.{Replica};
ghost use Rattle.cx_base.specs.Role.{role, role_text};
ghost use Rattle.cx_record.specs.Lines.{cut_words, ids_text, line_text, line_words, offer_words, op_words, order_words, round_words, sides_text};
ghost use Rattle.cx_record.specs.Pieces.{behind_each, in_row};

use cx_base::{Command, Cut, Event, Grid, Key, Kind, NoMemory, Op, Order, RoleId, Set};
use cx_trace::{put, put_number, put_request, put_role_at, undo_part};

// A word, behind a blank.
fn put_word(text: &mut Vec<u8>, word: &[u8]) -> Result<(), NoMemory>
    ensures ok { OnOk result (text.new.items ≡ text.old.items ++ behind_each 32 (word.now ∷ [])) }
    ensures err { OnErr result (take (length text.old.items) text.new.items ≡ text.old.items) }
{
    put(text, b" ")?;
    put(text, word)
}

// The name of a role, behind a blank.
fn put_role_word(text: &mut Vec<u8>, kind: Kind, index: u16) -> Result<(), NoMemory>
    ensures ok { OnOk result (text.new.items
        ≡ text.old.items ++ behind_each 32 (role_text (role kind index) ∷ [])) }
    ensures err { OnErr result (take (length text.old.items) text.new.items ≡ text.old.items) }
{
    put(text, b" ")?;
    put_role_at(text, kind, u64::from(index))
}

fn put_pair(text: &mut Vec<u8>, key: &[u8], value: &[u8]) -> Result<(), NoMemory>
    ensures ok { OnOk result (text.new.items
        ≡ text.old.items ++ behind_each 32 (key.now ∷ value.now ∷ [])) }
    ensures err { OnErr result (take (length text.old.items) text.new.items ≡ text.old.items) }
{
    put_word(text, key)?;
    put_word(text, value)
}

// The words of an operation, each behind a blank.
fn put_op(text: &mut Vec<u8>, op: &Op) -> Result<(), NoMemory>
    ensures ok { OnOk result (text.new.items ≡ text.old.items ++ behind_each 32 (op_words op.now)) }
    ensures err { OnErr result (take (length text.old.items) text.new.items ≡ text.old.items) }
{
    match op {
        Op::Put(key, value) => {
            put(text, b" put")?;
            put_pair(text, key.as_bytes(), value.as_bytes())
        }
        Op::Del(key) => {
            put(text, b" del")?;
            put_word(text, key.as_bytes())
        }
        Op::App(key, more) => {
            put(text, b" app")?;
            put_pair(text, key.as_bytes(), more.as_bytes())
        }
    }
}

// The word of a cut, behind a blank, if it has one.
fn put_cut(text: &mut Vec<u8>, cut: Cut) -> Result<(), NoMemory>
    ensures ok { OnOk result (text.new.items ≡ text.old.items ++ behind_each 32 (cut_words cut)) }
    ensures err { OnErr result (take (length text.old.items) text.new.items ≡ text.old.items) }
{
    match cut {
        Cut::Whole => Ok(()),
        Cut::Torn => put(text, b" torn"),
        Cut::Kept => put(text, b" kept"),
    }
}

// Ids, each behind a comma.
fn put_more_ids(text: &mut Vec<u8>, ids: &[u16]) -> Result<(), NoMemory>
    ensures ok { OnOk result
        (text.new.items ≡ text.old.items ++ behind_each 44 (map decimal ids.now)) }
    ensures err { OnErr result (take (length text.old.items) text.new.items ≡ text.old.items) }
{
    for id in ids {
        put(text, b",")?;
        put_number(text, u64::from(*id))?;
    }
    Ok(())
}

fn put_ids(text: &mut Vec<u8>, ids: &[u16]) -> Result<(), NoMemory>
    ensures ok { OnOk result (text.new.items ≡ text.old.items ++ ids_text ids.now) }
    ensures err { OnErr result (take (length text.old.items) text.new.items ≡ text.old.items) }
{
    match ids.split_first() {
        None => Ok(()),
        Some((first, others)) => {
            put_number(text, u64::from(*first))?;
            put_more_ids(text, others)
        }
    }
}

// Ids in a word, behind a blank.
fn put_ids_word(text: &mut Vec<u8>, ids: &[u16]) -> Result<(), NoMemory>
    ensures ok { OnOk result
        (text.new.items ≡ text.old.items ++ behind_each 32 (ids_text ids.now ∷ [])) }
    ensures err { OnErr result (take (length text.old.items) text.new.items ≡ text.old.items) }
{
    put(text, b" ")?;
    put_ids(text, ids)
}

#[tactic(auto, using(crate::proofs::Rows::in_row_is))]
fn put_sides(text: &mut Vec<u8>, grid: &Grid) -> Result<(), NoMemory>
    ensures ok { OnOk result (text.new.items ≡ text.old.items ++ sides_text grid.now) }
    ensures err { OnErr result (take (length text.old.items) text.new.items ≡ text.old.items) }
{
    put_number(text, u64::from(grid.rows()))?;
    put(text, b"x")?;
    put_number(text, u64::from(grid.cols()))
}

// The two words of a grid, each behind a blank.
fn put_grid(text: &mut Vec<u8>, grid: &Grid) -> Result<(), NoMemory>
    ensures ok { OnOk result (text.new.items
        ≡ text.old.items ++ behind_each 32 (sides_text grid.now ∷ ids_text grid.now.members ∷ [])) }
    ensures err { OnErr result (take (length text.old.items) text.new.items ≡ text.old.items) }
{
    put(text, b" ")?;
    put_sides(text, grid)?;
    put(text, b" ")?;
    put_ids(text, grid.members())
}

fn put_round(text: &mut Vec<u8>, leader: u16, grid: &Grid, cut: Cut) -> Result<(), NoMemory>
    ensures ok { OnOk result (text.new.items
        ≡ text.old.items ++ behind_each 32 (round_words leader grid.now cut)) }
    ensures err { OnErr result (take (length text.old.items) text.new.items ≡ text.old.items) }
{
    put_role_word(text, Kind::Leader, leader)?;
    put_grid(text, grid)?;
    put_cut(text, cut)
}

// That a role is ordered to replace the matchmakers by a set.
fn put_replace(
    text: &mut Vec<u8>,
    kind: Kind,
    index: u16,
    set: &Set,
    cut: Cut,
) -> Result<(), NoMemory>
    ensures ok { OnOk result (text.new.items ≡ text.old.items
        ++ in_row 32
        (codes "replace" ∷ role_text (role kind index) ∷ ids_text set.now ∷ cut_words cut)) }
    ensures err { OnErr result (take (length text.old.items) text.new.items ≡ text.old.items) }
{
    put(text, b"replace")?;
    put_role_word(text, kind, index)?;
    put_ids_word(text, set.ids())?;
    put_cut(text, cut)
}

fn put_slot(text: &mut Vec<u8>, slot: u64) -> Result<(), NoMemory>
    ensures ok { OnOk result
        (text.new.items ≡ text.old.items ++ behind_each 32 (decimal slot ∷ [])) }
    ensures err { OnErr result (take (length text.old.items) text.new.items ≡ text.old.items) }
{
    put(text, b" ")?;
    put_number(text, slot)
}

// To which replica, and from which slot on.
fn put_offered(text: &mut Vec<u8>, to: u16, slot: u64) -> Result<(), NoMemory>
    ensures ok { OnOk result
        (text.new.items ≡ text.old.items ++ behind_each 32 (offer_words to slot)) }
    ensures err { OnErr result (take (length text.old.items) text.new.items ≡ text.old.items) }
{
    put_role_word(text, Kind::Replica, to)?;
    put_slot(text, slot)
}

// That a role is ordered to offer a replica the values from a slot on.
fn put_offer(text: &mut Vec<u8>, kind: Kind, index: u16, to: u16, slot: u64) -> Result<(), NoMemory>
    ensures ok { OnOk result (text.new.items ≡ text.old.items
        ++ in_row 32 (codes "offer" ∷ role_text (role kind index) ∷ offer_words to slot)) }
    ensures err { OnErr result (take (length text.old.items) text.new.items ≡ text.old.items) }
{
    put(text, b"offer")?;
    put_role_word(text, kind, index)?;
    put_offered(text, to, slot)
}

fn put_order(text: &mut Vec<u8>, leader: u16, order: &Order, cut: Cut) -> Result<(), NoMemory>
    ensures ok { OnOk result (text.new.items
        ≡ text.old.items ++ in_row 32 (order_words leader order.now cut)) }
    ensures err { OnErr result (take (length text.old.items) text.new.items ≡ text.old.items) }
{
    match order {
        Order::Lead(grid) => {
            put(text, b"lead")?;
            put_round(text, leader, grid, cut)
        }
        Order::Change(grid) => {
            put(text, b"change")?;
            put_round(text, leader, grid, cut)
        }
        Order::Collect => {
            put(text, b"collect")?;
            put_role_word(text, Kind::Leader, leader)
        }
        Order::Replace(set) => put_replace(text, Kind::Leader, leader, set, cut),
        Order::Offer { to, slot } => put_offer(text, Kind::Leader, leader, *to, *slot),
    }
}

#[tactic(auto, unfolding(cx_trace::specs::Trace::request_text))]
fn put_write(text: &mut Vec<u8>, command: &Command, batcher: u16) -> Result<(), NoMemory>
    ensures ok { OnOk result (text.new.items
        ≡ text.old.items ++ in_row 32 (line_words (event.Write command.now batcher))) }
    ensures err { OnErr result (take (length text.old.items) text.new.items ≡ text.old.items) }
{
    put(text, b"write ")?;
    put_request(text, command.client, command.seq, command.floor)?;
    put_role_word(text, Kind::Batcher, batcher)?;
    put_op(text, &command.op)
}

fn put_key_at(text: &mut Vec<u8>, replica: u16, key: &Key) -> Result<(), NoMemory>
    ensures ok { OnOk result (text.new.items
        ≡ text.old.items ++ behind_each 32 (role_text (role Replica replica) ∷ key.now ∷ [])) }
    ensures err { OnErr result (take (length text.old.items) text.new.items ≡ text.old.items) }
{
    put_role_word(text, Kind::Replica, replica)?;
    put_word(text, key.as_bytes())
}

// What happens to a role, in a word, and its name.
fn put_verb(text: &mut Vec<u8>, verb: &[u8], role: RoleId) -> Result<(), NoMemory>
    ensures ok { OnOk result (text.new.items
        ≡ text.old.items ++ in_row 32 (verb.now ∷ role_text role ∷ [])) }
    ensures err { OnErr result (take (length text.old.items) text.new.items ≡ text.old.items) }
{
    put(text, verb)?;
    put_role_word(text, role.kind, role.index)
}

#[tactic(auto, unfolding(cx_trace::specs::Trace::request_text))]
fn put_words(text: &mut Vec<u8>, event: &Event) -> Result<(), NoMemory>
    ensures ok { OnOk result (text.new.items ≡ text.old.items ++ in_row 32 (line_words event.now)) }
    ensures err { OnErr result (take (length text.old.items) text.new.items ≡ text.old.items) }
{
    match event {
        Event::Write { command, batcher } => put_write(text, command, *batcher),
        Event::Read {
            client,
            seq,
            floor,
            reader,
            replica,
            key,
        } => {
            put(text, b"read ")?;
            put_request(text, *client, *seq, *floor)?;
            put_role_word(text, Kind::Reader, *reader)?;
            put_key_at(text, *replica, key)
        }
        Event::Session {
            client,
            seq,
            floor,
            replica,
            key,
        } => {
            put(text, b"session ")?;
            put_request(text, *client, *seq, *floor)?;
            put_key_at(text, *replica, key)
        }
        Event::Deliver { number, cut } => {
            put(text, b"deliver ")?;
            put_number(text, *number)?;
            put_cut(text, *cut)
        }
        Event::Tick(role) => put_verb(text, b"tick", *role),
        Event::Order { leader, order, cut } => put_order(text, *leader, order, *cut),
        Event::Replace { replacer, set, cut } => {
            put_replace(text, Kind::Replacer, *replacer, set, *cut)
        }
        Event::Offer { replica, to, slot } => {
            put_offer(text, Kind::Replica, *replica, *to, *slot)
        }
        Event::Snap { role, cut } => {
            put(text, b"snap")?;
            put_role_word(text, role.kind, role.index)?;
            put_cut(text, *cut)
        }
        Event::Crash(role) => put_verb(text, b"crash", *role),
        Event::Restart(role) => put_verb(text, b"restart", *role),
    }
}

#[tactic(auto, using(crate::proofs::Rows::in_row_is), unfolding(crate::specs::Lines::line_text))]
fn put_line(text: &mut Vec<u8>, event: &Event) -> Result<(), NoMemory>
    ensures ok { OnOk result
        (text.new.items ≡ text.old.items ++ line_text event.now ++ codes "\n") }
    ensures err { OnErr result (take (length text.old.items) text.new.items ≡ text.old.items) }
{
    put_words(text, event)?;
    put(text, b"\n")
}

/// Appends the line of an event as a schedule has it, and a line feed. An `Err`, when out of memory, appends nothing.
pub fn line_into(event: &Event, out: &mut Vec<u8>) -> Result<(), NoMemory>
    ensures ok { OnOk result (out.new.items ≡ out.old.items ++ line_text event.now ++ codes "\n") }
    ensures err { OnErr result (out.new.items ≡ out.old.items) }
{
    let length = out.len();
    let done = put_line(out, event);
    undo_part(done, out, length)
}
