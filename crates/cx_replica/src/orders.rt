//! Whether the pairs or the notes of a record are in order, as a renewal writes them.

ghost use Rattle.std.specs.Prelude.{◌≡◌, ◌∷◌, ◌&&◌, nat_lt};
ghost use Rattle.std.specs.List.{list_all};
ghost use Rattle.cx_base.specs.Asked.{floor_fits};
ghost use Rattle.cx_base.specs.Fold.{is_less};
ghost use Rattle.cx_base.specs.Lists.{rises};
ghost use Rattle.cx_base.specs.declared.command.Note.{Note as NoteOf};
ghost use Rattle.cx_kv.specs.Rising.{has_lower_key};
ghost use Rattle.cx_model.specs.Replica.{are_client_notes};
ghost use Rattle.cx_table.specs.Entries.{has_lower};

use cx_base::{Key, Note, Pair};

/// How far above its client's floor a number may be.
const OUTSTANDING: u64 = cx_base::OUTSTANDING;

fn is_less(one: &Key, other: &Key) -> bool
    ensures { result ≡ is_less one.now other.now }
{
    one < other
}

/// Whether the keys of pairs rise, behind that of a first one.
pub fn rise_behind(first: &Pair, pairs: &[Pair]) -> bool
    ensures { result ≡ rises has_lower_key (first.now ∷ pairs.now) }
{
    let mut last = *first;
    for pair in pairs {
        if !is_less(&last.key, &pair.key) {
            return false;
        }
        last = *pair;
    }
    true
}

/// Whether the keys of pairs rise.
pub fn pairs_rise(pairs: &[Pair]) -> bool
    ensures { result ≡ rises has_lower_key pairs.now }
{
    match pairs {
        [] => true,
        [first, rest @ ..] => rise_behind(first, rest),
    }
}

// Whether the numbers of notes rise, behind a first one's.
fn numbers_behind(first: &Note, notes: &[Note]) -> bool
    ensures { result ≡ rises has_lower (first.now ∷ notes.now) }
{
    let mut last = *first;
    for note in notes {
        if note.seq <= last.seq {
            return false;
        }
        last = *note;
    }
    true
}

fn numbers_rise(notes: &[Note]) -> bool
    ensures { result ≡ rises has_lower notes.now }
{
    match notes {
        [] => true,
        [first, rest @ ..] => numbers_behind(first, rest),
    }
}

/// Whether a client may tell a floor with a number: one below it, and not too far.
fn floor_fits(seq: u64, floor: u64) -> bool
    ensures { result ≡ floor_fits seq floor }
{
    floor < seq && seq - floor <= OUTSTANDING
}

fn floors_fit(floor: u64, notes: &[Note]) -> bool
    ensures { result ≡ list_all (λ (n : NoteOf). floor_fits n.seq floor) notes.now }
{
    notes.iter().all(|note| floor_fits(note.seq, floor))
}

/// Whether notes are those of a client with this floor: their numbers rise, and it may tell the floor with each.
pub fn are_client_notes(floor: u64, notes: &[Note]) -> bool
    ensures { result ≡ are_client_notes floor notes.now }
{
    numbers_rise(notes) && floors_fit(floor, notes)
}
