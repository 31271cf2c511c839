//! The words that ask for a check of a file.

ghost use Rattle.std.specs.Prelude.{◌≡◌, ℕ, List, bytes_eq, false, map, option_map, string_bytes, true};
ghost use Rattle.compax.specs.Checked.{bad_line_of_node, check_asked, file_of, is_file};
ghost use Rattle.cx_explain.specs.Finding.{first_bad_line};
ghost use Rattle.cx_node.specs.Input.{input_of as node_input};
ghost use Rattle.cx_replay.specs.Input.{bad_line, input_of as replay_input};

/// A file to be checked: a schedule, or what a node gets.
#[derive(Clone, Copy)]
pub struct Checked<'a> {
    pub node: bool,
    pub file: &'a str,
}

// Whether a word may name a file: an option begins with a hyphen.
fn is_file(word: &str) -> bool
    ensures { result ≡ is_file word.now }
{
    !word.as_bytes().starts_with(b"-")
}

fn is(word: &String, text: &str) -> bool
    ensures { result ≡ bytes_eq (string_bytes word.now) text.now }
{
    word.as_str() == text
}

fn file_of(node: bool, word: &String) -> Option<Checked<'_>>
    ensures { option_map (λ asked. (asked.node, asked.file.now)) result
        ≡ file_of node (string_bytes word.now) }
{
    if !is_file(word.as_str()) {
        return None;
    }
    Some(Checked {
        node,
        file: word.as_str(),
    })
}

/// The file that words ask to check, the first of which is the program's name: `check FILE` asks for one that is to be
/// replayed, `check --node FILE` for one that a node gets. None exactly where they are other words.
pub fn check_asked(words: &[String]) -> Option<Checked<'_>>
    ensures { option_map (λ asked. (asked.node, asked.file.now)) result
        ≡ check_asked (map string_bytes words.now) }
{
    match words {
        [_, verb, file] => {
            if !is(verb, "check") {
                return None;
            }
            file_of(false, file)
        }
        [_, verb, option, file] => {
            if !is(verb, "check") || !is(option, "--node") {
                return None;
            }
            file_of(true, file)
        }
        _ => None,
    }
}

/// A law, whatever the bytes: the bad line that a check finds is the one that a replay names, and of a node's input the one
/// that a node names which may host its roles.
#[tactic(auto, using(crate::proofs::Named::of_replay, crate::proofs::Named::of_node))]
pub fn checks_name_the_same_line()
    ensures replayed { (bytes : List ℕ)
        → first_bad_line false bytes ≡ bad_line (replay_input bytes) }
    ensures hosted { (bytes : List ℕ)
        → first_bad_line true bytes ≡ bad_line_of_node (node_input bytes) }
{}
