//! What is said of a finding.

ghost use Rattle.std.specs.Prelude.{◌≡◌, ◌++◌, codes, decimal, map, option_map, OnOk};
ghost use Rattle.cx_explain.specs.Meant.{meant};
ghost use Rattle.cx_explain.specs.Saying.{between, finding_text, hint_text, meant_text, place_text, shown_byte, word_text};

use crate::finding::Finding;
use crate::meant::meant;
use crate::rule::{Rule, rule_text};
use cx_base::NoMemory;
use itoa::Buffer;
use std::alloc::Global;

fn put(text: &mut Vec<u8>, bytes: &[u8]) -> Result<(), NoMemory>
    ensures { OnOk result (text.new.items ≡ text.old.items ++ bytes.now) }
{
    text.extend_from_slice(bytes)?;
    Ok(())
}

fn put_number(text: &mut Vec<u8>, number: u64) -> Result<(), NoMemory>
    ensures { OnOk result (text.new.items ≡ text.old.items ++ decimal number) }
{
    let mut buffer = Buffer::new();
    put(text, buffer.format(number).as_bytes())?;
    Ok(())
}

fn shown_byte(byte: u8) -> u8
    ensures { result ≡ shown_byte byte }
{
    if 33 <= byte && byte <= 126 {
        return byte;
    }
    b'?'
}

fn put_shown(text: &mut Vec<u8>, word: &[u8]) -> Result<(), NoMemory>
    ensures { OnOk result (text.new.items ≡ text.old.items ++ map shown_byte word.now) }
{
    for byte in word {
        text.push(shown_byte(*byte))?;
    }
    Ok(())
}

fn put_between(text: &mut Vec<u8>, front: &[u8], word: &[u8], back: &[u8]) -> Result<(), NoMemory>
    ensures { OnOk result (text.new.items
        ≡ text.old.items ++ between front.now word.now back.now) }
{
    put(text, front)?;
    put_shown(text, word)?;
    put(text, back)?;
    Ok(())
}

fn put_word(text: &mut Vec<u8>, word: &[u8]) -> Result<(), NoMemory>
    ensures { OnOk result (text.new.items ≡ text.old.items ++ word_text word.now) }
{
    if word.is_empty() {
        return Ok(());
    }
    put_between(text, b": \"", word, b"\"")?;
    Ok(())
}

fn put_hint(text: &mut Vec<u8>, word: &[u8]) -> Result<(), NoMemory>
    ensures { OnOk result (text.new.items ≡ text.old.items ++ hint_text word.now) }
{
    put_between(text, b"; did you mean \"", word, b"\"?")?;
    Ok(())
}

fn put_meant(text: &mut Vec<u8>, word: Option<&'static str>) -> Result<(), NoMemory>
    ensures { OnOk result (text.new.items
        ≡ text.old.items ++ meant_text (option_map (λ word. word.now) word.entry)) }
{
    match word {
        Some(word) => {
            put_hint(text, word.as_bytes())?;
            Ok(())
        }
        None => Ok(()),
    }
}

// What may be meant by a word that breaks a rule.
fn put_meant_by(alloc: Global, text: &mut Vec<u8>, rule: Rule, word: &[u8]) -> Result<(), NoMemory>
    ensures { OnOk result (text.new.items ≡ text.old.items ++ meant_text (meant rule word.now)) }
{
    let found = meant(alloc, rule, word)?;
    put_meant(text, found)?;
    Ok(())
}

fn put_place(text: &mut Vec<u8>, name: &[u8], line: u64, column: u64) -> Result<(), NoMemory>
    ensures { OnOk result (text.new.items
        ≡ text.old.items ++ place_text name.now line column) }
{
    put(text, name)?;
    put(text, b":")?;
    put_number(text, line)?;
    put(text, b":")?;
    put_number(text, column)?;
    put(text, b": ")?;
    Ok(())
}

/// Puts the line of a finding in the file of this name at the end of a text: the place, the rule, the word that breaks it,
/// and what may be meant.
pub fn put_finding(
    alloc: Global,
    text: &mut Vec<u8>,
    name: &[u8],
    finding: &Finding,
) -> Result<(), NoMemory>
    ensures { OnOk result (text.new.items
        ≡ text.old.items ++ finding_text name.now finding.now) }
{
    put_place(text, name, finding.line(), finding.column())?;
    put(text, rule_text(finding.rule()).as_bytes())?;
    put_word(text, finding.word())?;
    put_meant_by(alloc, text, finding.rule(), finding.word())?;
    put(text, b"\n")?;
    Ok(())
}
