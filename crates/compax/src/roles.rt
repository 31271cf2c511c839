//! The roles that words name.

ghost use Rattle.std.specs.Prelude.{◌≡◌, ◌==◌, ℕ, map, IfOk, Some, option_map, slice_get};
ghost use Rattle.std.specs.List.{before_first, after_first, list_any};
ghost use Rattle.std.specs.Str.{bytes_eq};
ghost use Rattle.cx_base.specs.declared.role.RoleId.{RoleId};
ghost use Rattle.cx_base.specs.Role.{same_role};
ghost use Rattle.cx_script.specs.Places.{index_below};
ghost use Rattle.compax.specs.Roles.{all_roles, kind_named, role_of, roles_of, stand_once};

use cx_base::{Kind, RoleId};
use cx_script::{number, parted};
use std::alloc::{AllocError, Global};
use std::marker::Model;

const KINDS: [Kind; 10] = [
    Kind::Client,
    Kind::Batcher,
    Kind::Leader,
    Kind::Proxy,
    Kind::Acceptor,
    Kind::Matchmaker,
    Kind::Replica,
    Kind::Unbatcher,
    Kind::Reader,
    Kind::Replacer,
];

/// Roles of which none is named twice, in the order in which they were named.
#[derive(Drop)]
pub struct NamedRoles {
    list: Vec<RoleId>,
}

impl Model for NamedRoles {
    ghost use Rattle.std.specs.Prelude.{◌≡◌, List, true};
    ghost use Rattle.cx_base.specs.declared.role.RoleId.{RoleId};
    ghost use Rattle.compax.specs.Roles.{stand_once};

    ghost Value = { List RoleId };

    ghost view = { λ r. r.list.items };

    ghost invariant = { λ r. stand_once r.list.items ≡ true };
}

fn is(word: &[u8], text: &str) -> bool
    ensures { result ≡ bytes_eq word.now text.now }
{
    word == text.as_bytes()
}

fn kind_named(name: &[u8]) -> Option<Kind>
    ensures { result ≡ kind_named name.now }
{
    KINDS.iter().copied().find(|kind| is(name, kind.text()))
}

// What comes before the first colon of a word, and what after it.
fn parts(word: &[u8]) -> (&[u8], &[u8])
    ensures front { result.0.now ≡ before_first (λ b. b == 58) word.now }
    ensures back { result.1.now ≡ after_first (λ b. b == 58) word.now }
{
    parted(word, b':')
}

fn index(digits: &[u8]) -> Option<u16>
    ensures { result ≡ index_below 65536 digits.now }
{
    let index = number(digits)?;
    if index < 65_536 {
        Some(index as u16)
    } else {
        None
    }
}

fn role_of(word: &str) -> Option<RoleId>
    ensures { result ≡ role_of word.now }
{
    let (name, digits) = parts(word.as_bytes());
    let kind = kind_named(name)?;
    let index = index(digits)?;
    Some(RoleId::new(kind, index))
}

// The roles of words that each name one, none where a word names none.
fn all_roles(alloc: Global, words: &[&str]) -> Result<Option<Vec<RoleId>>, AllocError>
    ensures { IfOk result (λ roles. option_map (λ list. list.items) roles
        ≡ all_roles (map (λ word. word.now) words.now)) }
{
    let mut roles = Vec::new(alloc);
    for word in words {
        let Some(role) = role_of(word) else {
            return Ok(None);
        };
        roles.push(role)?;
    }
    Ok(Some(roles))
}

fn is_among(role: RoleId, roles: &[RoleId]) -> bool
    ensures { result ≡ list_any (same_role role) roles.now }
{
    roles.iter().any(|other| role.is(*other))
}

fn stand_once(roles: &[RoleId]) -> bool
    ensures { result ≡ stand_once roles.now }
{
    for place in 0..roles.len() {
        if is_among(roles[place], &roles[place + 1..]) {
            return false;
        }
    }
    true
}

impl NamedRoles {
    /// The roles that words name, in their order. None exactly where a word names no role, or one is named twice.
    pub fn named(alloc: Global, words: &[&str]) -> Result<Option<Self>, AllocError>
        ensures { IfOk result (λ roles. roles ≡ roles_of (map (λ word. word.now) words.now)) }
    {
        match all_roles(alloc, words)? {
            Some(list) if stand_once(&list) => Ok(Some(NamedRoles { list })),
            _ => Ok(None),
        }
    }

    /// The roles, in their order.
    #[tactic(auto, using(crate::proofs::Once::at_one_place))]
    pub fn as_slice(&self) -> &[RoleId]
        ensures items { result.now ≡ self.now }
        ensures distinct { (i j : ℕ) (me : RoleId) → slice_get self.now i ≡ Some me
            → slice_get self.now j ≡ Some me → i ≡ j }
    {
        self.list.as_slice()
    }
}
