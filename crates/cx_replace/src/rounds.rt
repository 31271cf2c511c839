//! Which rounds are the same, and which is later.

ghost use Rattle.std.specs.Prelude.{◌≡◌};
ghost use Rattle.cx_role.specs.Prelude.{later_round, same_round};

use cx_base::Round;

pub fn is_same(a: Round, b: Round) -> bool
    ensures { result ≡ same_round a b }
{
    a.r == b.r && a.id == b.id && a.s == b.s
}

pub fn later_round(a: Round, b: Round) -> Round
    ensures { result ≡ later_round a b }
{
    if a.is_before(&b) { b } else { a }
}
