// The kinds of packed sheets: document 01, "Packed sheets", and document 02, M-102 and M-106. What each is stands in specs/Kinds.antt.
ghost use Rattle.std.specs.Prelude.{◌≡◌};
ghost use Rattle.sheet_layout.specs.Kinds.{kind_from, row_of_kind, number_of_kind, pass_of, default_of, carries_rounds};

use crate::{Kind, KindRow, Pass};

fn row(number: u32, pass: Pass, default: u32, rounds: bool) -> KindRow
    ensures { result ≡ kind_from number pass default rounds }
{
    KindRow {
        number,
        pass,
        default,
        rounds,
    }
}

// The table of kinds, a row for each.
fn row_of_kind(kind: Kind) -> KindRow
    ensures { result ≡ row_of_kind kind }
{
    match kind {
        Kind::One => row(1, Pass::First, 150, false),
        Kind::Two => row(2, Pass::Second, 10, false),
        Kind::Three => row(3, Pass::First, 90, false),
        Kind::Four => row(4, Pass::First, 90, true),
        Kind::Five => row(5, Pass::Second, 10, true),
    }
}

pub fn number_of_kind(kind: Kind) -> u32
    ensures { result ≡ number_of_kind kind }
{
    row_of_kind(kind).number
}

pub fn pass_of(kind: Kind) -> Pass
    ensures { result ≡ pass_of kind }
{
    row_of_kind(kind).pass
}

pub fn default_of(kind: Kind) -> u32
    ensures { result ≡ default_of kind }
{
    row_of_kind(kind).default
}

// Whether each observed angle has its rounds after it.
pub fn carries_rounds(kind: Kind) -> bool
    ensures { result ≡ carries_rounds kind }
{
    row_of_kind(kind).rounds
}
