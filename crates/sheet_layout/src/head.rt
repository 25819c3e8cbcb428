// The head of a packed sheet: document 01, "Packed sheets" and "Numbers given when a sheet is turned back". What its numbers name, and what
// a look at it answers, stands in specs/Head.antt.
ghost use Rattle.std.specs.Prelude.{◌≡◌};
ghost use Rattle.sheet_layout.specs.Head.{kind_of, head_of, look_of};

use crate::{CODE_AT, CODE_WIDTH, KIND_WIDTH, Kind, N_AT, N_WIDTH};
use bits::field;
use figures::{Figure, figure_of};
use refusals::Refusal;

// The bytes that kind, code and n lie in.
const HEAD_BYTES: usize = 2;

// What the head of a sheet names.
#[derive(Clone, Copy, Debug, PartialEq, Eq)]
pub struct SheetHead {
    pub kind: Kind,
    pub figure: Figure,
}

fn kind_of(number: u32) -> Option<Kind>
    ensures { result ≡ kind_of number }
{
    match number {
        1 => Some(Kind::One),
        2 => Some(Kind::Two),
        3 => Some(Kind::Three),
        4 => Some(Kind::Four),
        5 => Some(Kind::Five),
        _ => None,
    }
}

// The kind and the figure that numbers name, for the reader and the writer.
#[tactic(auto, unfolding(crate::specs::Head::head_of))]
pub fn named_head(kind: u32, code: u32, n: u32) -> Result<SheetHead, Refusal>
    ensures { result ≡ head_of kind code n }
{
    let kind = kind_of(kind).ok_or(Refusal::NoSuchKind)?;
    let figure = figure_of(code, n).ok_or(Refusal::NoSuchFigure)?;
    Ok(SheetHead { kind, figure })
}

// The kind and the figure of a sheet, so that slices of the right lengths can be lent for its values; or why the reader turns it back
// already.
#[tactic(auto, using(crate::proofs::Naming::short, crate::proofs::Naming::long_enough, crate::proofs::Naming::front_decides))]
pub fn look_at(sheet: &[u8]) -> Result<SheetHead, Refusal>
    ensures { result ≡ look_of sheet.now }
{
    if sheet.len() < HEAD_BYTES {
        return Err(Refusal::WrongSheetLength);
    }
    // Of the bytes of the head alone: of a longer run eight are read for each field.
    let head = &sheet[..HEAD_BYTES];
    named_head(
        field(head, 0, KIND_WIDTH),
        field(head, CODE_AT, CODE_WIDTH),
        field(head, N_AT, N_WIDTH),
    )
}
