// The reader for C: what the sheet's head and its L or e say is lent a slice too.
ghost use Rattle.std.specs.Prelude.{◌≡◌, [], ◌∷◌, Err};
ghost use Rattle.figures.specs.Figure.{description};
ghost use Rattle.sheet_layout.specs.Kinds.{number_of_kind};
ghost use Rattle.sheet_rules.specs.Judging.{reading_of};
ghost use Rattle.sheet_rules.specs.Lent.{slices};
ghost use Rattle.controller.specs.Promises.{read_lent, ReadPromise};

use crate::answer::{DONE, refused};
use figures::name_of;
use refusals::Refusal;
use sheet_layout::number_of_kind;
use sheet_reader::read_sheet;
use sheet_rules::{ReadHead, SheetRoom, look_at, sheet_size};

// Kind, code, n, and L or e.
const HEAD_LENGTH: usize = 4;

fn head_of(read: ReadHead) -> [u32; HEAD_LENGTH]
    ensures { result ≡ number_of_kind read.kind ∷ (description read.figure).code ∷ (description read.figure).n
        ∷ read.limit_or_tolerance ∷ [] }
{
    let name = name_of(read.figure);
    [
        number_of_kind(read.kind),
        name.code,
        name.n,
        read.limit_or_tolerance,
    ]
}

// What the reader answers where a slice has a length that no sheet has.
fn refusal_of_lengths(sheet: &[u8]) -> Refusal
    ensures { reading_of sheet.now [] ≡ Err result }
{
    match look_at(sheet) {
        Err(refusal) => refusal,
        Ok(head) => {
            if sheet.len() != sheet_size(head.kind, head.figure) {
                Refusal::WrongSheetLength
            } else {
                Refusal::WrongLength
            }
        }
    }
}

pub fn bienguloc_read(
    sheet: &[u8],
    head: &mut [u32],
    angles: &mut [u32],
    rounds: &mut [u8],
    fixed: &mut [u32],
    log_sines: &mut [u32],
    differences: &mut [i32],
    log_sides: &mut [u32],
) -> u32
    ensures { ReadPromise sheet.now
        (read_lent head.old
        (slices angles.old rounds.old fixed.old log_sines.old differences.old
        log_sides.old))
        result
        (read_lent head.new
        (slices angles.new rounds.new fixed.new log_sines.new differences.new
        log_sides.new)) }
{
    if head.len() != HEAD_LENGTH {
        return refused(refusal_of_lengths(sheet));
    }
    let mut room = SheetRoom {
        angles,
        rounds,
        fixed,
        log_sines,
        differences,
        log_sides,
    };
    match read_sheet(sheet, &mut room) {
        Err(refusal) => refused(refusal),
        Ok(read) => {
            head.copy_from_slice(&head_of(read));
            DONE
        }
    }
}
