// A look at the head of a sheet: what it is for, and how long the slices are that its values need.
// A cast by `as` stands where the library has no `From`, to a narrower type or to and from usize; each is proved to keep its value.
ghost use Rattle.std.specs.Prelude.{◌≡◌};
ghost use Rattle.controller.specs.Promises.{look_head, LookPromise};

use crate::answer::{DONE, refused};
use figure_tables::counts_of;
use figures::{Figure, name_of};
use refusals::Refusal;
use sheet_layout::number_of_kind;
use sheet_rules::{Kind, lengths_of, look_at};

// Kind, code, n, and how many angles, fixed angles, log-sines, conditions, log sides and rounds.
const HEAD_LENGTH: usize = 9;

fn head_of(kind: Kind, figure: Figure) -> [u32; HEAD_LENGTH]
    ensures { result ≡ look_head kind figure }
{
    let number = number_of_kind(kind);
    let name = name_of(figure);
    let lengths = lengths_of(kind, figure);
    let counts = counts_of(figure);
    [
        number,
        name.code,
        name.n,
        lengths.angles as u32,
        lengths.fixed as u32,
        lengths.log_sines as u32,
        counts.conditions as u32,
        lengths.log_sides as u32,
        lengths.rounds as u32,
    ]
}

// Does not look at the sheet's size: the reader does.
pub fn bienguloc_look(sheet: &[u8], head: &mut [u32]) -> u32
    ensures { LookPromise sheet.now head.old result head.new }
{
    match look_at(sheet) {
        Err(refusal) => refused(refusal),
        Ok(found) => {
            if head.len() != HEAD_LENGTH {
                return refused(Refusal::WrongLength);
            }
            head.copy_from_slice(&head_of(found.kind, found.figure));
            DONE
        }
    }
}
