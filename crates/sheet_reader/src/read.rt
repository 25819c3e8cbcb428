// The reader of packed sheets: it judges a sheet first, and stores only what it has accepted.
// A cast by `as` stands where the library has no `From`, to a narrower type or to and from usize; each is proved to keep its value.
ghost use Rattle.std.specs.Prelude.{◌≡◌, length};
ghost use Rattle.refusals.specs.Order.{verdict_of, judged};
ghost use Rattle.refusals.specs.Promise.{stored};
ghost use Rattle.refusals.specs.Table.{lengths_row, filling_row};
ghost use Rattle.sheet_layout.specs.Layout.{sheet_size};
ghost use Rattle.sheet_rules.specs.Sheet.{values_read};
ghost use Rattle.sheet_rules.specs.Judging.{own_lengths, filling_bits, value_rows};
ghost use Rattle.sheet_rules.specs.Promises.{ReaderPromise};
ghost use Rattle.sheet_rules.specs.Lent.{SameSlices, held_by, lengths_lent, slices_of, values_given};
ghost use Rattle.sheet_reader.specs.Parts.{shape_rows, answered, ValuesPromise, BodyPromise};

use crate::values::{limit_or_tolerance_in, store, take_values};
use bits::field;
use figures::{Figure, MOST_ANGLES, MOST_FIXED, MOST_SIDES};
use judging::check_lengths;
use refusals::Refusal;
use sheet_layout::{Kind, SheetHead, bit_count, lengths_of, look_at, sheet_size};
use sheet_rules::{ReadHead, SheetRoom, SheetValues, check_values};

// Number 2, of the lengths of what is lent.
fn check_lent(room: &SheetRoom<'_>, kind: Kind, figure: Figure) -> Result<(), Refusal>
    ensures { result ≡ verdict_of (lengths_row (lengths_lent (held_by room.now)) (own_lengths kind figure)) }
{
    let own = lengths_of(kind, figure);
    check_lengths(
        &room.lengths(),
        &[
            own.angles,
            own.rounds,
            own.fixed,
            own.log_sines,
            own.differences,
            own.log_sides,
        ],
    )
}

// Number 13, of a sheet that has its size: the bits after the last field.
fn check_filling(sheet: &[u8], kind: Kind, figure: Figure) -> Result<(), Refusal>
    requires { length sheet.now ≡ sheet_size kind figure }
    ensures { result ≡ verdict_of (filling_row (filling_bits kind figure sheet.now)) }
{
    let end = bit_count(kind, figure);
    let left = 8 * sheet.len() - end;
    if field(sheet, end, left as u32) != 0 {
        return Err(Refusal::FillingBitSet);
    }
    Ok(())
}

// The tests before those of the values: 12, 2, 13.
#[tactic(auto, unfolding(refusals::specs::Order::answer_of))]
fn check_shape(sheet: &[u8], head: SheetHead, room: &SheetRoom<'_>) -> Result<(), Refusal>
    ensures { result ≡ judged (shape_rows head.kind head.figure sheet.now (lengths_lent (held_by room.now))) }
{
    let SheetHead { kind, figure } = head;
    if sheet.len() != sheet_size(kind, figure) {
        return Err(Refusal::WrongSheetLength);
    }
    check_lent(room, kind, figure)?;
    check_filling(sheet, kind, figure)
}

// What was taken is judged, and stored once it is accepted.
fn judge_and_store(
    head: SheetHead,
    bound: u32,
    taken: SheetValues<'_>,
    room: &mut SheetRoom<'_>,
) -> Result<ReadHead, Refusal>
    requires { lengths_lent (held_by room.old) ≡ lengths_lent (slices_of (values_given bound taken)) }
    ensures answer { result ≡ answered (judged (value_rows head.kind (values_given bound taken.entry))) head.kind head.figure bound }
    ensures left { held_by room.new
        ≡ stored (judged (value_rows head.kind (values_given bound taken.entry))) (slices_of (values_given bound taken.entry)) (held_by room.old) }
    ensures same { SameSlices room.new room.old }
{
    check_values(head.kind, bound, taken)?;
    store(taken, room);
    Ok(ReadHead {
        kind: head.kind,
        figure: head.figure,
        limit_or_tolerance: bound,
    })
}

// The values of a sheet that has its shape.
fn read_values(sheet: &[u8], head: SheetHead, room: &mut SheetRoom<'_>) -> Result<ReadHead, Refusal>
    requires { lengths_lent (held_by room.old) ≡ own_lengths head.kind head.figure }
    ensures promise { ValuesPromise head.kind head.figure (values_read head.kind head.figure sheet.now).limit_or_tolerance
        (slices_of (values_read head.kind head.figure sheet.now)) (held_by room.old) result (held_by room.new) }
    ensures same { SameSlices room.new room.old }
{
    let bound = limit_or_tolerance_in(sheet, head.kind);
    let mut angles = [0u32; MOST_ANGLES];
    let mut rounds = [1u8; MOST_ANGLES];
    let mut fixed = [0u32; MOST_FIXED];
    let mut log_sines = [0u32; MOST_ANGLES];
    let mut differences = [0i32; MOST_ANGLES];
    let mut log_sides = [0u32; MOST_SIDES];
    let angles = &mut angles[..room.angles.len()];
    let rounds = &mut rounds[..room.rounds.len()];
    let fixed = &mut fixed[..room.fixed.len()];
    let log_sines = &mut log_sines[..room.log_sines.len()];
    let differences = &mut differences[..room.differences.len()];
    let log_sides = &mut log_sides[..room.log_sides.len()];
    let mut taken = SheetRoom {
        angles,
        rounds,
        fixed,
        log_sines,
        differences,
        log_sides,
    };
    take_values(sheet, head, &mut taken);
    let values = SheetValues {
        angles,
        rounds,
        fixed,
        log_sines,
        differences,
        log_sides,
    };
    judge_and_store(head, bound, values, room)
}

// Reads the sheet of a kind and a figure that are known: what follows the head.
pub fn read_body(
    sheet: &[u8],
    head: SheetHead,
    room: &mut SheetRoom<'_>,
) -> Result<ReadHead, Refusal>
    ensures promise { BodyPromise head.kind head.figure sheet.now (held_by room.old) result (held_by room.new) }
    ensures same { SameSlices room.new room.old }
{
    check_shape(sheet, head, room)?;
    read_values(sheet, head, room)
}

// Reads a sheet into slices that have exactly the lengths of its kind and figure. On a refusal nothing lent changes.
pub fn read_sheet(sheet: &[u8], room: &mut SheetRoom<'_>) -> Result<ReadHead, Refusal>
    ensures promise { ReaderPromise sheet.now (held_by room.old) result (held_by room.new) }
    ensures same { SameSlices room.new room.old }
{
    let head = look_at(sheet)?;
    read_body(sheet, head, room)
}
