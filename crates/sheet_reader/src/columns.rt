// Columns of a sheet: the values of one sort, as they stand in it.
// A cast by `as` stands where the library has no `From`, to a narrower type or to and from usize; each is proved to keep its value.
// That a column fits the sheet stays a premise of each function that takes one: it speaks of the slice that the caller lends for the values.
ghost use Rattle.std.specs.Prelude.{◌≡◌, ◌%◌, ℕ, length};
ghost use Rattle.bits.specs.Complement.{signed_of};
ghost use Rattle.sheet_layout.specs.Kinds.{pass_of, carries_rounds};
ghost use Rattle.sheet_reader.specs.Columns.{rows_start, angle_column, rounds_column, fixed_column, log_sine_column, difference_column};
ghost use Rattle.sheet_reader.specs.Columns.{log_side_column, ColumnFits, values_held};

use bits::{field, signed};
use figure_tables::counts_of;
use figures::Figure;
use sheet_layout::{
    ANGLE_WIDTH, DIFFERENCE_WIDTH, FIRST_PASS_BODY_AT, FIRST_PASS_STEP, Kind, LOG_SIDE_STEP,
    LOG_SIDE_WIDTH, LOG_SINE_WIDTH, Pass, ROUNDS_WIDTH, SECOND_PASS_BODY_AT, SECOND_PASS_STEP,
    pass_of, rounds_step,
};

// They stand at start, start + step, start + 2 * step and so on, each in the same width.
#[derive(Clone, Copy)]
pub(crate) struct Column {
    pub(crate) start: usize,
    pub(crate) step: usize,
    pub(crate) width: u32,
}

// Where the rounds stand after the start of their angle, and where the log-sine and the difference stand in a row for the second pass:
// after the angle, and after its rounds where it has them.
const ROUNDS_IN_ROW: usize = 23;

const LOG_SINE_IN_ROW: usize = 23;

const DIFFERENCE_IN_ROW: usize = 50;

// Where the rows for the second pass begin, after the known log sides.
fn rows_at(figure: Figure) -> usize
    ensures { result ≡ rows_start figure }
{
    SECOND_PASS_BODY_AT + LOG_SIDE_STEP * counts_of(figure).sides
}

pub(crate) fn angle_column(kind: Kind, figure: Figure) -> Column
    ensures { result ≡ angle_column (pass_of kind) (carries_rounds kind) figure }
{
    let rounds = rounds_step(kind);
    match pass_of(kind) {
        Pass::First => Column {
            start: FIRST_PASS_BODY_AT,
            step: FIRST_PASS_STEP + rounds,
            width: ANGLE_WIDTH,
        },
        Pass::Second => Column {
            start: rows_at(figure),
            step: SECOND_PASS_STEP + rounds,
            width: ANGLE_WIDTH,
        },
    }
}

// Rounds stand right after their angle, where the kind carries them.
pub(crate) fn rounds_column(kind: Kind, figure: Figure) -> Column
    ensures { result ≡ rounds_column (pass_of kind) (carries_rounds kind) figure }
{
    let angles = angle_column(kind, figure);
    Column {
        start: angles.start + ROUNDS_IN_ROW,
        step: angles.step,
        width: ROUNDS_WIDTH,
    }
}

// Fixed angles stand after the angles, for the first pass only.
pub(crate) fn fixed_column(kind: Kind, figure: Figure) -> Column
    ensures { result ≡ fixed_column (carries_rounds kind) figure }
{
    let angles = counts_of(figure).angles;
    Column {
        start: FIRST_PASS_BODY_AT + FIRST_PASS_STEP * angles + rounds_step(kind) * angles,
        step: FIRST_PASS_STEP,
        width: ANGLE_WIDTH,
    }
}

// This column and the next are each the definition of its name, which tells apart two offsets and two widths: one function over both would
// take those two as arguments and say no more.
pub(crate) fn log_sine_column(kind: Kind, figure: Figure) -> Column
    ensures { result ≡ log_sine_column (carries_rounds kind) figure }
{
    let rounds = rounds_step(kind);
    Column {
        start: rows_at(figure) + LOG_SINE_IN_ROW + rounds,
        step: SECOND_PASS_STEP + rounds,
        width: LOG_SINE_WIDTH,
    }
}

pub(crate) fn difference_column(kind: Kind, figure: Figure) -> Column
    ensures { result ≡ difference_column (carries_rounds kind) figure }
{
    let rounds = rounds_step(kind);
    Column {
        start: rows_at(figure) + DIFFERENCE_IN_ROW + rounds,
        step: SECOND_PASS_STEP + rounds,
        width: DIFFERENCE_WIDTH,
    }
}

// Known log sides stand before the rows, for the second pass only.
pub(crate) fn log_side_column() -> Column
    ensures { result ≡ log_side_column }
{
    Column {
        start: SECOND_PASS_BODY_AT,
        step: LOG_SIDE_STEP,
        width: LOG_SIDE_WIDTH,
    }
}

// A value as a field holds it.
pub(crate) trait FieldValue: Copy {
    ghost held: { ℕ → ℕ → Self };

    fn from_field(field: u32, width: u32) -> Self
        ensures { result ≡ held width field };
}

impl FieldValue for u32 {
    ghost held = { λ width field. field };

    fn from_field(field: u32, _width: u32) -> u32 {
        field
    }
}

impl FieldValue for u8 {
    ghost held = { λ width field. field % 256 };

    fn from_field(field: u32, _width: u32) -> u8 {
        (field % 256) as u8
    }
}

// In two's complement.
impl FieldValue for i32 {
    ghost held = { signed_of };

    fn from_field(field: u32, width: u32) -> i32 {
        signed(field, width)
    }
}

// The first values of a column, each taken once, as many as have room.
pub(crate) fn take_column<T: FieldValue>(sheet: &[u8], column: Column, values: &mut [T])
    requires { ColumnFits column (length values.old) }
    ensures { values.new ≡ values_held T.held sheet.now column (length values.old) }
{
    // The place goes on by a step of bits beside the values: `step_by` over the sheet would have to be told an end that nothing needs.
    let mut at = column.start;
    for value in values.iter_mut() {
        *value = T::from_field(field(sheet, at, column.width), column.width);
        at += column.step;
    }
}
