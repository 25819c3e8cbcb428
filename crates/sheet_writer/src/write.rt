// The writer of packed sheets: it judges what it is given first, and writes only what it has accepted.
// That the sheet has room, and that slices are of one length, stays a premise of each step: the slices are the caller's.
ghost use Rattle.std.specs.Prelude.{◌≡◌, [], ◌∷◌, ◌++◌, ◌+◌, ◌*◌, ◌≤◌, length};
ghost use Rattle.refusals.specs.Order.{judged, verdict_of};
ghost use Rattle.refusals.specs.Table.{lengths_row};
ghost use Rattle.figures.specs.Figure.{description};
ghost use Rattle.sheet_layout.specs.Kinds.{number_of_kind, of_pass};
ghost use Rattle.sheet_layout.specs.Layout.{limit, tolerance, width_of, rounds_bits, sheet_size};
ghost use Rattle.sheet_rules.specs.Sheet.{packed_sheet};
ghost use Rattle.sheet_rules.specs.Lent.{values_given};
ghost use Rattle.sheet_rules.specs.Judging.{given_rows, lengths_given, own_lengths};
ghost use Rattle.sheet_rules.specs.Promises.{WriterPromise};
ghost use Rattle.sheet_writer.specs.Packer.{none_packed, HasRoom, Packs};
ghost use Rattle.sheet_writer.specs.Parts.{field_from, head_fields, column_fields, angle_fields, angles_fields, row_of, row_fields};
ghost use Rattle.sheet_writer.specs.Parts.{body_fields, BodyFits, GivenPromise};

use crate::packer::{Packer, finish, put};
use bits::twos_complement;
use figures::name_of;
use judging::check_lengths;
use refusals::Refusal;
use sheet_layout::{
    ANGLE_WIDTH, CODE_WIDTH, DIFFERENCE_WIDTH, KIND_WIDTH, LIMIT_WIDTH, LOG_SIDE_WIDTH,
    LOG_SINE_WIDTH, N_WIDTH, Pass, ROUNDS_WIDTH, SheetHead, TOLERANCE_WIDTH, carries_rounds,
    lengths_of, named_head, number_of_kind, pass_of, sheet_size,
};
use sheet_rules::{SheetValues, check_values};

// Number 2, of the values' slices and of the byte slice, which is `size` long.
#[tactic(auto, unfolding(refusals::specs::Order::answer_of))]
fn check_given_lengths(head: SheetHead, values: SheetValues<'_>, size: usize) -> Result<(), Refusal>
    ensures { result ≡ verdict_of (lengths_row (lengths_given (values_given 0 values.entry) ++ (size ∷ []))
        (own_lengths head.kind head.figure ++ (sheet_size head.kind head.figure ∷ []))) }
{
    let own = lengths_of(head.kind, head.figure);
    check_lengths(
        &values.lengths(),
        &[
            own.angles,
            own.rounds,
            own.fixed,
            own.log_sines,
            own.differences,
            own.log_sides,
        ],
    )?;
    check_lengths(&[size], &[sheet_size(head.kind, head.figure)])
}

// Numbers 2, 3, 4, 16, 5, 14 and 8; `bound` is L or e.
#[tactic(auto, unfolding(refusals::specs::Order::answer_of, sheet_rules::specs::Judging::given_rows))]
fn check_given(
    head: SheetHead,
    bound: u32,
    values: SheetValues<'_>,
    size: usize,
) -> Result<(), Refusal>
    ensures { result ≡ judged (given_rows head.kind head.figure (values_given bound values.entry) size) }
{
    check_given_lengths(head, values, size)?;
    check_values(head.kind, bound, values)
}

// The first fields of a sheet.
fn put_head(sheet: &mut [u8], head: SheetHead) -> Packer
    requires { 12 ≤ 8 * length sheet.old }
    ensures { Packs sheet.old none_packed
        (head_fields (number_of_kind head.kind) (description head.figure).code (description head.figure).n) sheet.new result }
{
    let name = name_of(head.figure);
    let start = Packer {
        held: 0,
        count: 0,
        at: 0,
    };
    let with_kind = put(sheet, start, KIND_WIDTH, number_of_kind(head.kind));
    let with_code = put(sheet, with_kind, CODE_WIDTH, name.code);
    put(sheet, with_code, N_WIDTH, name.n)
}

fn put_limit_or_tolerance(sheet: &mut [u8], packer: Packer, pass: Pass, value: u32) -> Packer
    requires { HasRoom sheet.old packer (width_of (of_pass pass limit tolerance)) }
    ensures { Packs sheet.old packer (field_from (width_of (of_pass pass limit tolerance)) value ∷ [])
        sheet.new result }
{
    match pass {
        Pass::First => put(sheet, packer, LIMIT_WIDTH, value),
        Pass::Second => put(sheet, packer, TOLERANCE_WIDTH, value),
    }
}

// Fixed angles for the first pass, or log sides for the second: values of one width without gaps.
fn put_column(sheet: &mut [u8], start: Packer, width: u32, values: &[u32]) -> Packer
    requires has_room { HasRoom sheet.old start (width * length values.now) }
    requires width_bound { width ≤ 32 }
    ensures { Packs sheet.old start (column_fields width values.now) sheet.new result }
{
    let mut packer = start;
    for value in values {
        packer = put(sheet, packer, width, *value);
    }
    packer
}

// An observed angle, and its rounds right after it where they are carried.
fn put_angle(sheet: &mut [u8], start: Packer, carried: bool, angle: u32, rounds: u8) -> Packer
    requires { HasRoom sheet.old start (23 + rounds_bits carried) }
    ensures { Packs sheet.old start (angle_fields carried angle rounds) sheet.new result }
{
    let with_angle = put(sheet, start, ANGLE_WIDTH, angle);
    if carried {
        return put(sheet, with_angle, ROUNDS_WIDTH, u32::from(rounds));
    }
    with_angle
}

// The angles for the first pass.
fn put_angles(sheet: &mut [u8], start: Packer, carried: bool, values: SheetValues<'_>) -> Packer
    requires has_room { HasRoom sheet.old start ((23 + rounds_bits carried) * length values.angles.now) }
    requires rounds_len { length values.rounds.now ≡ length values.angles.now }
    ensures { Packs sheet.old start
        (angles_fields carried values.entry.angles.now values.entry.rounds.now) sheet.new result }
{
    let mut packer = start;
    for (i, angle) in values.angles.iter().enumerate() {
        packer = put_angle(sheet, packer, carried, *angle, values.rounds[i]);
    }
    packer
}

// An angle for the second pass, its rounds where they are carried, its log-sine and its difference: four values of four columns, which a
// struct would name once more for this one call.
fn put_row(
    sheet: &mut [u8],
    start: Packer,
    carried: bool,
    angle: u32,
    rounds: u8,
    log_sine: u32,
    difference: i32,
) -> Packer
    requires { HasRoom sheet.old start (65 + rounds_bits carried) }
    ensures { Packs sheet.old start (row_of carried angle rounds log_sine difference)
        sheet.new result }
{
    let with_angle = put_angle(sheet, start, carried, angle, rounds);
    let with_log_sine = put(sheet, with_angle, LOG_SINE_WIDTH, log_sine);
    let complement = twos_complement(difference, DIFFERENCE_WIDTH);
    put(sheet, with_log_sine, DIFFERENCE_WIDTH, complement)
}

fn put_rows(sheet: &mut [u8], start: Packer, carried: bool, values: SheetValues<'_>) -> Packer
    requires has_room { HasRoom sheet.old start ((65 + rounds_bits carried) * length values.angles.now) }
    requires rounds_len { length values.rounds.now ≡ length values.angles.now }
    requires log_sines_len { length values.log_sines.now ≡ length values.angles.now }
    requires differences_len { length values.differences.now ≡ length values.angles.now }
    ensures { Packs sheet.old start (row_fields carried values.entry.angles.now values.entry.rounds.now
        values.entry.log_sines.now values.entry.differences.now) sheet.new result }
{
    let mut packer = start;
    for (i, angle) in values.angles.iter().enumerate() {
        packer = put_row(
            sheet,
            packer,
            carried,
            *angle,
            values.rounds[i],
            values.log_sines[i],
            values.differences[i],
        );
    }
    packer
}

fn put_body(
    sheet: &mut [u8],
    start: Packer,
    pass: Pass,
    carried: bool,
    values: SheetValues<'_>,
) -> Packer
    requires { BodyFits sheet.old start pass carried (values_given 0 values) }
    ensures { Packs sheet.old start (body_fields pass carried (values_given 0 values.entry)) sheet.new result }
{
    match pass {
        Pass::First => {
            let with_angles = put_angles(sheet, start, carried, values);
            put_column(sheet, with_angles, ANGLE_WIDTH, values.fixed)
        }
        Pass::Second => {
            let with_sides = put_column(sheet, start, LOG_SIDE_WIDTH, values.log_sides);
            put_rows(sheet, with_sides, carried, values)
        }
    }
}

// The fields of a sheet one after the other, and zero bits up to the end of its last byte; `bound` is L or e.
fn pack(sheet: &mut [u8], head: SheetHead, bound: u32, values: SheetValues<'_>)
    requires lengths { lengths_given (values_given bound values) ≡ own_lengths head.kind head.figure }
    requires sheet_len { length sheet.old ≡ sheet_size head.kind head.figure }
    ensures { sheet.new ≡ packed_sheet head.kind head.figure (values_given bound values.entry) }
{
    let pass = pass_of(head.kind);
    let carried = carries_rounds(head.kind);
    let with_head = put_head(sheet, head);
    let with_bound = put_limit_or_tolerance(sheet, with_head, pass, bound);
    let packed = put_body(sheet, with_bound, pass, carried, values);
    finish(sheet, packed);
}

// What follows once kind and figure are known; `bound` is L or e.
fn write_given(
    head: SheetHead,
    bound: u32,
    values: SheetValues<'_>,
    sheet: &mut [u8],
) -> Result<(), Refusal>
    ensures promise { GivenPromise head.kind head.figure (values_given bound values.entry) sheet.old result sheet.new }
{
    check_given(head, bound, values, sheet.len())?;
    pack(sheet, head, bound, values);
    Ok(())
}

// Writes a sheet into a slice that has exactly its size. On a refusal nothing lent changes. The four numbers are the head as a caller has it,
// in the order of the sheet: none is a value until it is judged.
pub fn write_sheet(
    kind: u32,
    code: u32,
    n: u32,
    limit_or_tolerance: u32,
    values: SheetValues<'_>,
    sheet: &mut [u8],
) -> Result<(), Refusal>
    ensures promise { WriterPromise kind code n (values_given limit_or_tolerance values.entry) sheet.old result sheet.new }
{
    let head = named_head(kind, code, n)?;
    write_given(head, limit_or_tolerance, values, sheet)
}
