// A sheet worked through, straight to its lines: document 01, "Sheets worked through". Looked at and read once, then worked by the pass of
// its kind, and its lines laid from what was read and worked.
// A refusal becomes the text here and is handed on to no caller: so each step has an arm for it, and the lines of what it worked in the other,
// while its slices are still lent.
#![tactic(auto)]

ghost use Rattle.std.specs.Prelude.{◌≡◌, pos};
ghost use Rattle.text.specs.Holds.{Holds};
ghost use Rattle.wide_words.specs.Words.{joined};
ghost use Rattle.lines.specs.Worked.{first_text_of, second_text_of};
ghost use Rattle.sheet_rules.specs.Lent.{held_by, slices_of, values_given};
ghost use Rattle.pass_rules.specs.Lent.{entries_given, first_held, second_held};
ghost use Rattle.pass_sheet.specs.Texts.{first_left_text, second_left_text, text_of, worked_text};
ghost use Rattle.pass_sheet.specs.Worked.{first_sheet, second_sheet, worked_slices, worked_body};

use figures::{Figure, MOST_ANGLES, MOST_CONDITIONS, MOST_FIXED, MOST_SIDES};
use lines::{FirstWorked, SecondWorked, first_lines, refused_lines, second_lines};
use pass_first::first_pass_of;
use pass_rules::{
    FirstInput, FirstRoom, SecondInput, SecondRoom, SineAnswer, in_force, second_result_lengths,
};
use pass_second::second_pass_of;
use sheet_rules::{
    Pass, ReadHead, SheetHead, SheetRoom, SheetValues, default_of, lengths_of, look_at, pass_of,
};

// What the pass left, as its lines show it.
fn first_shown<'a>(figure: Figure, angles: &'a [u32], room: &'a FirstRoom<'_>) -> FirstWorked<'a>
    ensures { first_text_of result ≡ first_left_text figure angles.now (first_held room.now) }
{
    FirstWorked {
        figure,
        given: angles,
        rounds: room.corrected_rounds,
        numerators: room.numerators,
        rounded: room.rounded,
        results: room.corrected,
        misclosures: room.misclosures,
        rests: room.rests,
    }
}

// A sheet for the first pass.
fn first_sheet(buffer: &mut [u8], figure: Figure, given: FirstInput<'_>) -> usize
    ensures { Holds buffer.old
        (text_of (first_sheet figure given.entry.limit given.entry.angles.now given.entry.rounds.now given.entry.fixed.now))
        buffer.new result }
{
    let counts = figure_tables::counts_of(figure);
    let mut misclosures = [0i32; MOST_CONDITIONS];
    let mut numerators = [0i32; MOST_ANGLES];
    let mut rounded = [0i32; MOST_ANGLES];
    let mut corrected = [0u32; MOST_ANGLES];
    let mut corrected_rounds = [0u8; MOST_ANGLES];
    let mut rests = [0i32; MOST_CONDITIONS];
    let misclosures = &mut misclosures[..counts.conditions];
    let numerators = &mut numerators[..counts.angles];
    let rounded = &mut rounded[..counts.angles];
    let corrected = &mut corrected[..counts.angles];
    let corrected_rounds = &mut corrected_rounds[..counts.angles];
    let rests = &mut rests[..counts.conditions];
    let mut room = FirstRoom {
        misclosures,
        numerators,
        rounded,
        corrected,
        corrected_rounds,
        rests,
    };
    match first_pass_of(figure, given, &mut room) {
        Err(refusal) => refused_lines(buffer, refusal),
        Ok(()) => first_lines(buffer, first_shown(figure, given.angles, &room)),
    }
}

// What the pass answered and left, as its lines show it.
fn second_shown<'a>(
    figure: Figure,
    sums: SineAnswer,
    angles: &'a [u32],
    room: &'a SecondRoom<'_>,
) -> SecondWorked<'a>
    ensures { second_text_of result
        ≡ second_left_text figure sums.misclosure sums.side_misclosure (joined (pos sums.divisor_high) sums.divisor_low)
        angles.now (second_held room.now) }
{
    SecondWorked {
        figure,
        misclosure: sums.misclosure,
        side_misclosure: sums.side_misclosure,
        divisor_high: sums.divisor_high,
        divisor_low: sums.divisor_low,
        given: angles,
        rounds: room.adjusted_rounds,
        reduced: room.reduced,
        side_reduced: room.side_reduced,
        numerators_high: room.numerators_high,
        numerators_low: room.numerators_low,
        rounded: room.rounded,
        results: room.adjusted,
        rests: room.rests,
    }
}

// A sheet for the second pass.
fn second_sheet(buffer: &mut [u8], figure: Figure, given: SecondInput<'_>) -> usize
    ensures { Holds buffer.old
        (text_of (second_sheet figure given.entry.tolerance given.entry.angles.now given.entry.rounds.now (entries_given given.entry)))
        buffer.new result }
{
    let lengths = second_result_lengths(figure);
    let n = lengths[0];
    let mut reduced = [0i64; MOST_ANGLES];
    let mut side_reduced = [0i64; MOST_ANGLES];
    let mut numerators_high = [0i64; MOST_ANGLES];
    let mut numerators_low = [0u64; MOST_ANGLES];
    let mut rounded = [0i32; MOST_ANGLES];
    let mut adjusted = [0u32; MOST_ANGLES];
    let mut adjusted_rounds = [0u8; MOST_ANGLES];
    let mut rests = [0i32; MOST_CONDITIONS];
    let reduced = &mut reduced[..n];
    let side_reduced = &mut side_reduced[..lengths[1]];
    let numerators_high = &mut numerators_high[..n];
    let numerators_low = &mut numerators_low[..n];
    let rounded = &mut rounded[..n];
    let adjusted = &mut adjusted[..n];
    let adjusted_rounds = &mut adjusted_rounds[..n];
    let rests = &mut rests[..lengths[7]];
    let mut room = SecondRoom {
        reduced,
        side_reduced,
        numerators_high,
        numerators_low,
        rounded,
        adjusted,
        adjusted_rounds,
        rests,
    };
    match second_pass_of(figure, given, &mut room) {
        Err(refusal) => refused_lines(buffer, refusal),
        Ok(sums) => second_lines(buffer, second_shown(figure, sums, given.angles, &room)),
    }
}

// What the reader read, worked by the pass of its kind, with the kind's default where the sheet has 0.
fn read_lines(buffer: &mut [u8], read: ReadHead, values: SheetValues<'_>) -> usize
    ensures { Holds buffer.old (text_of (worked_slices read (slices_of (values_given 0 values.entry)))) buffer.new result }
{
    let bound = in_force(read.limit_or_tolerance, default_of(read.kind));
    match pass_of(read.kind) {
        Pass::First => first_sheet(
            buffer,
            read.figure,
            FirstInput {
                limit: bound,
                angles: values.angles,
                rounds: values.rounds,
                fixed: values.fixed,
            },
        ),
        Pass::Second => second_sheet(
            buffer,
            read.figure,
            SecondInput {
                tolerance: bound,
                angles: values.angles,
                rounds: values.rounds,
                log_sines: values.log_sines,
                differences: values.differences,
                log_sides: values.log_sides,
            },
        ),
    }
}

// What the reader left in the slices that it was lent.
fn values_of<'a>(room: &'a SheetRoom<'_>) -> SheetValues<'a>
    ensures { slices_of (values_given 0 result) ≡ held_by room.now }
{
    SheetValues {
        angles: room.angles,
        rounds: room.rounds,
        fixed: room.fixed,
        log_sines: room.log_sines,
        differences: room.differences,
        log_sides: room.log_sides,
    }
}

// A sheet whose head is known, read into arrays of the largest counts, of which the reader is lent the kind's and the figure's own.
fn body_lines(buffer: &mut [u8], sheet: &[u8], head: SheetHead) -> usize
    ensures { Holds buffer.old (text_of (worked_body head.kind head.figure sheet.now)) buffer.new result }
{
    let lengths = lengths_of(head.kind, head.figure);
    let mut angles = [0u32; MOST_ANGLES];
    let mut rounds = [0u8; MOST_ANGLES];
    let mut fixed = [0u32; MOST_FIXED];
    let mut log_sines = [0u32; MOST_ANGLES];
    let mut differences = [0i32; MOST_ANGLES];
    let mut log_sides = [0u32; MOST_SIDES];
    let angles = &mut angles[..lengths.angles];
    let rounds = &mut rounds[..lengths.rounds];
    let fixed = &mut fixed[..lengths.fixed];
    let log_sines = &mut log_sines[..lengths.log_sines];
    let differences = &mut differences[..lengths.differences];
    let log_sides = &mut log_sides[..lengths.log_sides];
    let mut room = SheetRoom {
        angles,
        rounds,
        fixed,
        log_sines,
        differences,
        log_sides,
    };
    match sheet_reader::read_body(sheet, head, &mut room) {
        Err(refusal) => refused_lines(buffer, refusal),
        Ok(read) => read_lines(buffer, read, values_of(&room)),
    }
}

// The text of any bytes, from the start of a lent slice: the reader's refusal, the pass's refusal, or the lines of the worked figure. It
// answers as `lines` does.
pub fn worked_lines(buffer: &mut [u8], sheet: &[u8]) -> usize
    ensures { Holds buffer.old (worked_text sheet.now) buffer.new result }
{
    match look_at(sheet) {
        Err(refusal) => refused_lines(buffer, refusal),
        Ok(head) => body_lines(buffer, sheet, head),
    }
}
