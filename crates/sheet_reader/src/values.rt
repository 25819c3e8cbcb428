// The values of a sheet: taken off it once, and stored last. Of each sort there are as many as the kind and the figure have. Arrays for
// them are lent, since one that is answered would be copied.
ghost use Rattle.std.specs.Prelude.{◌≡◌, length, take, replicate};
ghost use Rattle.figures.specs.declared.Figure.{Figure};
ghost use Rattle.figures.specs.Figure.{angle_count};
ghost use Rattle.figures.specs.Numerators.{most_angles};
ghost use Rattle.sheet_layout.specs.Layout.{fixed_in, sine_entries_in, sides_in};
ghost use Rattle.sheet_rules.specs.Sheet.{values_read};
ghost use Rattle.sheet_rules.specs.Judging.{own_lengths};
ghost use Rattle.sheet_rules.specs.Lent.{SameSlices, held_by, lengths_lent, slices_of, values_given};

use crate::columns::{
    angle_column, difference_column, fixed_column, log_side_column, log_sine_column, rounds_column,
    take_column,
};
use bits::field;
use figures::Figure;
use sheet_layout::{
    Kind, LIMIT_OR_TOLERANCE_AT, LIMIT_WIDTH, Pass, SheetHead, TOLERANCE_WIDTH, carries_rounds,
    pass_of,
};
use sheet_rules::{SheetRoom, SheetValues};
use whole::copy_over;

// L or e as packed, which stands after the head whatever the figure.
pub(crate) fn limit_or_tolerance_in(sheet: &[u8], kind: Kind) -> u32
    ensures { (f : Figure) → result ≡ (values_read kind f sheet.now).limit_or_tolerance }
{
    match pass_of(kind) {
        Pass::First => field(sheet, LIMIT_OR_TOLERANCE_AT, LIMIT_WIDTH),
        Pass::Second => field(sheet, LIMIT_OR_TOLERANCE_AT, TOLERANCE_WIDTH),
    }
}

fn angles_in(sheet: &[u8], kind: Kind, figure: Figure, held: &mut [u32])
    requires { length held.old ≡ angle_count figure }
    ensures { held.new ≡ (values_read kind figure sheet.now).angles }
{
    take_column(sheet, angle_column(kind, figure), held);
}

// The rounds of each angle, over one round each: older kinds read as that (M-106).
fn rounds_in(sheet: &[u8], kind: Kind, figure: Figure, held: &mut [u8])
    requires { held.old ≡ take (angle_count figure) (replicate most_angles 1) }
    ensures { held.new ≡ (values_read kind figure sheet.now).rounds }
{
    if carries_rounds(kind) {
        take_column(sheet, rounds_column(kind, figure), held);
    }
}

fn fixed_in(sheet: &[u8], kind: Kind, figure: Figure, held: &mut [u32])
    requires { length held.old ≡ fixed_in kind figure }
    ensures { held.new ≡ (values_read kind figure sheet.now).fixed }
{
    take_column(sheet, fixed_column(kind, figure), held);
}

fn log_sines_in(sheet: &[u8], kind: Kind, figure: Figure, held: &mut [u32])
    requires { length held.old ≡ sine_entries_in kind figure }
    ensures { held.new ≡ (values_read kind figure sheet.now).log_sines }
{
    take_column(sheet, log_sine_column(kind, figure), held);
}

fn differences_in(sheet: &[u8], kind: Kind, figure: Figure, held: &mut [i32])
    requires { length held.old ≡ sine_entries_in kind figure }
    ensures { held.new ≡ (values_read kind figure sheet.now).differences }
{
    take_column(sheet, difference_column(kind, figure), held);
}

fn log_sides_in(sheet: &[u8], kind: Kind, figure: Figure, held: &mut [u32])
    requires { length held.old ≡ sides_in kind figure }
    ensures { held.new ≡ (values_read kind figure sheet.now).log_sides }
{
    take_column(sheet, log_side_column(), held);
}

// The values of a sheet, each taken once, into slices of their lengths.
pub(crate) fn take_values(sheet: &[u8], head: SheetHead, taken: &mut SheetRoom<'_>)
    requires lengths { lengths_lent (held_by taken.old) ≡ own_lengths head.kind head.figure }
    requires ones { taken.old.rounds.now ≡ take (angle_count head.figure) (replicate most_angles 1) }
    ensures values { held_by taken.new ≡ slices_of (values_read head.kind head.figure sheet.now) }
    ensures same { SameSlices taken.new taken.old }
{
    let SheetHead { kind, figure } = head;
    angles_in(sheet, kind, figure, taken.angles);
    rounds_in(sheet, kind, figure, taken.rounds);
    fixed_in(sheet, kind, figure, taken.fixed);
    log_sines_in(sheet, kind, figure, taken.log_sines);
    differences_in(sheet, kind, figure, taken.differences);
    log_sides_in(sheet, kind, figure, taken.log_sides);
}

// The values into slices that have their lengths.
pub(crate) fn store(values: SheetValues<'_>, room: &mut SheetRoom<'_>)
    requires { lengths_lent (held_by room.old) ≡ lengths_lent (slices_of (values_given 0 values)) }
    ensures stored { held_by room.new ≡ slices_of (values_given 0 values.entry) }
    ensures same { SameSlices room.new room.old }
{
    copy_over(values.angles, room.angles);
    copy_over(values.rounds, room.rounds);
    copy_over(values.fixed, room.fixed);
    copy_over(values.log_sines, room.log_sines);
    copy_over(values.differences, room.differences);
    copy_over(values.log_sides, room.log_sides);
}
