// Packed sheets: document 01, "Packed sheets". The values of a sheet and its bytes are defined in specs/Sheet.antt; what is turned back,
// and in which order, stands in specs/Judging.antt. The code here is what the reader (`sheet_reader`) and the writer (`sheet_writer`)
// share.
#![tactic(auto)]

ghost use Rattle.std.specs.Prelude.{◌≡◌};
ghost use Rattle.refusals.specs.Order.{judged};
ghost use Rattle.sheet_rules.specs.Judging.{most_limit_or_tolerance, most_rounds_of, value_rows};
ghost use Rattle.sheet_rules.specs.Lent.{lengths_lent, slices_of, values_given};

mod room;

use figures::Figure;
use judging::{
    check_angles, check_fixed, check_fixed_sum, check_limit_or_tolerance, check_rounds,
    check_sine_entries,
};
use refusals::{MOST_LIMIT, MOST_ROUNDS, MOST_TOLERANCE, Refusal};
pub use sheet_layout::{
    Kind, Pass, SheetHead, carries_rounds, default_of, lengths_of, look_at, pass_of, sheet_size,
};

// What the reader finds in a sheet's head: L or e as packed, so that 0 stays 0.
#[derive(Clone, Copy, Debug, PartialEq, Eq)]
pub struct ReadHead {
    pub kind: Kind,
    pub figure: Figure,
    pub limit_or_tolerance: u32,
}

// The values of a sheet, in the units of document 01, "Units and ranges". A slice of each sort, and no slice of angles with all that belongs
// to each, because the C interface lends them so; the same holds of the room.
#[derive(Clone, Copy)]
pub struct SheetValues<'a> {
    pub angles: &'a [u32],
    pub rounds: &'a [u8],
    pub fixed: &'a [u32],
    pub log_sines: &'a [u32],
    pub differences: &'a [i32],
    pub log_sides: &'a [u32],
}

// What is lent for them.
#[derive(Drop)]
pub struct SheetRoom<'a> {
    pub angles: &'a mut [u32],
    pub rounds: &'a mut [u8],
    pub fixed: &'a mut [u32],
    pub log_sines: &'a mut [u32],
    pub differences: &'a mut [i32],
    pub log_sides: &'a mut [u32],
}

// `lengths` here and of the room (room.rt) list the fields of their own struct: slices to read and to write are of other types.
impl SheetValues<'_> {
    // How many there are of each sort, for number 2.
    pub fn lengths(&self) -> [usize; 6]
        ensures { result ≡ lengths_lent (slices_of (values_given 0 self.now)) }
    {
        [
            self.angles.len(),
            self.rounds.len(),
            self.fixed.len(),
            self.log_sines.len(),
            self.differences.len(),
            self.log_sides.len(),
        ]
    }
}

fn most_limit_or_tolerance(kind: Kind) -> u32
    ensures { result ≡ most_limit_or_tolerance kind }
{
    match pass_of(kind) {
        Pass::First => MOST_LIMIT,
        Pass::Second => MOST_TOLERANCE,
    }
}

fn most_rounds(kind: Kind) -> u8
    ensures { result ≡ most_rounds_of kind }
{
    if carries_rounds(kind) { MOST_ROUNDS } else { 1 }
}

// The tests of a sheet's values, 3, 4, 16, 5, 14 and 8, whether they were read or are to be written.
#[tactic(auto, unfolding(refusals::specs::Order::answer_of))]
pub fn check_values(
    kind: Kind,
    limit_or_tolerance: u32,
    values: SheetValues<'_>,
) -> Result<(), Refusal>
    ensures { result ≡ judged (value_rows kind (values_given limit_or_tolerance values.entry)) }
{
    check_limit_or_tolerance(limit_or_tolerance, most_limit_or_tolerance(kind))?;
    check_angles(values.angles)?;
    check_rounds(values.rounds, most_rounds(kind))?;
    check_fixed(values.fixed)?;
    check_fixed_sum(values.fixed)?;
    check_sine_entries(values.log_sines, values.log_sides, values.differences)
}
