// The tests of the table, each once: what a row says of the values that are given. refusals/specs/Table.antt has the
// rows. Six search and name a refusal of their own, a row of the table in two arms: one function over a closure that names the refusal is no
// shorter at its calls, and no plainer.
ghost use Rattle.std.specs.Prelude.{◌≡◌, ◌++◌, ◌+◌, ◌*◌, ◌^◌, eqb, pos};
ghost use Rattle.refusals.specs.Order.{verdict_of};
ghost use Rattle.refusals.specs.Table.{lengths_row, limit_or_tolerance_row, angles_row, fixed_row, misclosures_row};
ghost use Rattle.refusals.specs.Table.{results_row, sine_entries_row, sum_of_squares_row, fixed_sum, sum_of_all, fixed_sum_row, rounds_row};
ghost use Rattle.judging.specs.Searches.{results_of};

use crate::search::{
    lowest_count_outside, lowest_entry_outside, lowest_outside, lowest_result_outside,
    lowest_signed_outside,
};
use refusals::{LEAST_ANGLE, LEAST_ROUNDS, MOST_ANGLE, Refusal};

// Document 02, M-101: what three fixed angles sum to, and four; in tenths.
const HALF_TURN: u32 = 6_480_000;

const FULL_TURN: u32 = 12_960_000;

// Number 2.
pub fn check_lengths(lent: &[usize], own: &[usize]) -> Result<(), Refusal>
    ensures { result ≡ verdict_of (lengths_row lent.now own.now) }
{
    if lent == own {
        Ok(())
    } else {
        Err(Refusal::WrongLength)
    }
}

// Number 3.
pub fn check_limit_or_tolerance(value: u32, most: u32) -> Result<(), Refusal>
    ensures { result ≡ verdict_of (limit_or_tolerance_row most value) }
{
    if most < value {
        Err(Refusal::LimitOrToleranceOutOfRange)
    } else {
        Ok(())
    }
}

// Number 4.
pub fn check_angles(angles: &[u32]) -> Result<(), Refusal>
    ensures { result ≡ verdict_of (angles_row angles.now) }
{
    match lowest_outside(angles, LEAST_ANGLE, MOST_ANGLE) {
        None => Ok(()),
        Some(place) => Err(Refusal::AngleOutOfRange(place)),
    }
}

// Number 5.
pub fn check_fixed(fixed: &[u32]) -> Result<(), Refusal>
    ensures { result ≡ verdict_of (fixed_row fixed.now) }
{
    match lowest_outside(fixed, LEAST_ANGLE, MOST_ANGLE) {
        None => Ok(()),
        Some(place) => Err(Refusal::FixedAngleOutOfRange(place)),
    }
}

// Number 6.
pub fn check_misclosures(misclosures: &[i32], limit: u32) -> Result<(), Refusal>
    ensures { result ≡ verdict_of (misclosures_row limit misclosures.now) }
{
    match lowest_signed_outside(misclosures, -i64::from(limit), i64::from(limit)) {
        None => Ok(()),
        Some(place) => Err(Refusal::MisclosureBeyondLimit(place)),
    }
}

// Number 7, of each angle with its correction.
pub fn check_results(angles: &[u32], corrections: &[i32]) -> Result<(), Refusal>
    ensures { result ≡ verdict_of (results_row (results_of angles.now corrections.now)) }
{
    match lowest_result_outside(angles, corrections) {
        None => Ok(()),
        Some(place) => Err(Refusal::ResultOutOfRange(place)),
    }
}

// Number 8, of the angles' entries and then of the known log sides.
pub fn check_sine_entries(
    log_sines: &[u32],
    log_sides: &[u32],
    differences: &[i32],
) -> Result<(), Refusal>
    ensures { result ≡ verdict_of (sine_entries_row (log_sines.now ++ log_sides.now) differences.now) }
{
    match lowest_entry_outside(log_sines, log_sides, differences) {
        None => Ok(()),
        Some(place) => Err(Refusal::SineEntryOutOfRange(place)),
    }
}

// Number 10, of S or a determinant as two words.
pub fn check_squares(high: u64, low: u64) -> Result<(), Refusal>
    ensures { result ≡ verdict_of (sum_of_squares_row (pos (high * 2 ^ 64 + low))) }
{
    if high == 0 && low == 0 {
        Err(Refusal::SumOfSquaresIsZero)
    } else {
        Ok(())
    }
}

fn fixed_sum(count: usize) -> u32
    ensures { result ≡ fixed_sum count }
{
    match count {
        3 => HALF_TURN,
        4 => FULL_TURN,
        _ => 0,
    }
}

// Each value is taken off the sum, since the sum of any values whatever might not fit; what is more than is left of it ends the work.
fn sums_to(values: &[u32], sum: u32) -> bool
    ensures { result ≡ eqb (sum_of_all values.now) sum }
{
    let mut left = sum;
    for value in values {
        if left < *value {
            return false;
        }
        left -= *value;
    }
    left == 0
}

// Number 14.
pub fn check_fixed_sum(fixed: &[u32]) -> Result<(), Refusal>
    ensures { result ≡ verdict_of (fixed_sum_row fixed.now) }
{
    if sums_to(fixed, fixed_sum(fixed.len())) {
        Ok(())
    } else {
        Err(Refusal::FixedAnglesDoNotSum)
    }
}

// Number 16. An angle has at most `most` rounds: 255, or 1 where a sheet has no place for them.
pub fn check_rounds(rounds: &[u8], most: u8) -> Result<(), Refusal>
    ensures { result ≡ verdict_of (rounds_row most rounds.now) }
{
    match lowest_count_outside(rounds, LEAST_ROUNDS, most) {
        None => Ok(()),
        Some(place) => Err(Refusal::RoundsOutOfRange(place)),
    }
}
