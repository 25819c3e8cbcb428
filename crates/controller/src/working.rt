// The two passes for C.
ghost use Rattle.std.specs.Prelude.{◌≡◌, ◌&&◌, [], ◌∷◌, ◌≤◌, eqb, length, take};
ghost use Rattle.refusals.specs.declared.Refusal.{Refusal};
ghost use Rattle.figures.specs.Figure.{figure_of, of_named};
ghost use Rattle.pass_rules.specs.SecondPass.{sine_entries};
ghost use Rattle.pass_rules.specs.Promises.{first_given, first_lent, second_given, second_lent};
ghost use Rattle.controller.specs.Promises.{FirstPassPromise, sine_count, sums_lent, SecondPassPromise};

use crate::answer::{DONE, answered, refused};
use figure_tables::counts_of;
use figures::figure_of;
use pass_first::first_pass;
use pass_rules::{FirstInput, FirstRoom, SecondInput, SecondRoom};
use pass_second::second_pass;
use refusals::Refusal;
use whole::copy_over;

// The high word of S or the determinant, and the low one.
const DIVISOR_LENGTH: usize = 2;

pub fn bienguloc_first_pass(
    code: u32,
    n: u32,
    limit: u32,
    angles: &[u32],
    rounds: &[u8],
    fixed: &[u32],
    misclosures: &mut [i32],
    numerators: &mut [i32],
    rounded: &mut [i32],
    corrected: &mut [u32],
    corrected_rounds: &mut [u8],
    rests: &mut [i32],
) -> u32
    ensures { FirstPassPromise
        (first_given code n limit angles.now rounds.now fixed.now)
        (first_lent misclosures.old numerators.old rounded.old
        corrected.old corrected_rounds.old rests.old)
        result
        (first_lent misclosures.new numerators.new rounded.new
        corrected.new corrected_rounds.new rests.new) }
{
    let given = FirstInput {
        limit,
        angles,
        rounds,
        fixed,
    };
    let mut room = FirstRoom {
        misclosures,
        numerators,
        rounded,
        corrected,
        corrected_rounds,
        rests,
    };
    answered(first_pass(code, n, given, &mut room))
}

// What the second pass answers where a slice has a length that no figure has.
fn refusal_of_lengths(code: u32, n: u32) -> Refusal
    ensures { result ≡ of_named (figure_of code n) Refusal.NoSuchFigure (λ f. Refusal.WrongLength) }
{
    match figure_of(code, n) {
        None => Refusal::NoSuchFigure,
        Some(_) => Refusal::WrongLength,
    }
}

// A figure with known sides has the side condition beside the pole.
fn sine_count(code: u32, n: u32) -> usize
    ensures { result ≡ sine_count code n }
{
    match figure_of(code, n) {
        None => 0,
        Some(figure) if counts_of(figure).sides == 0 => 1,
        Some(_) => 2,
    }
}

fn have_own_lengths(code: u32, n: u32, misclosures: usize, divisor: usize) -> bool
    ensures { result ≡ (eqb misclosures (sine_count code n) && eqb divisor 2) }
{
    misclosures == sine_count(code, n) && divisor == DIVISOR_LENGTH
}

fn store_misclosures(misclosure: i64, side_misclosure: i64, lent: &mut [i64])
    requires { length lent.old ≤ 2 }
    ensures { lent.new ≡ take (length lent.old) (misclosure ∷ side_misclosure ∷ []) }
{
    copy_over(&[misclosure, side_misclosure][..lent.len()], lent);
}

pub fn bienguloc_second_pass(
    code: u32,
    n: u32,
    tolerance: u32,
    angles: &[u32],
    rounds: &[u8],
    log_sines: &[u32],
    differences: &[i32],
    log_sides: &[u32],
    sine_misclosures: &mut [i64],
    divisor: &mut [u64],
    reduced: &mut [i64],
    side_reduced: &mut [i64],
    numerators_high: &mut [i64],
    numerators_low: &mut [u64],
    rounded: &mut [i32],
    adjusted: &mut [u32],
    adjusted_rounds: &mut [u8],
    rests: &mut [i32],
) -> u32
    ensures { SecondPassPromise
        (second_given code n tolerance angles.now rounds.now
        (sine_entries log_sines.now differences.now log_sides.now))
        (sums_lent sine_misclosures.old divisor.old
        (second_lent reduced.old side_reduced.old numerators_high.old numerators_low.old
        rounded.old adjusted.old adjusted_rounds.old rests.old))
        result
        (sums_lent sine_misclosures.new divisor.new
        (second_lent reduced.new side_reduced.new numerators_high.new numerators_low.new
        rounded.new adjusted.new adjusted_rounds.new rests.new)) }
{
    if !have_own_lengths(code, n, sine_misclosures.len(), divisor.len()) {
        return refused(refusal_of_lengths(code, n));
    }
    let given = SecondInput {
        tolerance,
        angles,
        rounds,
        log_sines,
        differences,
        log_sides,
    };
    let mut room = SecondRoom {
        reduced,
        side_reduced,
        numerators_high,
        numerators_low,
        rounded,
        adjusted,
        adjusted_rounds,
        rests,
    };
    match second_pass(code, n, given, &mut room) {
        Err(refusal) => refused(refusal),
        Ok(sums) => {
            store_misclosures(sums.misclosure, sums.side_misclosure, sine_misclosures);
            divisor.copy_from_slice(&[sums.divisor_high, sums.divisor_low]);
            DONE
        }
    }
}
