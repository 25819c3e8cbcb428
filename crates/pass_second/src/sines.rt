// A sine condition of the second pass: document 01, "The two passes", and numbers 10 and 9.
// A cast by `as` stands where the library has no `From`, to a narrower type or to and from usize; each is proved to keep its value.
ghost use Rattle.std.specs.Prelude.{◌≡◌, ℕ, ◌*◌, ◌<◌, ◌≤◌, ◌^◌, ◌/◌, ◌%◌, pos, nat_abs, length, ◌+ℤ◌, ◌*ℤ◌, ◌≤ℤ◌};
ghost use Rattle.whole.specs.Lists.{listed};
ghost use Rattle.whole.specs.Sums.{squares as sums_squares, vector};
ghost use Rattle.refusals.specs.Order.{verdict_of, judged};
ghost use Rattle.refusals.specs.Ranges.{most_difference, most_log_sine, most_tolerance};
ghost use Rattle.refusals.specs.Table.{sine_misclosure_row, sum_of_squares_row};
ghost use Rattle.figures.specs.Figure.{angle_count};
ghost use Rattle.figures.specs.Numerators.{reduced_coefficient, most_angles};
ghost use Rattle.pass_rules.specs.SecondPass.{tolerance_of, sine_rows};
ghost use Rattle.pass_steps.specs.Premises.{Within, LogSines, most_denominator, most_reduced, most_taken};
ghost use Rattle.pass_second.specs.Sines.{signed_by, signed_sums_of, reduced_from, sines_by, reduced_by};

use crate::sums::Sums;
use figure_tables::Signs;
use figures::{Figure, MOST_ANGLES, MOST_CONDITIONS};
use pass_rules::tolerance_in_force;
use pass_steps::{condition_sums, numerators_into};
use refusals::{Refusal, first_to_fail};

// Of a sine condition, by the signs of its angles: its W without known sides, the sum of its squared reduced coefficients, and that of d².
#[derive(Clone, Copy)]
pub(crate) struct Sines {
    pub misclosure: i64,
    pub squares: i64,
    pub difference_squares: i64,
}

#[derive(Clone, Copy)]
struct SignedSums {
    misclosure: i64,
    difference_squares: i64,
}

// The reduced coefficients of a sine condition, with its sums.
pub(crate) fn sines_into(
    figure: Figure,
    signs: Signs,
    log_sines: &[u32],
    differences: &[i32],
    a: &mut [i32],
) -> Sines
    requires by_index { (i : ℕ) → i < angle_count figure → nat_abs (vector signs i) ≤ 1 }
    requires log_sines_len { length log_sines.now ≡ angle_count figure }
    requires differences_len { length differences.now ≡ angle_count figure }
    requires a_len { length a.old ≡ angle_count figure }
    requires log_sines { LogSines log_sines.now }
    requires within { Within most_difference differences.now }
    ensures value { result ≡ sines_by figure signs log_sines.now differences.now }
    ensures a_after { a.new ≡ reduced_by figure signs differences.now }
{
    let n = differences.len();
    let mut d = [0; MOST_ANGLES];
    let d = &mut d[..n];
    let sums = signed_into(signs, log_sines, differences, d);
    let squares = reduced_into(figure, d, a);
    Sines {
        misclosure: sums.misclosure,
        squares,
        difference_squares: sums.difference_squares,
    }
}

// The signed differences d, with W and the sum of d².
#[tactic(auto, using(crate::proofs::Growing::total_all, whole::proofs::Lists::filled_all), unfolding(whole::specs::Sums::dot))]
fn signed_into(signs: Signs, log_sines: &[u32], differences: &[i32], d: &mut [i32]) -> SignedSums
    requires log_sines_len { length log_sines.now ≡ length differences.now }
    requires d_len { length d.old ≡ length differences.now }
    requires differences_len_bound { length differences.now ≤ most_angles }
    requires by_index { (i : ℕ) → i < length differences.now → nat_abs (vector signs i) ≤ 1 }
    requires log_sines { LogSines log_sines.now }
    requires within { Within most_difference differences.now }
    ensures value { result ≡ signed_sums_of signs log_sines.now differences.now (length differences.now) }
    ensures d_after { d.new ≡ listed (length differences.now) (signed_by signs differences.now) }
{
    let mut misclosure = 0i64;
    let mut difference_squares = 0i64;
    for (i, difference) in differences.iter().enumerate() {
        let sign = i32::from(signs[i]);
        let signed = signed_difference(sign, *difference);
        d[i] = signed;
        difference_squares += squared_difference(signed);
        misclosure += signed_log_sine(sign, log_sines[i]);
    }
    SignedSums {
        misclosure,
        difference_squares,
    }
}

fn signed_difference(sign: i32, difference: i32) -> i32
    requires sign_bound { nat_abs sign ≤ 1 }
    requires difference_bound { nat_abs difference ≤ most_difference }
    ensures value { result ≡ sign *ℤ difference }
    ensures small { nat_abs result ≤ most_difference }
{
    sign * difference
}

fn squared_difference(signed: i32) -> i64
    requires { nat_abs signed ≤ most_difference }
    ensures value { result ≡ signed *ℤ signed }
    ensures small { nat_abs result ≤ most_difference * most_difference }
{
    i64::from(signed * signed)
}

fn signed_log_sine(sign: i32, log_sine: u32) -> i64
    requires sign_bound { nat_abs sign ≤ 1 }
    requires log_sine_bound { log_sine ≤ most_log_sine }
    ensures value { result ≡ sign *ℤ pos log_sine }
    ensures small { nat_abs result ≤ most_log_sine }
{
    i64::from(sign * log_sine as i32)
}

// A of each angle: D·d plus the first-pass numerator for misclosures equal to each condition's sum of d. Answers the sum of A².
fn reduced_into(figure: Figure, d: &[i32], a: &mut [i32]) -> i64
    requires d_len { length d.now ≡ angle_count figure }
    requires a_len { length a.old ≡ angle_count figure }
    requires within { Within most_difference d.now }
    ensures value { result ≡ sums_squares (angle_count figure) (reduced_coefficient figure (vector d.now)) }
    ensures a_after { a.new ≡ listed (angle_count figure) (reduced_coefficient figure (vector d.now)) }
{
    let counts = figure_tables::counts_of(figure);
    let mut sums = [0; MOST_CONDITIONS];
    let sums = &mut sums[..counts.conditions];
    condition_sums(figure, d, sums);
    numerators_into(figure, sums, a);
    reduced_from(counts.denominator, d, a)
}

// D·d with what is taken, of each angle, in the place of what is taken. Answers the sum of the squares.
#[tactic(auto, using(crate::proofs::Growing::total_all, whole::proofs::Lists::filled_all), unfolding(whole::specs::Sums::dot))]
fn reduced_from(denominator: u32, d: &[i32], a: &mut [i32]) -> i64
    requires a_len { length a.old ≡ length d.now }
    requires d_len_bound { length d.now ≤ most_angles }
    requires denominator_le_most_denominator { denominator ≤ most_denominator }
    requires within { Within most_difference d.now }
    requires within_2 { Within most_taken a.old }
    ensures value { result ≡ sums_squares (length d.now) (reduced_from denominator d.now a.old) }
    ensures a_after { a.new ≡ listed (length d.now) (reduced_from denominator d.now a.old) }
{
    let mut squares = 0i64;
    for (i, difference) in d.iter().enumerate() {
        let one = reduced_one(denominator, *difference, a[i]);
        a[i] = one;
        squares += product(one, one);
    }
    squares
}

fn reduced_one(denominator: u32, difference: i32, taken: i32) -> i32
    requires denominator_le_most_denominator { denominator ≤ most_denominator }
    requires difference_bound { nat_abs difference ≤ most_difference }
    requires taken_bound { nat_abs taken ≤ most_taken }
    ensures value { result ≡ pos denominator *ℤ difference +ℤ taken }
    ensures small { nat_abs result ≤ most_reduced }
{
    denominator as i32 * difference + taken
}

// Of two reduced coefficients.
pub(crate) fn product(a: i32, b: i32) -> i64
    requires a_bound { nat_abs a ≤ most_reduced }
    requires b_bound { nat_abs b ≤ most_reduced }
    ensures value { result ≡ a *ℤ b }
    ensures small { nat_abs result ≤ most_reduced * most_reduced }
{
    i64::from(a) * i64::from(b)
}

// Numbers 10 and 9, the latter of each sine condition.
#[tactic(auto, unfolding(refusals::specs::Order::answer_of))]
pub(crate) fn check_sines(sums: Sums, divisor: u128, tolerance: u32) -> Result<(), Refusal>
    requires wa_bound { nat_abs sums.pair.wa < 2 ^ 32 }
    requires wb_bound { nat_abs sums.pair.wb < 2 ^ 32 }
    requires tolerance_le_most_tolerance { tolerance ≤ most_tolerance }
    requires pos_bound { (pos 0 ≤ℤ sums.difference_squares) × (nat_abs sums.difference_squares < 2 ^ 32) }
    requires pos_bound_2 { (pos 0 ≤ℤ sums.side_difference_squares) × (nat_abs sums.side_difference_squares < 2 ^ 32) }
    ensures { result ≡ judged (sine_rows tolerance (pos divisor)
        sums.pair.wa sums.difference_squares sums.pair.wb sums.side_difference_squares) }
{
    check_divisor(divisor)?;
    let pole = check_tolerance(sums.pair.wa, tolerance, sums.difference_squares);
    let side = check_tolerance(sums.pair.wb, tolerance, sums.side_difference_squares);
    first_to_fail(pole, side)
}

// Number 10.
fn check_divisor(divisor: u128) -> Result<(), Refusal>
    ensures { result ≡ verdict_of (sum_of_squares_row (pos divisor)) }
{
    judging::check_squares(high_word(divisor), low_word(divisor))
}

// How many numbers a word can hold.
const RADIX: u128 = 18446744073709551616;

// A divisor's two words, as the C interface has them.
pub(crate) fn high_word(divisor: u128) -> u64
    ensures { result ≡ divisor / 2 ^ 64 }
{
    (divisor / RADIX) as u64
}

pub(crate) fn low_word(divisor: u128) -> u64
    ensures { result ≡ divisor % 2 ^ 64 }
{
    (divisor % RADIX) as u64
}

// Number 9.
fn check_tolerance(misclosure: i64, tolerance: u32, difference_squares: i64) -> Result<(), Refusal>
    requires misclosure_bound { nat_abs misclosure < 2 ^ 32 }
    requires tolerance_le_most_tolerance { tolerance ≤ most_tolerance }
    requires pos_bound { pos 0 ≤ℤ difference_squares }
    requires difference_squares_bound { nat_abs difference_squares < 2 ^ 32 }
    ensures { result ≡ verdict_of (sine_misclosure_row (tolerance_of tolerance) misclosure difference_squares) }
{
    let e = u64::from(tolerance_in_force(tolerance));
    let w = whole::magnitude(misclosure);
    let most = e * e * whole::magnitude(difference_squares);
    if whole::hundredfold_exceeds(w * w, most) {
        Err(Refusal::SineMisclosureBeyondTolerance)
    } else {
        Ok(())
    }
}
