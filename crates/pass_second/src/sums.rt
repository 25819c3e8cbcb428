// The sums of both sine conditions: document 01, "The two passes", and document 02, M-100. A figure without a side condition has 0 for its
// sums.
ghost use Rattle.std.specs.Prelude.{◌≡◌, ◌*◌, ◌≤◌, pos, nat_abs, length, ◌≤ℤ◌};
ghost use Rattle.whole.specs.Sums.{dot, vector};
ghost use Rattle.refusals.specs.Ranges.{most_log_sine, most_difference};
ghost use Rattle.figures.specs.Figure.{angle_count, side_count};
ghost use Rattle.figures.specs.Numerators.{most_angles};
ghost use Rattle.pass_rules.specs.Lent.{entries_given};
ghost use Rattle.pass_rules.specs.SecondPass.{side_reduced_count, reduced_of, side_reduced_of};
ghost use Rattle.pass_steps.specs.Premises.{Within, LogSines, most_reduced};
ghost use Rattle.pass_second.specs.Sines.{together_of, with_sides, sums_of};
ghost use Rattle.pass_second.specs.Steps.{divisor_from};

use crate::sines::{Sines, product, sines_into};
use figures::Figure;
use pass_pair::{Pair, pair_factors};
use pass_rules::SecondInput;

// [AA], [AB], [BB] and both misclosures, and the sum of d² of each condition.
#[derive(Clone, Copy)]
pub(crate) struct Sums {
    pub pair: Pair,
    pub difference_squares: i64,
    pub side_difference_squares: i64,
}

// Of a side condition that there is not.
const NO_SINES: Sines = Sines {
    misclosure: 0,
    squares: 0,
    difference_squares: 0,
};

// The reduced coefficients A, and B where there are known sides, with the sums.
pub(crate) fn sums_into(
    figure: Figure,
    given: SecondInput<'_>,
    a: &mut [i32],
    b: &mut [i32],
) -> Sums
    requires log_sines_len { length given.log_sines.now ≡ angle_count figure }
    requires differences_len { length given.differences.now ≡ angle_count figure }
    requires log_sides_len { length given.log_sides.now ≡ side_count figure }
    requires a_len { length a.old ≡ angle_count figure }
    requires b_len { length b.old ≡ side_reduced_count figure }
    requires log_sines { LogSines given.log_sines.now }
    requires log_sines_2 { LogSines given.log_sides.now }
    requires within { Within most_difference given.differences.now }
    ensures value { result
        ≡ sums_of figure (entries_given given.entry) }
    ensures a_after { a.new
        ≡ reduced_of figure (entries_given given.entry) }
    ensures b_after { b.new
        ≡ side_reduced_of figure (entries_given given.entry) }
{
    let signs = figure_tables::signs_of(figure);
    let pole = sines_into(figure, signs, given.log_sines, given.differences, a);
    if given.log_sides.is_empty() {
        return together(pole, NO_SINES, 0, 0);
    }
    let side_signs = figure_tables::side_signs_of(figure);
    let side = sines_into(figure, side_signs, given.log_sines, given.differences, b);
    let shared = products(a, b);
    let side_misclosure = with_sides(side.misclosure, given.log_sides);
    together(pole, side, shared, side_misclosure)
}

fn together(pole: Sines, side: Sines, shared: i64, side_misclosure: i64) -> Sums
    ensures { result ≡ together_of pole side shared side_misclosure }
{
    let pair = Pair {
        aa: pole.squares,
        ab: shared,
        bb: side.squares,
        wa: pole.misclosure,
        wb: side_misclosure,
    };
    Sums {
        pair,
        difference_squares: pole.difference_squares,
        side_difference_squares: side.difference_squares,
    }
}

// [AB].
#[tactic(auto, using(crate::proofs::Growing::total_all), unfolding(whole::specs::Sums::dot))]
fn products(a: &[i32], b: &[i32]) -> i64
    requires b_len { length b.now ≡ length a.now }
    requires a_len_bound { length a.now ≤ most_angles }
    requires within { Within most_reduced a.now }
    requires within_2 { Within most_reduced b.now }
    ensures { result ≡ dot (length a.now) (vector a.now) (vector b.now) }
{
    let mut total = 0i64;
    for (i, value) in a.iter().enumerate() {
        total += product(*value, b[i]);
    }
    total
}

// The side condition has log side 1 with + and log side 4, the second of the two, with −.
fn with_sides(of_angles: i64, log_sides: &[u32]) -> i64
    requires of_angles_bound { nat_abs of_angles ≤ most_angles * most_log_sine }
    requires log_sides_len { length log_sides.now ≡ 2 }
    requires log_sines { LogSines log_sides.now }
    ensures { result ≡ with_sides of_angles log_sides.now }
{
    of_angles + (i64::from(log_sides[0]) - i64::from(log_sides[1]))
}

// S, or with known sides the determinant.
pub(crate) fn divisor_of(sides: usize, pair: Pair) -> u128
    requires { pos 0 ≤ℤ divisor_from sides pair }
    ensures { pos result ≡ divisor_from sides pair }
{
    if sides == 0 {
        u128::from(pair.aa.unsigned_abs())
    } else {
        pair_factors(pair).determinant.size
    }
}
