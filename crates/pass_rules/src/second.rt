// What a second pass is given, lent and answers, and its order as far as it needs no work: document 01, "The two passes" and "Numbers
// given when a sheet is turned back", and M-106 for number 16.
ghost use Rattle.std.specs.Prelude.{◌≡◌, ◌++◌, cond, eqb};
ghost use Rattle.refusals.specs.Order.{judged};
ghost use Rattle.pass_rules.specs.SecondPass.{tolerance_of, second_result_lengths, entry_rows};
ghost use Rattle.pass_rules.specs.Promises.{second_results_lent};
ghost use Rattle.pass_rules.specs.Lent.{second_given_lengths, second_held, entries_given};

use crate::in_force;
use figures::Figure;
use judging::{
    check_angles, check_lengths, check_limit_or_tolerance, check_rounds, check_sine_entries,
};
use refusals::{MOST_ROUNDS, MOST_TOLERANCE, Refusal};

// What the pass answers: W, that of the side condition, and S or the determinant as a high and a low word.
#[derive(Clone, Copy, Debug, PartialEq, Eq)]
pub struct SineAnswer {
    pub misclosure: i64,
    pub side_misclosure: i64,
    pub divisor_high: u64,
    pub divisor_low: u64,
}

// e, and the angles with their rounds, their log-sines and sine differences, and the logarithms of known sides. A slice of each sort, as the
// C interface lends them; so it is in the room.
#[derive(Clone, Copy)]
pub struct SecondInput<'a> {
    pub tolerance: u32,
    pub angles: &'a [u32],
    pub rounds: &'a [u8],
    pub log_sines: &'a [u32],
    pub differences: &'a [i32],
    pub log_sides: &'a [u32],
}

// What is lent for the results: reduced coefficients, those of the side condition, both words of numerators, rounded corrections,
// adjusted angles, their rounds, and rests. A numerator stands in two slices since C has no number so wide.
#[derive(Drop)]
pub struct SecondRoom<'a> {
    pub reduced: &'a mut [i64],
    pub side_reduced: &'a mut [i64],
    pub numerators_high: &'a mut [i64],
    pub numerators_low: &'a mut [u64],
    pub rounded: &'a mut [i32],
    pub adjusted: &'a mut [u32],
    pub adjusted_rounds: &'a mut [u8],
    pub rests: &'a mut [i32],
}

impl SecondInput<'_> {
    // How many are given of each sort, for number 2.
    fn lengths(&self) -> [usize; 5]
        ensures { result ≡ second_given_lengths self.now }
    {
        [
            self.angles.len(),
            self.rounds.len(),
            self.log_sines.len(),
            self.differences.len(),
            self.log_sides.len(),
        ]
    }
}

impl SecondRoom<'_> {
    // How many are lent of each sort, for number 2.
    pub fn lengths(&self) -> [usize; 8]
        ensures { result ≡ second_results_lent (second_held self.now) }
    {
        [
            self.reduced.len(),
            self.side_reduced.len(),
            self.numerators_high.len(),
            self.numerators_low.len(),
            self.rounded.len(),
            self.adjusted.len(),
            self.adjusted_rounds.len(),
            self.rests.len(),
        ]
    }
}

// Document 01, "Units and ranges": the sine tolerance, in seconds, that 0 stands for.
const DEFAULT_TOLERANCE: u32 = 10;

// e in force.
pub fn tolerance_in_force(tolerance: u32) -> u32
    ensures { result ≡ tolerance_of tolerance }
{
    in_force(tolerance, DEFAULT_TOLERANCE)
}

// A figure with known sides has a coefficient of the side condition for each angle.
fn side_reduced_count(sides: usize, angles: usize) -> usize
    ensures { result ≡ cond (eqb sides 0) 0 angles }
{
    if sides == 0 { 0 } else { angles }
}

// Of reduced coefficients, those of the side condition, both words of numerators, rounded corrections, adjusted angles, their rounds,
// and rests.
pub fn second_result_lengths(figure: Figure) -> [usize; 8]
    ensures { result ≡ second_result_lengths figure }
{
    let counts = figure_tables::counts_of(figure);
    let angles = counts.angles;
    let side = side_reduced_count(counts.sides, angles);
    [
        angles,
        side,
        angles,
        angles,
        angles,
        angles,
        angles,
        counts.conditions,
    ]
}

// Numbers 2, 3, 4, 16 and 8: what can be said before any work. `results` are the lengths of what is lent.
#[tactic(auto, unfolding(refusals::specs::Order::answer_of))]
pub fn check_second_given(
    figure: Figure,
    given: SecondInput<'_>,
    results: [usize; 8],
) -> Result<(), Refusal>
    ensures { result ≡ judged
        (entry_rows figure given.entry.tolerance given.entry.angles.now given.entry.rounds.now (entries_given given.entry)
        (second_given_lengths given.entry ++ results)) }
{
    let counts = figure_tables::counts_of(figure);
    let angles = counts.angles;
    check_lengths(
        &given.lengths(),
        &[angles, angles, angles, angles, counts.sides],
    )?;
    check_lengths(&results, &second_result_lengths(figure))?;
    check_limit_or_tolerance(given.tolerance, MOST_TOLERANCE)?;
    check_angles(given.angles)?;
    check_rounds(given.rounds, MOST_ROUNDS)?;
    check_sine_entries(given.log_sines, given.log_sides, given.differences)
}
