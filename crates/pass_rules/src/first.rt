// What a first pass is given and lent, and its order as far as it needs no work: document 01, "The two passes" and "Numbers given when a
// sheet is turned back", M-101 for number 14, and M-106 for number 16.
ghost use Rattle.std.specs.Prelude.{◌≡◌, ◌++◌};
ghost use Rattle.refusals.specs.Order.{judged};
ghost use Rattle.pass_rules.specs.FirstPass.{limit_of, first_result_lengths, given_rows};
ghost use Rattle.pass_rules.specs.Promises.{first_results_lent};
ghost use Rattle.pass_rules.specs.Lent.{first_given_lengths, first_held};

use crate::in_force;
use figures::Figure;
use judging::{
    check_angles, check_fixed, check_fixed_sum, check_lengths, check_limit_or_tolerance,
    check_rounds,
};
use refusals::{MOST_LIMIT, MOST_ROUNDS, Refusal};

// Document 02, M-102: the misclosure limit, in tenths, that 0 stands for.
const DEFAULT_LIMIT: u32 = 90;

// L, and the observed angles with their rounds and the fixed angles. A slice of each sort, as the C interface lends them; so it is in the room.
#[derive(Clone, Copy)]
pub struct FirstInput<'a> {
    pub limit: u32,
    pub angles: &'a [u32],
    pub rounds: &'a [u8],
    pub fixed: &'a [u32],
}

// What is lent for the results.
#[derive(Drop)]
pub struct FirstRoom<'a> {
    pub misclosures: &'a mut [i32],
    pub numerators: &'a mut [i32],
    pub rounded: &'a mut [i32],
    pub corrected: &'a mut [u32],
    pub corrected_rounds: &'a mut [u8],
    pub rests: &'a mut [i32],
}

// `lengths` here and of the room list the fields of their own struct: slices to read and to write are of other types.
impl FirstInput<'_> {
    // How many are given of each sort, for number 2.
    fn lengths(&self) -> [usize; 3]
        ensures { result ≡ first_given_lengths self.now }
    {
        [self.angles.len(), self.rounds.len(), self.fixed.len()]
    }
}

impl FirstRoom<'_> {
    // How many are lent of each sort, for number 2.
    pub fn lengths(&self) -> [usize; 6]
        ensures { result ≡ first_results_lent (first_held self.now) }
    {
        [
            self.misclosures.len(),
            self.numerators.len(),
            self.rounded.len(),
            self.corrected.len(),
            self.corrected_rounds.len(),
            self.rests.len(),
        ]
    }
}

// L in force.
pub fn limit_in_force(limit: u32) -> u32
    ensures { result ≡ limit_of limit }
{
    in_force(limit, DEFAULT_LIMIT)
}

// Of misclosures, numerators, rounded corrections, corrected angles, their rounds, and rests.
pub fn first_result_lengths(figure: Figure) -> [usize; 6]
    ensures { result ≡ first_result_lengths figure }
{
    let counts = figure_tables::counts_of(figure);
    let angles = counts.angles;
    let conditions = counts.conditions;
    [conditions, angles, angles, angles, angles, conditions]
}

// Numbers 2, 3, 4, 16, 5 and 14: what can be said before any work. `results` are the lengths of what is lent.
#[tactic(auto, unfolding(refusals::specs::Order::answer_of))]
pub fn check_first_given(
    figure: Figure,
    given: FirstInput<'_>,
    results: [usize; 6],
) -> Result<(), Refusal>
    ensures { result ≡ judged
        (given_rows figure given.entry.limit given.entry.angles.now given.entry.rounds.now given.entry.fixed.now
        (first_given_lengths given.entry ++ results)) }
{
    let counts = figure_tables::counts_of(figure);
    check_lengths(
        &given.lengths(),
        &[counts.angles, counts.angles, counts.fixed],
    )?;
    check_lengths(&results, &first_result_lengths(figure))?;
    check_limit_or_tolerance(given.limit, MOST_LIMIT)?;
    check_angles(given.angles)?;
    check_rounds(given.rounds, MOST_ROUNDS)?;
    check_fixed(given.fixed)?;
    check_fixed_sum(given.fixed)
}
