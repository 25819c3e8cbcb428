// What the second corrections leave, and the stores: document 01, "The two passes", and number 7.
ghost use Rattle.std.specs.Prelude.{◌≡◌, pos, length};
ghost use Rattle.whole.specs.Lists.{listed};
ghost use Rattle.whole.specs.Sums.{vector};
ghost use Rattle.refusals.specs.Order.{verdict_of};
ghost use Rattle.refusals.specs.Promise.{stored};
ghost use Rattle.refusals.specs.Table.{results_row};
ghost use Rattle.judging.specs.Searches.{results_of};
ghost use Rattle.figures.specs.Figure.{denominator, angle_count, condition_count, side_count};
ghost use Rattle.figures.specs.Numerators.{condition_sum};
ghost use Rattle.pass_rules.specs.SecondPass.{side_reduced_count};
ghost use Rattle.pass_rules.specs.Promises.{second_lent};
ghost use Rattle.pass_rules.specs.Lent.{second_held, SameSecondSlices};
ghost use Rattle.pass_steps.specs.Premises.{Within, Angles, most_summed, most_reduced};
ghost use Rattle.pass_second.specs.Steps.{SmallPair, divisor_from, tenths_from, work_of, work_lent, work_lengths, second_from};

use crate::numerators::corrections_into;
use figures::{Figure, MOST_ANGLES};
use pass_pair::Pair;
use pass_rules::SecondRoom;
use pass_steps::{condition_sums, results_into, store};
use refusals::Refusal;

// What the corrections are worked from: how many sides are known, the sums of both sine conditions, S or the determinant, and the reduced
// coefficients A and B.
#[derive(Clone, Copy)]
pub(crate) struct SineConditions<'a> {
    pub sides: usize,
    pub pair: Pair,
    pub divisor: u128,
    pub a: &'a [i32],
    pub b: &'a [i32],
}

// Numbers 10 and 9 have passed.
pub(crate) fn second_corrected(
    figure: Figure,
    angles: &[u32],
    conditions: SineConditions<'_>,
    room: &mut SecondRoom<'_>,
) -> Result<(), Refusal>
    requires sides_value { conditions.sides ≡ side_count figure }
    requires angles_len { length angles.now ≡ angle_count figure }
    requires a_len { length conditions.a.now ≡ angle_count figure }
    requires b_len { length conditions.b.now ≡ side_reduced_count figure }
    requires room_len { work_lent (work_of (second_held room.old)) ≡ work_lengths figure }
    requires angles { Angles angles.now }
    requires small_pair { SmallPair conditions.pair }
    requires divisor_value { pos conditions.divisor ≡ divisor_from conditions.sides conditions.pair }
    requires within { Within most_reduced conditions.a.now }
    requires within_2 { Within most_reduced conditions.b.now }
    ensures answer { result ≡ verdict_of (results_row (results_of angles.now
        (tenths_from (denominator figure) conditions.entry.sides conditions.entry.pair conditions.entry.a.now conditions.entry.b.now))) }
    ensures left { work_of (second_held room.new) ≡ stored
        (verdict_of (results_row (results_of angles.now
        (tenths_from (denominator figure) conditions.entry.sides conditions.entry.pair conditions.entry.a.now conditions.entry.b.now))))
        (second_from figure angles.now conditions.entry.sides conditions.entry.pair conditions.entry.a.now conditions.entry.b.now)
        (work_of (second_held room.old)) }
    ensures rounds { room.new.adjusted_rounds.now ≡ room.old.adjusted_rounds.now }
    ensures same { SameSecondSlices room.new room.old }
{
    let n = angles.len();
    let mut high = [0; MOST_ANGLES];
    let mut low = [0; MOST_ANGLES];
    let mut tenths = [0; MOST_ANGLES];
    let high = &mut high[..n];
    let low = &mut low[..n];
    let tenths = &mut tenths[..n];
    let denominator = figure_tables::counts_of(figure).denominator;
    corrections_into(denominator, conditions, high, low, tenths);
    results_into(angles, tenths, room.adjusted)?;
    store_second(figure, conditions, high, low, tenths, room);
    Ok(())
}

// The stores, once no row holds; the adjusted angles are stored by `results_into`. What it stores are three slices of this pass: a struct of
// them would be made here alone, and the words are two slices for C (PROMISES.md: `bienguloc_second_pass`).
fn store_second(
    figure: Figure,
    conditions: SineConditions<'_>,
    high: &[i64],
    low: &[u64],
    tenths: &[i32],
    room: &mut SecondRoom<'_>,
)
    requires a_len { length conditions.a.now ≡ angle_count figure }
    requires b_len { length conditions.b.now ≡ side_reduced_count figure }
    requires high_len { length high.now ≡ angle_count figure }
    requires low_len { length low.now ≡ angle_count figure }
    requires tenths_len { length tenths.now ≡ angle_count figure }
    requires room_len { work_lent (work_of (second_held room.old)) ≡ work_lengths figure }
    requires within { Within most_summed tenths.now }
    ensures left { second_held room.new ≡ second_lent conditions.entry.a.now conditions.entry.b.now high.now low.now tenths.now
        room.old.adjusted.now room.old.adjusted_rounds.now
        (listed (condition_count figure) (condition_sum figure (vector tenths.now))) }
    ensures same { SameSecondSlices room.new room.old }
{
    store_wide(conditions.a, room.reduced);
    store_wide(conditions.b, room.side_reduced);
    store(high, room.numerators_high);
    store(low, room.numerators_low);
    store(tenths, room.rounded);
    condition_sums(figure, tenths, room.rests);
}

// Not `store`: the lent places are wider.
fn store_wide(values: &[i32], lent: &mut [i64])
    requires { length lent.old ≡ length values.now }
    ensures { lent.new ≡ values.now }
{
    for (i, value) in values.iter().enumerate() {
        lent[i] = i64::from(*value);
    }
}
