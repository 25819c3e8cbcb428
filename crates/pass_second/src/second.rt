// The second pass over lent slices: document 01, "The two passes", and document 02, M-100, and M-106 for the rounds of each angle.
ghost use Rattle.std.specs.Prelude.{◌≡◌};
ghost use Rattle.pass_rules.specs.Promises.{SecondPromise, SecondPromiseOf};
ghost use Rattle.pass_rules.specs.Lent.{second_given_by, entries_given, second_held, SameSecondSlices};
ghost use Rattle.pass_second.specs.Steps.{answer_from};

use crate::corrections::{SineConditions, second_corrected};
use crate::sines::{check_sines, high_word, low_word};
use crate::sums::{divisor_of, sums_into};
use figures::{Figure, MOST_ANGLES, figure_of};
use pass_pair::Pair;
use pass_rules::{SecondInput, SecondRoom, SineAnswer, check_second_given};
use pass_steps::store_rounds;
use refusals::Refusal;

// The most angles of a figure with known sides: code 2 with four triangles.
const MOST_SIDE_REDUCED: usize = 12;

// The second pass of the figure that code and n name. Done, everything lent is as defined; refused, everything lent is as it was.
pub fn second_pass(
    code: u32,
    n: u32,
    given: SecondInput<'_>,
    room: &mut SecondRoom<'_>,
) -> Result<SineAnswer, Refusal>
    ensures promise { SecondPromise (second_given_by code n given.entry) (second_held room.old) result (second_held room.new) }
    ensures same { SameSecondSlices room.new room.old }
{
    let figure = figure_of(code, n).ok_or(Refusal::NoSuchFigure)?;
    second_pass_of(figure, given, room)
}

// The same of a figure that is named already.
pub fn second_pass_of(
    figure: Figure,
    given: SecondInput<'_>,
    room: &mut SecondRoom<'_>,
) -> Result<SineAnswer, Refusal>
    ensures promise { SecondPromiseOf figure given.entry.tolerance given.entry.angles.now given.entry.rounds.now
        (entries_given given.entry) (second_held room.old) result (second_held room.new) }
    ensures same { SameSecondSlices room.new room.old }
{
    check_second_given(figure, given, room.lengths())?;
    let mut a = [0; MOST_ANGLES];
    let mut b = [0; MOST_SIDE_REDUCED];
    let a = &mut a[..given.angles.len()];
    let b = &mut b[..room.side_reduced.len()];
    let sides = given.log_sides.len();
    let sums = sums_into(figure, given, a, b);
    let pair = sums.pair;
    let divisor = divisor_of(sides, pair);
    check_sines(sums, divisor, given.tolerance)?;
    let conditions = SineConditions {
        sides,
        pair,
        divisor,
        a,
        b,
    };
    let outside = second_corrected(figure, given.angles, conditions, room);
    store_rounds(outside, given.rounds, room.adjusted_rounds);
    outside?;
    Ok(answer_of(pair, divisor))
}

fn answer_of(pair: Pair, divisor: u128) -> SineAnswer
    ensures { result ≡ answer_from pair.wa pair.wb divisor }
{
    SineAnswer {
        misclosure: pair.wa,
        side_misclosure: pair.wb,
        divisor_high: high_word(divisor),
        divisor_low: low_word(divisor),
    }
}
