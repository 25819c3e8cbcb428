// The exact corrections of the second pass and their rounding: document 01, "The two passes", and document 02, M-100.
// A cast by `as` stands where the library has no `From`, to a narrower type or to and from usize; each is proved to keep its value.
ghost use Rattle.std.specs.Prelude.{◌≡◌, ◌*◌, ◌≤◌, pos, nat_abs, ◌*ℤ◌, length};
ghost use Rattle.whole.specs.Lists.{listed};
ghost use Rattle.whole.specs.Quotient.{rounded_quotient};
ghost use Rattle.whole.specs.Sums.{vector};
ghost use Rattle.wide_words.specs.Words.{high_word, low_word};
ghost use Rattle.pass_pair.specs.Pair.{clamped};
ghost use Rattle.pass_steps.specs.Premises.{Within, most_denominator, most_misclosure, most_reduced};
ghost use Rattle.pass_second.specs.Steps.{SmallPair, factor_of, divisor_from, highs_from, lows_from, tenths_from, exact_correction, pair_correction};

use crate::corrections::SineConditions;
use pass_pair::{PairCorrection, PairFactors, pair_correction, pair_factors};
use wide_words::words_of_signed;

// Of each angle the numerator, as two words, and the correction in tenths: three slices and no struct of each angle, since the steps after
// this take the tenths, and the stores the words, each as a slice.
pub(crate) fn corrections_into(
    denominator: u32,
    conditions: SineConditions<'_>,
    high: &mut [i64],
    low: &mut [u64],
    tenths: &mut [i32],
)
    requires denominator_le_most_denominator { denominator ≤ most_denominator }
    requires small_pair { SmallPair conditions.pair }
    requires divisor_value { pos conditions.divisor ≡ divisor_from conditions.sides conditions.pair }
    requires within { Within most_reduced conditions.a.now }
    requires within_2 { Within most_reduced conditions.b.now }
    requires b_len { (conditions.sides ≡ 0 → ⊥) → length conditions.b.now ≡ length conditions.a.now }
    requires high_len { length high.old ≡ length conditions.a.now }
    requires low_len { length low.old ≡ length conditions.a.now }
    requires tenths_len { length tenths.old ≡ length conditions.a.now }
    ensures high_after { high.new
        ≡ highs_from denominator conditions.entry.sides conditions.entry.pair conditions.entry.a.now conditions.entry.b.now }
    ensures low_after { low.new
        ≡ lows_from denominator conditions.entry.sides conditions.entry.pair conditions.entry.a.now conditions.entry.b.now }
    ensures tenths_after { tenths.new
        ≡ tenths_from denominator conditions.entry.sides conditions.entry.pair conditions.entry.a.now conditions.entry.b.now }
{
    let factor = factor_of(denominator);
    let pair = conditions.pair;
    let a = conditions.a;
    if conditions.sides == 0 {
        let scale = scale_of(factor, pair.wa);
        one_into(scale, conditions.divisor as u64, a, high, low, tenths);
    } else {
        two_into(
            factor,
            pair_factors(pair),
            a,
            conditions.b,
            high,
            low,
            tenths,
        );
    }
}

// −100·D.
fn factor_of(denominator: u32) -> i64
    requires { denominator ≤ most_denominator }
    ensures value { result ≡ factor_of denominator }
    ensures small { nat_abs result ≤ 100 * most_denominator }
{
    -100 * i64::from(denominator)
}

// −100·D·W.
fn scale_of(factor: i64, misclosure: i64) -> i64
    requires factor_bound { nat_abs factor ≤ 100 * most_denominator }
    requires misclosure_bound { nat_abs misclosure ≤ most_misclosure }
    ensures value { result ≡ factor *ℤ misclosure }
    ensures small { nat_abs result ≤ 100 * most_denominator * most_misclosure }
{
    factor * misclosure
}

// With one sine condition; `scale` is −100·D·W. The three slices are those of `corrections_into`, lent on: a struct would be made for this
// call alone.
fn one_into(
    scale: i64,
    divisor: u64,
    a: &[i32],
    high: &mut [i64],
    low: &mut [u64],
    tenths: &mut [i32],
)
    requires scale_bound { nat_abs scale ≤ 100 * most_denominator * most_misclosure }
    requires within { Within most_reduced a.now }
    requires high_len { length high.old ≡ length a.now }
    requires low_len { length low.old ≡ length a.now }
    requires tenths_len { length tenths.old ≡ length a.now }
    ensures high_after { high.new ≡ listed (length a.now) (λ i. high_word (scale *ℤ vector a.now i)) }
    ensures low_after { low.new ≡ listed (length a.now) (λ i. low_word (scale *ℤ vector a.now i)) }
    ensures tenths_after { tenths.new
        ≡ listed (length a.now) (λ i. clamped (rounded_quotient (scale *ℤ vector a.now i) divisor)) }
{
    for (i, value) in a.iter().enumerate() {
        let correction = one_correction(scale, divisor, i64::from(*value));
        high[i] = correction.high;
        low[i] = correction.low;
        tenths[i] = correction.tenths;
    }
}

#[tactic(auto, unfolding(wide_words::specs::Words::words_from))]
fn one_correction(scale: i64, divisor: u64, a: i64) -> PairCorrection
    requires scale_bound { nat_abs scale ≤ 100 * most_denominator * most_misclosure }
    requires a_bound { nat_abs a ≤ most_reduced }
    ensures { result ≡ exact_correction (scale *ℤ a) divisor }
{
    let numerator = numerator_of(scale, a);
    let words = words_of_signed(numerator);
    let tenths = clamped_tenths(whole::rounded_quotient(numerator, divisor));
    PairCorrection {
        high: words.high,
        low: words.low,
        tenths,
    }
}

fn numerator_of(scale: i64, a: i64) -> i64
    requires scale_bound { nat_abs scale ≤ 100 * most_denominator * most_misclosure }
    requires a_bound { nat_abs a ≤ most_reduced }
    ensures { result ≡ scale *ℤ a }
{
    scale * a
}

// No correction counts as farther from 0: an angle that far from its observation is out of range either way.
const MOST_TENTHS: i64 = 1300000000;

#[tactic(auto, using(crate::proofs::CorrectionSteps::clamp_is))]
fn clamped_tenths(quotient: i64) -> i32
    ensures { result ≡ clamped quotient }
{
    quotient.clamp(-MOST_TENTHS, MOST_TENTHS) as i32
}

// With two. A loop of its own: one over a closure says of each call what it answers, in more lines than both loops have.
// The three slices are lent on, as in `one_into`.
fn two_into(
    factor: i64,
    factors: PairFactors,
    a: &[i32],
    b: &[i32],
    high: &mut [i64],
    low: &mut [u64],
    tenths: &mut [i32],
)
    requires b_len { length b.now ≡ length a.now }
    requires high_len { length high.old ≡ length a.now }
    requires low_len { length low.old ≡ length a.now }
    requires tenths_len { length tenths.old ≡ length a.now }
    ensures high_after { high.new ≡ listed (length a.now)
        (λ i. (pair_correction factor factors a.now b.now i).high) }
    ensures low_after { low.new ≡ listed (length a.now)
        (λ i. (pair_correction factor factors a.now b.now i).low) }
    ensures tenths_after { tenths.new ≡ listed (length a.now)
        (λ i. (pair_correction factor factors a.now b.now i).tenths) }
{
    for (i, value) in a.iter().enumerate() {
        let correction = pair_correction(factor, factors, i64::from(*value), i64::from(b[i]));
        high[i] = correction.high;
        low[i] = correction.low;
        tenths[i] = correction.tenths;
    }
}
