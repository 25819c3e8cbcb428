// Two sine conditions together: document 02, M-100. From the sums of products [AA], [AB], [BB] and the misclosures Wa, Wb: what an angle's
// A and B are multiplied by, the determinant, and the correction of an angle. Every function answers every input.
// A cast by `as` stands where the library has no `From`, to a narrower type or to and from usize; each is proved to keep its value.
#![tactic(auto)]

ghost use Rattle.std.specs.Prelude.{◌≡◌, pos, nat_abs, ◌-ℤ◌, ◌*ℤ◌};
ghost use Rattle.wide.specs.Wide.{value_of};
ghost use Rattle.pass_pair.specs.Pair.{first_factor, second_factor, held_numerator, correction_from, clamped, clamped_size};
ghost use Rattle.pass_pair.specs.Pair.{determinant as Pair·determinant};

use wide::Wide;

// No correction counts as farther from 0, in tenths: an angle that far from its observation is out of range either way.
const MOST_TENTHS: u128 = 1300000000;

// [AA], [AB], [BB], Wa and Wb.
#[derive(Clone, Copy)]
pub struct Pair {
    pub aa: i64,
    pub ab: i64,
    pub bb: i64,
    pub wa: i64,
    pub wb: i64,
}

// What A and B are multiplied by, and the determinant.
#[derive(Clone, Copy)]
pub struct PairFactors {
    pub first: Wide,
    pub second: Wide,
    pub determinant: Wide,
}

// An angle's exact numerator, in two words as the C interface has it, and its correction in tenths.
#[derive(Clone, Copy)]
pub struct PairCorrection {
    pub high: i64,
    pub low: u64,
    pub tenths: i32,
}

pub fn pair_factors(pair: Pair) -> PairFactors
    ensures first_value { value_of result.first ≡ first_factor pair.ab pair.bb pair.wa pair.wb }
    ensures second_value { value_of result.second ≡ second_factor pair.aa pair.ab pair.wa pair.wb }
    ensures determinant_value { value_of result.determinant ≡ Pair·determinant pair.aa pair.ab pair.bb }
{
    let first = products_difference(pair.bb, pair.wa, pair.ab, pair.wb);
    let second = products_difference(pair.aa, pair.wb, pair.ab, pair.wa);
    let determinant = products_difference(pair.aa, pair.bb, pair.ab, pair.ab);
    PairFactors {
        first,
        second,
        determinant,
    }
}

// a·b − c·d, which 128 bits always hold.
#[tactic(auto, using(crate::proofs::Exact::difference_stays))]
fn products_difference(a: i64, b: i64, c: i64, d: i64) -> Wide
    ensures { value_of result ≡ a *ℤ b -ℤ c *ℤ d }
{
    wide::difference(wide::product(a, b), wide::product(c, d))
}

// The correction of an angle with the reduced coefficients a and b; the factor is −100·D.
pub fn pair_correction(factor: i64, factors: PairFactors, a: i64, b: i64) -> PairCorrection
    ensures { result
        ≡ correction_from (held_numerator factor (value_of factors.first) (value_of factors.second) a b)
        (nat_abs (value_of factors.determinant)) }
{
    correction_from(numerator(factor, factors, a, b), factors.determinant.size)
}

#[tactic(auto, unfolding(crate::specs::Pair::held_numerator))]
fn numerator(factor: i64, factors: PairFactors, a: i64, b: i64) -> Wide
    ensures { value_of result ≡ held_numerator factor (value_of factors.first) (value_of factors.second) a b }
{
    let share = wide::sum(
        wide::scaled(factors.first, a),
        wide::scaled(factors.second, b),
    );
    wide::scaled(share, factor)
}

#[tactic(auto, unfolding(crate::specs::Pair::correction_from, wide_words::specs::Words::words_from))]
fn correction_from(numerator: Wide, divisor: u128) -> PairCorrection
    ensures { result ≡ correction_from (value_of numerator) divisor }
{
    let words = wide_words::words_of(numerator);
    PairCorrection {
        high: words.high,
        low: words.low,
        tenths: clamped_tenths(wide::rounded_quotient(numerator, divisor)),
    }
}

// Of a wide number by its size; `clamped_tenths` of `pass_second` is of a word, by the language's `clamp`.
#[tactic(auto, using(crate::proofs::Clamping::clamped_above, crate::proofs::Clamping::clamped_below), unfolding(wide::specs::Wide::value_of))]
fn clamped_tenths(quotient: Wide) -> i32
    ensures { result ≡ clamped (value_of quotient) }
{
    let size = clamped_size(quotient.size);
    if quotient.negative { -size } else { size }
}

#[tactic(auto, using(crate::proofs::Clamping::size_small, crate::proofs::Clamping::size_large))]
fn clamped_size(size: u128) -> i32
    ensures { result ≡ pos (clamped_size size) }
{
    size.min(MOST_TENTHS) as i32
}
