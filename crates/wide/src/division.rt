// Quotients of sizes, by words: the language's division of 128-bit numbers would want a function of the compiler's own library from
// whoever links the archive. Each turn takes off as many times the divisor as the leading 64 bits of what is left show, so that a quotient
// of few bits takes a turn or two.
ghost use Rattle.std.specs.Prelude.{◌≡◌, ◌+◌, ◌*◌, ◌/◌, ◌^◌, ◌≤◌, ◌<◌, ltb};
ghost use Rattle.whole.specs.Quotient.{nearest as Quotient·nearest};
ghost use Rattle.wide.specs.Wide.{radix};

// How many numbers a word can hold.
const RADIX: u128 = 18446744073709551616;

// A quotient, and what it leaves.
#[derive(Clone, Copy)]
struct Division {
    quotient: u128,
    remainder: u128,
}

// Beside the `nearest` of `whole`, since a trait with the operations of both widths is longer than this; 64 bits there are for speed. Twice
// the remainder may pass 128 bits, so it is compared with what it lacks of d; after an odd quotient a half counts as more.
#[tactic(auto, using(whole::proofs::Quotient::nearest_none, crate::proofs::Divisions::rounded_down, crate::proofs::Divisions::rounded_up))]
pub(crate) fn nearest(n: u128, d: u128) -> u128
    ensures { result ≡ Quotient·nearest n d }
{
    if d == 0 {
        return 0;
    }
    let Division {
        quotient,
        remainder,
    } = divided(n, d);
    if d - remainder < remainder + quotient % 2 {
        quotient + 1
    } else {
        quotient
    }
}

// The quotient by a word may pass one word: its high word is that of the high words.
fn divided(n: u128, d: u128) -> Division
    requires { 0 < d }
    ensures whole { result.quotient * d + result.remainder ≡ n }
    ensures short { result.remainder < d }
{
    let high = high_quotient(n, d);
    let word = word_divided(n - high * d, d);
    Division {
        quotient: high + word.quotient,
        remainder: word.remainder,
    }
}

// How often 2^64 times the divisor goes into n, times 2^64.
#[tactic(auto, using(crate::proofs::Divisions::high_within, crate::proofs::Divisions::high_left, crate::proofs::Divisions::high_none))]
fn high_quotient(n: u128, d: u128) -> u128
    requires { 0 < d }
    ensures within { result * d ≤ n }
    ensures left { n < result * d + radix * d }
{
    if is_word(d) {
        raised(high_word(n) / word_of(d))
    } else {
        0
    }
}

#[tactic(auto, unfolding(crate::specs::Wide::radix))]
fn is_word(n: u128) -> bool
    ensures { result ≡ ltb n radix }
{
    n < RADIX
}

#[tactic(auto, unfolding(crate::specs::Wide::radix))]
fn high_word(n: u128) -> u64
    ensures { result ≡ n / radix }
{
    (n / RADIX) as u64
}

#[tactic(auto, unfolding(crate::specs::Wide::radix))]
fn raised(word: u64) -> u128
    ensures { result ≡ word * radix }
{
    u128::from(word) * RADIX
}

#[tactic(auto, unfolding(crate::specs::Wide::radix))]
fn word_of(n: u128) -> u64
    requires { n < radix }
    ensures { result ≡ n }
{
    n as u64
}

#[tactic(auto, using(crate::proofs::Divisions::divisor_some, crate::proofs::Divisions::turn_fits, crate::proofs::Divisions::turn_smaller))]
fn word_divided(n: u128, d: u128) -> Division
    requires { n < radix * d }
    ensures whole { result.quotient * d + result.remainder ≡ n }
    ensures short { result.remainder < d }
{
    let mut quotient = 0;
    let mut remainder = n;
    while d <= remainder {
        let times = u128::from(times_at_least(remainder, d));
        remainder -= times * d;
        quotient += times;
    }
    Division {
        quotient,
        remainder,
    }
}

// How often, once or more, d goes into n at least, as the leading 64 bits of n and what stands in the same places of d show it. What d has
// below those places counts as one more in the last of them, so that it is never too often.
#[tactic(auto, using(crate::proofs::Divisions::times_some, crate::proofs::Divisions::times_within, crate::proofs::Divisions::quotient_some))]
fn times_at_least(n: u128, d: u128) -> u64
    requires some { 0 < d }
    requires within { d ≤ n }
    ensures some { 0 < result }
    ensures within { result * d ≤ n }
{
    if is_word(n) {
        return word_of(n) / word_of(d);
    }
    let places = places_above_a_word(n);
    let upper = top_word(n, places);
    let lower = top_word(d, places);
    if lower < upper {
        upper / (lower + 1)
    } else {
        1
    }
}

// By how many places n is to be moved down so that 64 bits are left of it.
#[tactic(auto, using(crate::proofs::Divisions::few_places, crate::proofs::Divisions::word_left))]
fn places_above_a_word(n: u128) -> u32
    requires { radix ≤ n }
    ensures few { result ≤ 64 }
    ensures word { n < 2 ^ (64 + result) }
{
    64 - n.leading_zeros()
}

#[tactic(auto, using(crate::proofs::Divisions::word_fits))]
fn top_word(n: u128, places: u32) -> u64
    requires few { places ≤ 64 }
    requires word { n < 2 ^ (64 + places) }
    ensures { result ≡ n / 2 ^ places }
{
    (n >> places) as u64
}
