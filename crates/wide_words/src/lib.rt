// Wide numbers as two words in two's complement, as a caller from C has them: high·2^64 + low, the high word with a sign. Every function
// answers every input; a number that two such words do not hold is answered as 0, as `reached` of specs/Words.antt says.
// A cast by `as` stands where the library has no `From`, to a narrower type or to and from usize; each is proved to keep its value.
#![tactic(auto)]

ghost use Rattle.std.specs.Prelude.{◌≡◌};
ghost use Rattle.wide.specs.Wide.{signed, value_of};
ghost use Rattle.wide_words.specs.Words.{joined, reached, words_from};

use wide::Wide;

// How many numbers a word can hold.
const RADIX: i128 = 18446744073709551616;

// The number high·2^64 + low: two words, since C has no number of 128 bits.
#[derive(Clone, Copy)]
pub struct Words {
    pub high: i64,
    pub low: u64,
}

#[tactic(auto, unfolding(wide::specs::Wide::value_of))]
pub fn words_of(a: Wide) -> Words
    ensures { result ≡ words_from (reached (value_of a)) }
{
    in_words(signed_size(a.negative, a.size))
}

#[tactic(auto, using(crate::proofs::Reaching::above_by, crate::proofs::Reaching::below_by))]
fn signed_size(negative: bool, size: u128) -> i128
    ensures { result ≡ reached (signed negative size) }
{
    if negative {
        0i128.checked_sub_unsigned(size).unwrap_or(0)
    } else {
        0i128.checked_add_unsigned(size).unwrap_or(0)
    }
}

#[tactic(auto, unfolding(crate::specs::Words::words_from), using(crate::proofs::Joining::high_word_is, crate::proofs::Joining::low_word_is))]
fn in_words(number: i128) -> Words
    ensures { result ≡ words_from number }
{
    Words {
        high: number.div_euclid(RADIX) as i64,
        low: number.rem_euclid(RADIX) as u64,
    }
}

#[tactic(auto, using(crate::proofs::Joining::value_own))]
pub fn wide_from(high: i64, low: u64) -> Wide
    ensures { value_of result ≡ joined high low }
{
    let number = joined(high, low);
    Wide {
        negative: number < 0,
        size: number.unsigned_abs(),
    }
}

#[tactic(auto, unfolding(crate::specs::Words::joined, wide::specs::Wide::radix))]
fn joined(high: i64, low: u64) -> i128
    ensures { result ≡ joined high low }
{
    i128::from(high) * RADIX + i128::from(low)
}

// A number of 64 bits, whose high word only repeats the sign.
pub fn words_of_signed(a: i64) -> Words
    ensures { result ≡ words_from a }
{
    in_words(i128::from(a))
}
