// Whole numbers wider than 64 bits, as a sign and a size of 128 bits. Every function answers every input, and its promise speaks of the
// numbers that the pairs are worth; where the size of a result has no room in 128 bits, it is 0, as `held` of specs/Wide.antt says.
#![tactic(auto)]

ghost use Rattle.std.specs.Prelude.{◌≡◌, ◌≤◌, ◌+◌, ◌*◌, not, eqb, pos, neg_ℤ, nat_abs, ◌+ℤ◌, ◌-ℤ◌, ◌*ℤ◌};
ghost use Rattle.std.specs.Int.Signed.{lt_z};
ghost use Rattle.whole.specs.Quotient.{rounded_quotient};
ghost use Rattle.wide.specs.Wide.{signed, value_of, held, held_size, narrowed};

mod division;

use division::nearest;

// A number below zero, or not, of this size. Of the two ways to write 0 neither is wrong. A signed number of 128 bits would not do: `held`
// of specs/Wide.antt has room for sizes up to 2^128.
#[derive(Clone, Copy)]
pub struct Wide {
    pub negative: bool,
    pub size: u128,
}

// A number of 64 bits.
#[tactic(auto, using(crate::proofs::Signs::signed_own), unfolding(crate::specs::Wide::value_of))]
pub fn wide_of(a: i64) -> Wide
    ensures { value_of result ≡ a }
{
    Wide {
        negative: a < 0,
        size: u128::from(a.unsigned_abs()),
    }
}

// The product of two numbers of 64 bits, which 128 bits always hold.
#[tactic(auto, using(crate::proofs::Signs::signed_product_own), unfolding(crate::specs::Wide::value_of))]
pub fn product(a: i64, b: i64) -> Wide
    ensures { value_of result ≡ a *ℤ b }
{
    Wide {
        negative: (a < 0) != (b < 0),
        size: u128::from(a.unsigned_abs()) * u128::from(b.unsigned_abs()),
    }
}

#[tactic(auto, using(crate::proofs::Signs::held_product), unfolding(crate::specs::Wide::value_of))]
pub fn scaled(a: Wide, factor: i64) -> Wide
    ensures { value_of result ≡ held (value_of a *ℤ factor) }
{
    Wide {
        negative: a.negative != (factor < 0),
        size: size_scaled(a.size, factor.unsigned_abs()),
    }
}

#[tactic(auto, using(crate::proofs::Sizes::held_by))]
fn size_scaled(size: u128, factor: u64) -> u128
    ensures { result ≡ held_size (size * factor) }
{
    size.checked_mul(u128::from(factor)).unwrap_or(0)
}

#[tactic(auto, using(crate::proofs::Signs::signed_not), unfolding(crate::specs::Wide::value_of))]
pub fn negated(a: Wide) -> Wide
    ensures { value_of result ≡ neg_ℤ (value_of a) }
{
    Wide {
        negative: !a.negative,
        size: a.size,
    }
}

#[tactic(auto, using(crate::proofs::Signs::sum_along, crate::proofs::Signs::other_sign), unfolding(crate::specs::Wide::value_of))]
pub fn sum(a: Wide, b: Wide) -> Wide
    ensures { value_of result ≡ held (value_of a +ℤ value_of b) }
{
    if a.negative == b.negative {
        Wide {
            negative: a.negative,
            size: sizes_sum(a.size, b.size),
        }
    } else if a.size < b.size {
        left(b.negative, b.size, a.size)
    } else {
        left(a.negative, a.size, b.size)
    }
}

#[tactic(auto, using(crate::proofs::Sizes::held_by))]
fn sizes_sum(a: u128, b: u128) -> u128
    ensures { result ≡ held_size (a + b) }
{
    a.checked_add(b).unwrap_or(0)
}

// Of two signs the larger size keeps its own, and loses the other.
#[tactic(auto, using(crate::proofs::Signs::sum_across, crate::proofs::Signs::sum_across_turned), unfolding(crate::specs::Wide::value_of))]
fn left(negative: bool, larger: u128, smaller: u128) -> Wide
    requires { smaller ≤ larger }
    ensures value { value_of result ≡ held (signed negative larger +ℤ signed (not negative) smaller) }
    ensures turned { value_of result ≡ held (signed (not negative) smaller +ℤ signed negative larger) }
{
    Wide {
        negative,
        size: larger - smaller,
    }
}

pub fn difference(a: Wide, b: Wide) -> Wide
    ensures { value_of result ≡ held (value_of a -ℤ value_of b) }
{
    sum(a, negated(b))
}

#[tactic(auto, using(crate::proofs::Signs::signed_size), unfolding(crate::specs::Wide::value_of))]
pub fn is_zero(a: Wide) -> bool
    ensures { result ≡ eqb (nat_abs (value_of a)) 0 }
{
    a.size == 0
}

// Below zero: a 0 that is marked so is not.
#[tactic(auto, using(crate::proofs::Signs::negative_marked, crate::proofs::Signs::negative_unmarked), unfolding(crate::specs::Wide::value_of))]
pub fn is_negative(a: Wide) -> bool
    ensures { result ≡ lt_z (value_of a) (pos 0) }
{
    a.negative && a.size != 0
}

#[tactic(auto, using(crate::proofs::Signs::less_plain, crate::proofs::Signs::less_turned, crate::proofs::Signs::less_none, crate::proofs::Signs::less_across, crate::proofs::Signs::less_never), unfolding(crate::specs::Wide::value_of))]
pub fn less(a: Wide, b: Wide) -> bool
    ensures { result ≡ lt_z (value_of a) (value_of b) }
{
    match (a.negative, b.negative) {
        (false, false) => a.size < b.size,
        (false, true) => false,
        (true, false) => a.size != 0 || b.size != 0,
        (true, true) => b.size < a.size,
    }
}

// The whole number nearest to numerator / denominator, halves to the even one; 0 where the denominator is 0.
#[tactic(auto, using(crate::proofs::Signs::signed_rounded), unfolding(crate::specs::Wide::value_of))]
pub fn rounded_quotient(numerator: Wide, denominator: u128) -> Wide
    ensures { value_of result ≡ rounded_quotient (value_of numerator) denominator }
{
    Wide {
        negative: numerator.negative,
        size: nearest(numerator.size, denominator),
    }
}

// The number as one word with a sign; 0 where that cannot hold it.
#[tactic(auto, using(crate::proofs::Narrowing::narrowed_wide), unfolding(crate::specs::Wide::value_of))]
pub fn narrow(a: Wide) -> i64
    ensures { result ≡ narrowed (value_of a) }
{
    match u64::try_from(a.size) {
        Ok(size) => narrow_word(a.negative, size),
        Err(_) => 0,
    }
}

// As `signed_size` of `wide_words` does with 128 bits: a trait for the two methods of the language would be longer than both.
#[tactic(auto, using(crate::proofs::Narrowing::above_by, crate::proofs::Narrowing::below_by))]
fn narrow_word(negative: bool, size: u64) -> i64
    ensures { result ≡ narrowed (signed negative size) }
{
    if negative {
        0i64.checked_sub_unsigned(size).unwrap_or(0)
    } else {
        0i64.checked_add_unsigned(size).unwrap_or(0)
    }
}
