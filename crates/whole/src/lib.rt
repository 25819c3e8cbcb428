// Whole numbers: the magnitude of a signed number, the rounded quotient, and a hundredfold compared; and values copied over others.
// A cast by `as` stands where the library has no `From`, to a narrower type or to and from usize; each is proved to keep its value.
#![tactic(auto)]

ghost use Rattle.std.specs.Prelude.{◌≡◌, ◌≤◌, ◌*◌, length, ltb, nat_abs};
ghost use Rattle.whole.specs.Lists.{copied_over};
ghost use Rattle.whole.specs.Quotient.{with_sign, rounded_quotient};
ghost use Rattle.whole.specs.Quotient.{nearest as Quotient·nearest};

// How far z is from zero.
pub fn magnitude(z: i64) -> u64
    ensures { result ≡ nat_abs z }
{
    z.unsigned_abs()
}

// The whole number nearest to numerator / denominator, halves to the even one; 0 where the denominator is 0.
#[tactic(auto, using(crate::proofs::Quotient::nearest_within), unfolding(crate::specs::Quotient::rounded_quotient))]
pub fn rounded_quotient(numerator: i64, denominator: u64) -> i64
    ensures { result ≡ rounded_quotient numerator denominator }
{
    with_sign(numerator, nearest(numerator.unsigned_abs(), denominator))
}

// Twice the remainder may pass 64 bits, so it is compared with what it lacks of d; after an odd quotient a half counts as more.
#[tactic(auto, using(crate::proofs::Quotient::nearest_none, crate::proofs::Quotient::nearest_down, crate::proofs::Quotient::nearest_up))]
fn nearest(n: u64, d: u64) -> u64
    ensures { result ≡ Quotient·nearest n d }
{
    if d == 0 {
        return 0;
    }
    let quotient = n / d;
    let remainder = n % d;
    if d - remainder < remainder + quotient % 2 {
        quotient + 1
    } else {
        quotient
    }
}

// A magnitude no greater than that of the number, with the number's sign.
fn with_sign(number: i64, size: u64) -> i64
    requires { size ≤ nat_abs number }
    ensures { result ≡ with_sign number size }
{
    let size = i128::from(size);
    if number < 0 {
        (-size) as i64
    } else {
        size as i64
    }
}

// 100·a is more than most, also where 100·a passes 64 bits.
pub fn hundredfold_exceeds(a: u64, most: u64) -> bool
    ensures { result ≡ ltb most (100 * a) }
{
    u128::from(most) < 100 * u128::from(a)
}

// Copies as many values as are lent, where the lengths are the same.
pub fn copy_over<T: Copy>(values: &[T], lent: &mut [T])
    ensures { lent.new ≡ copied_over values.now lent.old }
{
    if values.len() == lent.len() {
        copy_all(values, lent);
    }
}

// By a loop, since the library's copy_from_slice wants `memmove` from whoever links the archive.
fn copy_all<T: Copy>(values: &[T], lent: &mut [T])
    requires { length lent.old ≡ length values.now }
    ensures { lent.new ≡ values.now }
{
    for (i, value) in values.iter().enumerate() {
        lent[i] = *value;
    }
}
