// Two's complement of a given width: document 01, "Packed sheets", kind 2. Every public function answers every input, as
// specs/Complement.antt says.
// A cast by `as` stands where the library has no `From`, to a narrower type or to and from usize; each is proved to keep its value.
ghost use Rattle.std.specs.Prelude.{◌≡◌};
ghost use Rattle.std.specs.Int.Signed.{mag};
ghost use Rattle.bits.specs.Complement.{half_range, signed_of, twos_complement};

use crate::WIDEST;

// The number that `value` stands for in two's complement of a width, and 0 where the width is not
// from 1 to 32, or `value` has more bits.
#[tactic(auto, using(crate::proofs::Complement::half_small, crate::proofs::Complement::signed_low, crate::proofs::Complement::signed_high, crate::proofs::Complement::signed_beyond))]
pub fn signed(value: u32, width: u32) -> i32
    ensures { result ≡ signed_of width value }
{
    let negative_from = half_range(width);
    if value < negative_from {
        return value as i32;
    }
    let past = value - negative_from;
    if past >= negative_from {
        return 0;
    }
    // Counted down from -1, since the lowest number has no positive one of its size.
    let below = negative_from - 1 - past;
    -1 - below as i32
}

// What stands for `value` in two's complement of a width, and 0 where the width is not from 1 to
// 32, or does not hold `value`.
#[tactic(auto, using(crate::proofs::Complement::half_small, crate::proofs::Complement::complement_above, crate::proofs::Complement::complement_below, crate::proofs::Complement::complement_beyond))]
pub fn twos_complement(value: i32, width: u32) -> u32
    ensures { result ≡ twos_complement width value }
{
    let half = half_range(width);
    let steps = steps_to(value);
    if steps >= half {
        return 0;
    }
    if value >= 0 {
        steps
    } else {
        half - 1 - steps + half
    }
}

// How far a number lies from 0, or from -1 where it is negative, as in `signed`. Both signs are one case of what follows, since no
// processor foretells the signs of differences.
fn steps_to(value: i32) -> u32
    ensures { result ≡ mag value }
{
    if value >= 0 {
        value as u32
    } else {
        (-1 - value) as u32
    }
}

// How many numbers of a width are negative, and as many are not. No width but 1 to 32 has any, so
// that no number passes the tests of the two functions above.
#[tactic(auto, using(crate::proofs::Complement::half_none, crate::proofs::Complement::half_wide, crate::proofs::Complement::half_shifted))]
fn half_range(width: u32) -> u32
    ensures { result ≡ half_range width }
{
    if width == 0 {
        return 0;
    }
    if width > WIDEST {
        return 0;
    }
    1 << (width - 1)
}
