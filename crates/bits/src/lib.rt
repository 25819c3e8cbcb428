// Fields of bits in bytes, most significant bit first: document 01, "Packed sheets". Every public function answers every input, as
// specs/Bits.antt says.
// A cast by `as` stands where the library has no `From`, to a narrower type or to and from usize; each is proved to keep its value.
// What several functions require of a value, its length or its range, stays a premise of each: the values are slices that callers lend,
// and a type that holds them would be built and taken apart at each of these calls.
#![tactic(auto)]

ghost use Rattle.std.specs.Prelude.{◌≡◌, ◌+◌, ◌*◌, ◌/◌, ◌%◌, ◌^◌, ◌≤◌, ◌<◌, length, take, drop, set};
ghost use Rattle.bits.specs.Bits.{odd, bits, value, bits_of, inside, field_at, with_field};

mod signed_fields;

pub use signed_fields::{signed, twos_complement};

// The widest field, and the widest two's complement.
const WIDEST: u32 = 32;

// As many bytes as a u64 holds, taken at once where so many are left: no field straddles more than five.
const WINDOW: usize = 8;

// What a field holds, and 0 where it is not wholly within the bytes, or is wider than 32 bits.
#[tactic(auto, using(crate::proofs::Fields::field_at_empty, crate::proofs::Fields::field_at_outside, crate::proofs::Fields::inside_wide, crate::proofs::Fields::inside_within))]
pub fn field(bytes: &[u8], at: usize, width: u32) -> u32
    ensures { result ≡ field_at bytes.now at width }
{
    // A field of no bits may leave all 64 of a window below it, and no shift goes so far.
    if width == 0 {
        return 0;
    }
    if width > WIDEST {
        return 0;
    }
    let first = at / 8;
    let end = (at % 8) as u32 + width;
    if first + WINDOW <= bytes.len() {
        return part(window(bytes, first), 64 - end, width);
    }
    if !is_inside(bytes, at, width) {
        return 0;
    }
    let spanned = (end + 7) / 8;
    let number = number_of(&bytes[first..first + spanned as usize]);
    part(number, 8 * spanned - end, width)
}

// Writes the last bits of `value` into a field. Nothing changes where the field is not wholly
// within the bytes, or is wider than 32 bits.
#[tactic(auto, using(crate::proofs::Fields::with_field_outside, crate::proofs::Fields::inside_within, crate::proofs::Fields::inside_narrow))]
pub fn put_field(bytes: &mut [u8], at: usize, width: u32, value: u32)
    ensures { bytes.new ≡ with_field bytes.old at width value }
{
    if !is_inside(bytes, at, width) {
        return;
    }
    let mut rest = value;
    for place in (0..width).rev() {
        put_bit(bytes, at, place, rest % 2);
        rest = rest / 2;
    }
}

// A field lies wholly within the bytes, and is no wider than it may be. Whole bytes are compared,
// since the end of a field, in bits, may be no number of a usize.
#[tactic(auto, using(crate::proofs::Fields::spanned_inside, crate::proofs::Fields::inside_past, crate::proofs::Fields::inside_wide))]
fn is_inside(bytes: &[u8], at: usize, width: u32) -> bool
    ensures { result ≡ inside bytes.now at width }
{
    if width > WIDEST {
        return false;
    }
    let first = at / 8;
    if first > bytes.len() {
        return false;
    }
    let spanned = (at % 8 + width as usize + 7) / 8;
    spanned <= bytes.len() - first
}

// Eight bytes as one number. Without a loop, so that they are one read of memory.
fn window(bytes: &[u8], first: usize) -> u64
    requires { first + 8 ≤ length bytes.now }
    ensures { result ≡ value (bits_of (take 8 (drop first bytes.now))) }
{
    let mut eight = [0; WINDOW];
    eight.copy_from_slice(&bytes[first..first + WINDOW]);
    u64::from_be_bytes(eight)
}

// As many bytes as a field can straddle, or fewer, as one number.
#[tactic(auto, using(crate::proofs::Runs::taken_none, crate::proofs::Runs::taken_more, crate::proofs::Runs::taken_short))]
fn number_of(bytes: &[u8]) -> u64
    requires { length bytes.now ≤ 5 }
    ensures { result ≡ value (bits_of bytes.now) }
{
    let mut held = 0;
    for byte in bytes {
        held = held * 256 + u64::from(*byte);
    }
    held
}

// The bits of a number before its last `below` ones, `width` of them.
fn part(number: u64, below: u32, width: u32) -> u32
    requires below_bound { below < 64 }
    requires width_bound { width ≤ 32 }
    ensures { result ≡ number / 2 ^ below % 2 ^ width }
{
    (number / power_of_two(below) % power_of_two(width)) as u32
}

// Writes the bit that is `further` bits after a position.
#[tactic(auto, using(crate::proofs::Places::set_further))]
fn put_bit(bytes: &mut [u8], at: usize, further: u32, bit: u32)
    requires further_bound { at + further < 8 * length bytes.old }
    requires further_bound_2 { further < 32 }
    requires bit_bound { bit < 2 }
    ensures { bits_of bytes.new ≡ set (bits_of bytes.old) (at + further) (odd bit) }
{
    let place = at % 8 + further as usize;
    let index = at / 8 + place / 8;
    bytes[index] = with_bit(bytes[index], (place % 8) as u32, bit);
}

// A byte with another bit at a place.
#[tactic(auto, using(crate::proofs::Places::byte_with_bit, crate::proofs::Places::byte_with_bit_lt, crate::proofs::Places::power_pos))]
fn with_bit(byte: u8, place: u32, bit: u32) -> u8
    requires place_bound { place < 8 }
    requires bit_bound { bit < 2 }
    ensures { bits 8 result ≡ set (bits 8 byte) place (odd bit) }
{
    let counts = power_of_two(7 - place);
    let above = u64::from(byte) / counts / 2;
    let below = u64::from(byte) % counts;
    ((above * 2 + u64::from(bit)) * counts + below) as u8
}

fn power_of_two(exponent: u32) -> u64
    requires { exponent < 64 }
    ensures { result ≡ 2 ^ exponent }
{
    1 << exponent
}
