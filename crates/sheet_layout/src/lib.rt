// The layout of packed sheets: document 01, "Packed sheets". Which fields a sheet has is the definition `layout` of specs/Layout.antt; what
// the numbers of its head name stands in specs/Head.antt.
// A cast by `as` stands where the library has no `From`, to a narrower type or to and from usize; each is proved to keep its value.
#![tactic(auto)]

ghost use Rattle.std.specs.Prelude.{◌≡◌};
ghost use Rattle.sheet_layout.specs.Kinds.{carries_rounds};
ghost use Rattle.sheet_layout.specs.Layout.{rounds_bits, lengths_of, bit_count, sheet_size};

mod head;
mod kinds;

use figure_tables::counts_of;
use figures::Figure;
pub use head::{SheetHead, look_at, named_head};
pub use kinds::{carries_rounds, default_of, number_of_kind, pass_of};

// The pass that a kind of sheet is for, and so which values it holds.
#[derive(Clone, Copy, Debug, PartialEq, Eq)]
pub enum Pass {
    First,
    Second,
}

// Kind 1, kind 2 and so on.
#[derive(Clone, Copy, Debug, PartialEq, Eq)]
pub enum Kind {
    One,
    Two,
    Three,
    Four,
    Five,
}

// What a kind is; `default` is what L or e of 0 stands for in it, `rounds` whether each observed angle has its rounds after it.
#[derive(Clone, Copy)]
pub struct KindRow {
    pub number: u32,
    pub pass: Pass,
    pub default: u32,
    pub rounds: bool,
}

// How many values of each sort.
#[derive(Clone, Copy)]
pub struct Lengths {
    pub angles: usize,
    pub rounds: usize,
    pub fixed: usize,
    pub log_sines: usize,
    pub differences: usize,
    pub log_sides: usize,
}

// The widths of the fields, in bits.
pub const KIND_WIDTH: u32 = 4;

pub const CODE_WIDTH: u32 = 4;

pub const N_WIDTH: u32 = 4;

pub const LIMIT_WIDTH: u32 = 10;

pub const TOLERANCE_WIDTH: u32 = 6;

pub const ANGLE_WIDTH: u32 = 23;

pub const ROUNDS_WIDTH: u32 = 8;

pub const LOG_SINE_WIDTH: u32 = 27;

pub const DIFFERENCE_WIDTH: u32 = 15;

pub const LOG_SIDE_WIDTH: u32 = 27;

// Where the fields of the head begin, and L or e after them.
pub const CODE_AT: usize = KIND_WIDTH as usize;

pub const N_AT: usize = CODE_AT + CODE_WIDTH as usize;

pub const LIMIT_OR_TOLERANCE_AT: usize = N_AT + N_WIDTH as usize;

// Where the body begins: for the first pass with the first angle, for the second with the first known log side, if the figure has any.
pub const FIRST_PASS_BODY_AT: usize = LIMIT_OR_TOLERANCE_AT + LIMIT_WIDTH as usize;

pub const SECOND_PASS_BODY_AT: usize = LIMIT_OR_TOLERANCE_AT + TOLERANCE_WIDTH as usize;

// A known log side's bits in the body, and an angle's without its rounds: the angle, and for the second pass its log-sine and difference
// too.
pub const LOG_SIDE_STEP: usize = LOG_SIDE_WIDTH as usize;

pub const FIRST_PASS_STEP: usize = ANGLE_WIDTH as usize;

pub const SECOND_PASS_STEP: usize = FIRST_PASS_STEP
    + LOG_SINE_WIDTH as usize
    + DIFFERENCE_WIDTH as usize;

// How many values of each sort a sheet has, and so how long each slice of values is. Every angle has its rounds: one where the kind does
// not carry them.
// Kind and figure stay two arguments, here and where a column is asked, as the definition of the same name takes them.
pub fn lengths_of(kind: Kind, figure: Figure) -> Lengths
    ensures { result ≡ lengths_of kind figure }
{
    let counts = counts_of(figure);
    match pass_of(kind) {
        Pass::First => Lengths {
            angles: counts.angles,
            rounds: counts.angles,
            fixed: counts.fixed,
            log_sines: 0,
            differences: 0,
            log_sides: 0,
        },
        Pass::Second => Lengths {
            angles: counts.angles,
            rounds: counts.angles,
            fixed: 0,
            log_sines: counts.angles,
            differences: counts.angles,
            log_sides: counts.sides,
        },
    }
}

// The bits of an observed angle's rounds, right after the angle: none where the kind does not carry them.
pub fn rounds_step(kind: Kind) -> usize
    ensures { result ≡ rounds_bits (carries_rounds kind) }
{
    if carries_rounds(kind) {
        ROUNDS_WIDTH as usize
    } else {
        0
    }
}

// How many bits the fields take, without the filling.
pub fn bit_count(kind: Kind, figure: Figure) -> usize
    ensures { result ≡ bit_count kind figure }
{
    let counts = counts_of(figure);
    let rounds = rounds_step(kind) * counts.angles;
    match pass_of(kind) {
        Pass::First => {
            FIRST_PASS_BODY_AT + FIRST_PASS_STEP * (counts.angles + counts.fixed) + rounds
        }
        Pass::Second => {
            SECOND_PASS_BODY_AT
                + LOG_SIDE_STEP * counts.sides
                + SECOND_PASS_STEP * counts.angles
                + rounds
        }
    }
}

// How many bytes a sheet has.
#[tactic(auto, unfolding(crate::specs::Layout::sheet_size, bits::specs::Bits::byte_count))]
pub fn sheet_size(kind: Kind, figure: Figure) -> usize
    ensures { result ≡ sheet_size kind figure }
{
    bit_count(kind, figure).div_ceil(8)
}
