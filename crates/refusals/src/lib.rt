// The numbers given when a sheet is turned back, with their places, and the order in which an operation's tests are
// answered (document 01, "Numbers given when a sheet is turned back"). Places are counted from 1, as the paper counts
// angles, fixed angles and conditions.
#![tactic(auto)]

ghost use Rattle.std.specs.Prelude.{◌≡◌, [], ◌∷◌};
ghost use Rattle.refusals.specs.Numbers.{number_of, place_of};
ghost use Rattle.refusals.specs.Order.{answer_of};

mod units;

pub use units::{
    LEAST_ANGLE, LEAST_DIFFERENCE, LEAST_LOG_SINE, LEAST_ROUNDS, MOST_ANGLE, MOST_DIFFERENCE,
    MOST_LIMIT, MOST_LOG_SINE, MOST_ROUNDS, MOST_TOLERANCE,
};

// Why a sheet is turned back: a case for each row of the table, in its order, with the place where the table has one.
#[derive(Clone, Copy, Debug, PartialEq, Eq)]
pub enum Refusal {
    // 1: code and n name no figure.
    NoSuchFigure,
    // 2: a lent slice has not exactly its length.
    WrongLength,
    // 3: L or e outside range.
    LimitOrToleranceOutOfRange,
    // 4: angle outside range; the angle.
    AngleOutOfRange(usize),
    // 5: fixed angle outside range; its number.
    FixedAngleOutOfRange(usize),
    // 6: misclosure beyond ±L; the condition.
    MisclosureBeyondLimit(usize),
    // 7: corrected or adjusted angle outside range; the angle.
    ResultOutOfRange(usize),
    // 8: log-sine or difference outside range; the angle.
    SineEntryOutOfRange(usize),
    // 9: 100·W² exceeds e² times the sum of d².
    SineMisclosureBeyondTolerance,
    // 10: S is 0.
    SumOfSquaresIsZero,
    // 11: kind is none of the kinds.
    NoSuchKind,
    // 12: sheet too short or too long.
    WrongSheetLength,
    // 13: a filling bit is 1.
    FillingBitSet,
    // 14: the fixed angles do not sum to 180° (n = 3) or 360° (n = 4).
    FixedAnglesDoNotSum,
    // 15: an offered choice of whole tenths breaks a rule: one is not just below or just above, or a rest is not 0.
    ChoiceDoesNotClose,
    // 16: rounds outside range; the angle.
    RoundsOutOfRange(usize),
}

impl Refusal {
    // The table's number.
    pub fn number(self) -> u32
        ensures { result ≡ number_of self }
    {
        match self {
            Refusal::NoSuchFigure => 1,
            Refusal::WrongLength => 2,
            Refusal::LimitOrToleranceOutOfRange => 3,
            Refusal::AngleOutOfRange(_) => 4,
            Refusal::FixedAngleOutOfRange(_) => 5,
            Refusal::MisclosureBeyondLimit(_) => 6,
            Refusal::ResultOutOfRange(_) => 7,
            Refusal::SineEntryOutOfRange(_) => 8,
            Refusal::SineMisclosureBeyondTolerance => 9,
            Refusal::SumOfSquaresIsZero => 10,
            Refusal::NoSuchKind => 11,
            Refusal::WrongSheetLength => 12,
            Refusal::FillingBitSet => 13,
            Refusal::FixedAnglesDoNotSum => 14,
            Refusal::ChoiceDoesNotClose => 15,
            Refusal::RoundsOutOfRange(_) => 16,
        }
    }

    // The place, counted from 1, and 0 where the table has none.
    pub fn place(self) -> usize
        ensures { result ≡ place_of self }
    {
        match self {
            Refusal::AngleOutOfRange(place)
            | Refusal::FixedAngleOutOfRange(place)
            | Refusal::MisclosureBeyondLimit(place)
            | Refusal::ResultOutOfRange(place)
            | Refusal::SineEntryOutOfRange(place)
            | Refusal::RoundsOutOfRange(place) => place,
            Refusal::NoSuchFigure
            | Refusal::WrongLength
            | Refusal::LimitOrToleranceOutOfRange
            | Refusal::SineMisclosureBeyondTolerance
            | Refusal::SumOfSquaresIsZero
            | Refusal::NoSuchKind
            | Refusal::WrongSheetLength
            | Refusal::FillingBitSet
            | Refusal::FixedAnglesDoNotSum
            | Refusal::ChoiceDoesNotClose => 0,
        }
    }
}

// The answer of two tests in their order.
#[tactic(auto, unfolding(crate::specs::Order::answer_of))]
pub fn first_to_fail(
    earlier: Result<(), Refusal>,
    later: Result<(), Refusal>,
) -> Result<(), Refusal>
    ensures { result ≡ answer_of (earlier ∷ later ∷ []) }
{
    earlier.and(later)
}
