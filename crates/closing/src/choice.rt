// The choice: document 02, M-104. The directions are rounded downwards, not the angles.
// A cast by `as` stands where the library has no `From`, to a narrower type or to and from usize; each is proved to keep its value.
ghost use Rattle.std.specs.Prelude.{◌≡◌, ◌<◌, length};
ghost use Rattle.whole.specs.Lists.{listed};
ghost use Rattle.whole.specs.Sums.{vector};
ghost use Rattle.figures.specs.Figure.{denominator, angle_count};
ghost use Rattle.pass_steps.specs.Premises.{Within};
ghost use Rattle.closing.specs.Choice.{chosen};
ghost use Rattle.closing.specs.Premises.{most_numerator};

use crate::directions::{floor_quotient, start_of};
use figures::Figure;

// From the numerators the corrections of all angles.
pub(crate) fn choice_into(figure: Figure, divisor: u32, numerators: &[i32], corrections: &mut [i32])
    requires divisor_value { divisor ≡ denominator figure }
    requires numerators_len { length numerators.now ≡ angle_count figure }
    requires corrections_len { length corrections.old ≡ angle_count figure }
    requires within { Within most_numerator numerators.now }
    ensures { corrections.new ≡ listed (angle_count figure) (chosen figure (vector numerators.now)) }
{
    for (i, correction) in corrections.iter_mut().enumerate() {
        *correction = choice_at(figure, divisor, numerators, i);
    }
}

// The difference of where the angle ends and where it starts, each rounded downwards.
fn choice_at(figure: Figure, divisor: u32, numerators: &[i32], i: usize) -> i32
    requires divisor_value { divisor ≡ denominator figure }
    requires numerators_len { length numerators.now ≡ angle_count figure }
    requires i_bound { i < angle_count figure }
    requires within { Within most_numerator numerators.now }
    ensures { result ≡ chosen figure (vector numerators.now) i }
{
    let start = start_of(figure, numerators, i);
    let end = i64::from(numerators[i]) + start;
    let from = floor_quotient(start, divisor);
    let to = floor_quotient(end, divisor);
    (to - from) as i32
}
