// The misclosures of the first pass: document 01, "The two passes". Conditions are used by their indices, counted from 0.
// A cast by `as` stands where the library has no `From`, to a narrower type or to and from usize; each is proved to keep its value.
ghost use Rattle.std.specs.Prelude.{◌≡◌, suc, ◌<◌, ◌-ℤ◌, length};
ghost use Rattle.whole.specs.Lists.{listed};
ghost use Rattle.whole.specs.Sums.{vector};
ghost use Rattle.figures.specs.Figure.{angle_count, condition_count, fixed_count, target_of};
ghost use Rattle.pass_rules.specs.FirstPass.{should_be, misclosures_of};
ghost use Rattle.pass_rules.specs.Pass.{given};
ghost use Rattle.pass_steps.specs.Premises.{Within, Angles, most_total};

use figures::{Figure, MOST_ANGLES};
use pass_steps::condition_sums;

// 180° and 360° in tenths of an arc second.
const HALF_TURN: i32 = 6480000;

const FULL_TURN: i32 = 12960000;

pub(crate) fn misclosures_into(figure: Figure, angles: &[u32], fixed: &[u32], w: &mut [i32])
    requires angles_len { length angles.now ≡ angle_count figure }
    requires fixed_len { length fixed.now ≡ fixed_count figure }
    requires w_len { length w.old ≡ condition_count figure }
    requires angles { Angles angles.now }
    requires angles_2 { Angles fixed.now }
    ensures { w.new ≡ misclosures_of figure angles.now fixed.now }
{
    let mut observed = [0; MOST_ANGLES];
    let observed = &mut observed[..angles.len()];
    signed_into(angles, observed);
    condition_sums(figure, observed, w);
    less_targets(figure, fixed, w);
}

fn signed_into(angles: &[u32], signed: &mut [i32])
    requires signed_len { length signed.old ≡ length angles.now }
    requires angles { Angles angles.now }
    ensures { signed.new ≡ listed (length angles.now) (given angles.now) }
{
    for (i, angle) in signed.iter_mut().enumerate() {
        *angle = angles[i] as i32;
    }
}

fn less_targets(figure: Figure, fixed: &[u32], w: &mut [i32])
    requires fixed_len { length fixed.now ≡ fixed_count figure }
    requires w_len { length w.old ≡ condition_count figure }
    requires within { Within most_total w.old }
    requires angles { Angles fixed.now }
    ensures { w.new
        ≡ listed (condition_count figure) (λ j. vector w.old j -ℤ should_be (target_of figure (suc j)) fixed.now) }
{
    let conditions = w.len();
    for (j, misclosure) in w.iter_mut().enumerate() {
        *misclosure -= should_be(figure, fixed, j, conditions);
    }
}

// What the angles of condition j should sum to, of a figure of so many conditions. Code 2 has as many triangles as fixed angles.
fn should_be(figure: Figure, fixed: &[u32], j: usize, conditions: usize) -> i32
    requires fixed_len { length fixed.now ≡ fixed_count figure }
    requires conditions_value { conditions ≡ condition_count figure }
    requires j_lt_conditions { j < conditions }
    requires angles { Angles fixed.now }
    ensures { result ≡ should_be (target_of figure (suc j)) fixed.now }
{
    match figure {
        Figure::Quadrilateral => HALF_TURN,
        Figure::PointInTriangle | Figure::PointInQuadrilateral => {
            if j < fixed.len() {
                HALF_TURN
            } else {
                fixed[j - fixed.len()] as i32
            }
        }
        _ => {
            if j + 1 < conditions {
                HALF_TURN
            } else {
                FULL_TURN
            }
        }
    }
}
