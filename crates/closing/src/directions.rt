// Directions: where each angle starts, with the numerators laid off one from another, and division downwards and upwards. Angles by their
// indices, counted from 0, but for `starts_at`, which answers the number of an angle.
ghost use Rattle.std.specs.Prelude.{◌≡◌, ◌<◌, length, get_or};
ghost use Rattle.whole.specs.Sums.{vector};
ghost use Rattle.figures.specs.Figure.{angle_count};
ghost use Rattle.pass_steps.specs.Premises.{Within};
ghost use Rattle.closing.specs.Choice.{starts_at, start_of};
ghost use Rattle.closing.specs.Floor.{floor_quotient, ceiling_quotient};
ghost use Rattle.closing.specs.Premises.{most_numerator};

use figures::Figure;

// The number of the angle at whose end the angle starts, and 0 for the first direction. Code 1: one after another. Code 2: of each triangle
// the last at the first direction, the one at the inner point at its end, the second at the end of that. Code 3: those at the inner point
// one after another, of each triangle the second at the end of that, and the last at its end.
pub(crate) fn starts_at(figure: Figure, i: usize) -> usize
    requires { i < angle_count figure }
    ensures { result ≡ get_or (starts_at figure) i 0 }
{
    match figure {
        Figure::Quadrilateral => i,
        Figure::PointInTriangle | Figure::PointInQuadrilateral => {
            if i % 3 == 0 {
                i + 3
            } else if i % 3 == 1 {
                i
            } else {
                0
            }
        }
        _ => {
            if i % 3 == 0 {
                if i == 0 { 0 } else { i - 2 }
            } else {
                i
            }
        }
    }
}

// The sum of x over the angles that are laid off before the one of index i.
pub(crate) fn start_of(figure: Figure, x: &[i32], i: usize) -> i64
    requires x_len { length x.now ≡ angle_count figure }
    requires i_bound { i < angle_count figure }
    requires within { Within most_numerator x.now }
    ensures { result ≡ start_of figure (vector x.now) i }
{
    let mut total = 0;
    let mut angle = starts_at(figure, i);
    // Follows the way from angle to angle and counts no index.
    while angle != 0 {
        total += i64::from(x[angle - 1]);
        angle = starts_at(figure, angle - 1);
    }
    total
}

// Rounded downwards, also below zero.
#[tactic(auto, using(crate::proofs::FloorLaws::euclidean))]
pub(crate) fn floor_quotient(z: i64, divisor: u32) -> i64
    requires { 0 < divisor }
    ensures { result ≡ floor_quotient z divisor }
{
    z.div_euclid(i64::from(divisor))
}

#[tactic(auto, using(crate::proofs::FloorLaws::ceiling_small))]
pub(crate) fn ceiling_quotient(z: i32, divisor: u32) -> i64
    requires { 0 < divisor }
    ensures { result ≡ ceiling_quotient z divisor }
{
    -floor_quotient(-i64::from(z), divisor)
}
