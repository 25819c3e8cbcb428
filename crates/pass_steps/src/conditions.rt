// The conditions of each figure, by its family: document 01, "The eight figures", and document 02, M-100. Conditions and angles are used by
// their indices, counted from 0.
// A cast by `as` stands where the library has no `From`, to a narrower type or to and from usize; each is proved to keep its value.
ghost use Rattle.std.specs.Prelude.{cond, ◌≡◌, ℕ, ◌+◌, ◌-◌, ◌*◌, ◌<◌, ◌≤◌, eqb, ◌+ℤ◌, length};
ghost use Rattle.whole.specs.Sums.{sum, vector};
ghost use Rattle.figures.specs.declared.Figure.{Figure};
ghost use Rattle.figures.specs.Figure.{angle_count, condition_count};
ghost use Rattle.figures.specs.Numerators.{condition_sum, most_members};
ghost use Rattle.pass_steps.specs.Steps.{fitting, sums_of};
ghost use Rattle.pass_steps.specs.Steps.{held as Steps·held};

use figures::Figure;

// The most that a sum may be, either way: what 32 bits hold.
const MOST_HELD: u64 = 2147483647;

// The sum over the angles of each condition.
pub fn condition_sums(figure: Figure, x: &[i32], sums: &mut [i32])
    ensures { sums.new
        ≡ fitting (length x.now) (angle_count figure) (length sums.old) (condition_count figure)
        (sums_of figure x.now) sums.old }
{
    let counts = figure_tables::counts_of(figure);
    if x.len() == counts.angles && sums.len() == counts.conditions {
        sums_into(figure, x, sums);
    }
}

fn sums_into(figure: Figure, x: &[i32], sums: &mut [i32])
    requires x_len { length x.now ≡ angle_count figure }
    requires sums_len { length sums.old ≡ condition_count figure }
    ensures { sums.new ≡ sums_of figure x.now }
{
    for (j, sum) in sums.iter_mut().enumerate() {
        *sum = held(condition_sum(figure, x, j));
    }
}

#[tactic(auto, unfolding(crate::specs::Steps::held))]
fn held(total: i64) -> i32
    ensures { result ≡ Steps·held total }
{
    if total.unsigned_abs() > MOST_HELD {
        0
    } else {
        total as i32
    }
}

// The sum over the angles of condition j. Code 1: angles 1 to 4, 3 to 6, 5 to 8. Code 2: the triangles, and the corners. Code 3: the
// triangles, and the angles at the inner point.
fn condition_sum(figure: Figure, x: &[i32], j: usize) -> i64
    requires x_len { length x.now ≡ angle_count figure }
    requires j_bound { j < condition_count figure }
    ensures { result ≡ condition_sum figure (vector x.now) j }
{
    match figure {
        Figure::Quadrilateral => run_sum(x, 2 * j, 1, 4),
        Figure::PointInTriangle | Figure::PointInQuadrilateral => {
            if 3 * j < x.len() {
                run_sum(x, 3 * j, 1, 3)
            } else {
                corner_sum(x, 3 * j - x.len())
            }
        }
        _ => {
            if 3 * j < x.len() {
                run_sum(x, 3 * j, 1, 3)
            } else {
                run_sum(x, 0, 3, j)
            }
        }
    }
}

// At the corner whose own triangle begins at `first`: the last angle of the triangle before with the second of its own.
fn corner_sum(x: &[i32], first: usize) -> i64
    requires { first + 1 < length x.now }
    ensures { result
        ≡ vector x.now (cond (eqb first 0) (length x.now) first - 1) +ℤ vector x.now (first + 1) }
{
    let before = if first == 0 { x.len() } else { first };
    i64::from(x[before - 1]) + i64::from(x[first + 1])
}

// The sum of `count` numbers: the one at `first`, and then every `step`th.
#[tactic(auto, using(crate::proofs::Totals::sums))]
fn run_sum(x: &[i32], first: usize, step: usize, count: usize) -> i64
    requires by_index { (k : ℕ) → k < count → first + step * k < length x.now }
    requires count_le_most_members { count ≤ most_members }
    ensures { result ≡ sum count (λ k. vector x.now (first + step * k)) }
{
    let mut total = 0;
    for k in 0..count {
        total += i64::from(x[first + step * k]);
    }
    total
}
