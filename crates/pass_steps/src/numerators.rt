// The numerators of the exact corrections: document 01, "The two passes". Each figure's table as its type has it, by value, to one
// function. The figure's type is chosen here as in pass_first's `rounded_into`: one choice for both needs a closure that is generic in the
// figure's type, which the language does not have.
ghost use Rattle.std.specs.Prelude.{◌≡◌, ◌+◌, ◌*◌, ◌^◌, ◌≤◌, nat_abs, ◌*ℤ◌, length};
ghost use Rattle.whole.specs.Lists.{listed};
ghost use Rattle.whole.specs.Sums.{vector, table, dot, applied};
ghost use Rattle.figures.specs.Figure.{angle_count, condition_count};
ghost use Rattle.figures.specs.Numerators.{most_angles, most_conditions};
ghost use Rattle.refusals.specs.Order.{verdict_of};
ghost use Rattle.refusals.specs.Promise.{stored};
ghost use Rattle.refusals.specs.Table.{misclosures_row};
ghost use Rattle.pass_steps.specs.Premises.{Within, most_applied};
ghost use Rattle.pass_steps.specs.Steps.{fitting, numerators_from, AppliedTo};

use figure_tables::{
    CentralPolygon, FigureTable, PointInQuadrilateral, PointInTriangle, Quadrilateral,
};
use figures::{Figure, MOST_CONDITIONS, Rows};

// The greatest misclosure of which nine products with a byte sum to 31 bits.
const MOST_APPLIED: u32 = 1048576;

// Each angle's row applied to the misclosures, where none is beyond what 32 bits bear.
pub fn numerators_into(figure: Figure, w: &[i32], numerators: &mut [i32])
    ensures { numerators.new
        ≡ fitting (length w.now) (condition_count figure) (length numerators.old) (angle_count figure)
        (stored (verdict_of (misclosures_row most_applied w.now)) (numerators_from figure w.now)
        numerators.old)
        numerators.old }
{
    let counts = figure_tables::counts_of(figure);
    if w.len() == counts.conditions && numerators.len() == counts.angles {
        if let Ok(()) = judging::check_misclosures(w, MOST_APPLIED) {
            table_applied(figure, w, numerators);
        }
    }
}

fn table_applied(figure: Figure, w: &[i32], numerators: &mut [i32])
    requires w_len { length w.now ≡ condition_count figure }
    requires numerators_len { length numerators.old ≡ angle_count figure }
    requires within { Within most_applied w.now }
    ensures { numerators.new ≡ numerators_from figure w.now }
{
    match figure {
        Figure::Quadrilateral => applied_of::<Quadrilateral>(w, numerators),
        Figure::PointInTriangle => applied_of::<PointInTriangle>(w, numerators),
        Figure::PointInQuadrilateral => applied_of::<PointInQuadrilateral>(w, numerators),
        Figure::CentralTriangle => applied_of::<CentralPolygon<3>>(w, numerators),
        Figure::CentralQuadrilateral => applied_of::<CentralPolygon<4>>(w, numerators),
        Figure::CentralPentagon => applied_of::<CentralPolygon<5>>(w, numerators),
        Figure::CentralHexagon => applied_of::<CentralPolygon<6>>(w, numerators),
        Figure::CentralHeptagon => applied_of::<CentralPolygon<7>>(w, numerators),
        Figure::CentralOctagon => applied_of::<CentralPolygon<8>>(w, numerators),
    }
}

fn applied_of<F: FigureTable>(w: &[i32], numerators: &mut [i32])
    requires w_len { length w.now ≡ condition_count F.figure }
    requires numerators_len { length numerators.old ≡ angle_count F.figure }
    requires within { Within most_applied w.now }
    ensures { numerators.new ≡ numerators_from F.figure w.now }
{
    rows_applied(F::rows(), F::ANGLES, F::CONDITIONS, w, numerators);
}

// The one row-apply function: the rows of a figure of so many angles and conditions. The misclosures are taken into an array of its own, so
// that no store can change them and each is fetched once.
fn rows_applied(rows: Rows, angles: usize, conditions: usize, w: &[i32], numerators: &mut [i32])
    requires numerators_len { length numerators.old ≡ angles }
    requires angles_le_most_angles { angles ≤ most_angles }
    requires w_len { length w.now ≡ conditions }
    requires conditions_le_most_conditions { conditions ≤ most_conditions }
    requires within { Within most_applied w.now }
    ensures { numerators.new ≡ listed angles (applied conditions (table rows) (vector w.now)) }
{
    let mut own = [0i32; MOST_CONDITIONS];
    whole::copy_over(&w[..conditions], &mut own[..conditions]);
    let taken = &own[..conditions];
    nine_applied(rows, 0, angles, conditions, taken, numerators);
    nine_applied(rows, 9, angles, conditions, taken, numerators);
    nine_applied(rows, 18, angles, conditions, taken, numerators);
}

// Nine rows, or what is left of the angles, from `from` on. So short a loop over a table that is told is compiled row by row, with no table
// in memory. Rows and counts are arguments and no struct: the compiler sees the constants of the figure's type through them.
fn nine_applied(
    rows: Rows,
    from: usize,
    angles: usize,
    conditions: usize,
    w: &[i32],
    numerators: &mut [i32],
)
    requires from_bound { from ≤ 18 }
    requires numerators_len { length numerators.old ≡ angles }
    requires angles_le_most_angles { angles ≤ most_angles }
    requires w_len { length w.now ≡ conditions }
    requires conditions_le_most_conditions { conditions ≤ most_conditions }
    requires within { Within most_applied w.now }
    requires applied_to { AppliedTo from angles (applied conditions (table rows) (vector w.now)) numerators.old }
    ensures { AppliedTo (from + 9) angles (applied conditions (table rows) (vector w.now)) numerators.new }
{
    for i in from..angles.min(from + 9) {
        numerators[i] = row_applied(rows[i], conditions, w);
    }
}

#[tactic(auto, unfolding(whole::specs::Sums::dot, whole::specs::Sums::sum))]
fn row_applied(row: [i8; MOST_CONDITIONS], conditions: usize, w: &[i32]) -> i32
    requires w_len { length w.now ≡ conditions }
    requires conditions_le_most_conditions { conditions ≤ most_conditions }
    requires within { Within most_applied w.now }
    ensures { result ≡ dot conditions (vector row) (vector w.now) }
{
    let mut total = 0i32;
    for j in 0..conditions {
        total += product(row[j], w[j]);
    }
    total
}

fn product(coefficient: i8, misclosure: i32) -> i32
    requires { nat_abs misclosure ≤ most_applied }
    ensures { (result ≡ coefficient *ℤ misclosure) × (nat_abs result ≤ 2 ^ 7 * most_applied) }
{
    i32::from(coefficient) * misclosure
}
