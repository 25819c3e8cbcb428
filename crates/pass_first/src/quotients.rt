// The rounded corrections: document 01, "The two passes". The figure's type is chosen here as in pass_steps' `table_applied`: one choice for
// both needs a closure that is generic in the figure's type, which the language does not have.
// A cast by `as` stands where the library has no `From`, to a narrower type or to and from usize; each is proved to keep its value.
ghost use Rattle.std.specs.Prelude.{◌≡◌, ◌≤◌, nat_abs, length};
ghost use Rattle.whole.specs.Lists.{listed};
ghost use Rattle.whole.specs.Quotient.{rounded_quotient};
ghost use Rattle.whole.specs.Sums.{vector};
ghost use Rattle.figures.specs.Figure.{denominator};
ghost use Rattle.pass_steps.specs.Premises.{Within, most_rounded};

use figure_tables::{
    CentralPolygon, FigureTable, PointInQuadrilateral, PointInTriangle, Quadrilateral,
};
use figures::Figure;

// The numerators over the figure's denominator, rounded. Each denominator is a constant of its type, so that nothing is divided at run
// time.
pub(crate) fn rounded_into(figure: Figure, numerators: &[i32], rounded: &mut [i32])
    requires rounded_len { length rounded.old ≡ length numerators.now }
    requires within { Within most_rounded numerators.now }
    ensures { rounded.new
        ≡ listed (length numerators.now) (λ i. rounded_quotient (vector numerators.now i) (denominator figure)) }
{
    match figure {
        Figure::Quadrilateral => over::<Quadrilateral>(numerators, rounded),
        Figure::PointInTriangle => over::<PointInTriangle>(numerators, rounded),
        Figure::PointInQuadrilateral => over::<PointInQuadrilateral>(numerators, rounded),
        Figure::CentralTriangle => over::<CentralPolygon<3>>(numerators, rounded),
        Figure::CentralQuadrilateral => over::<CentralPolygon<4>>(numerators, rounded),
        Figure::CentralPentagon => over::<CentralPolygon<5>>(numerators, rounded),
        Figure::CentralHexagon => over::<CentralPolygon<6>>(numerators, rounded),
        Figure::CentralHeptagon => over::<CentralPolygon<7>>(numerators, rounded),
        Figure::CentralOctagon => over::<CentralPolygon<8>>(numerators, rounded),
    }
}

fn over<F: FigureTable>(numerators: &[i32], rounded: &mut [i32])
    requires rounded_len { length rounded.old ≡ length numerators.now }
    requires within { Within most_rounded numerators.now }
    ensures { rounded.new
        ≡ listed (length numerators.now) (λ i. rounded_quotient (vector numerators.now i) (denominator F.figure)) }
{
    for (i, numerator) in numerators.iter().enumerate() {
        rounded[i] = quotient(*numerator, F::D);
    }
}

// None is greater than its numerator, so that it fits.
#[tactic(auto, using(whole::proofs::Quotient::rounded_within, pass_steps::proofs::Narrowing::narrow_fits, pass_steps::proofs::Narrowing::narrowed))]
fn quotient(numerator: i32, divisor: u32) -> i32
    requires { nat_abs numerator ≤ most_rounded }
    ensures { result ≡ rounded_quotient numerator divisor }
{
    whole::rounded_quotient(i64::from(numerator), u64::from(divisor)) as i32
}
