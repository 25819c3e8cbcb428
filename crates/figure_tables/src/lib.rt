// The tables of the figures as the code holds them, each belonging to its figure's type, and their counts and sine signs.
#![tactic(auto)]

ghost use Rattle.std.specs.Prelude.{◌≡◌, pos, take};
ghost use Rattle.figures.specs.Figure.{angle_count, counts_of, pole, side, side_condition};
ghost use Rattle.figures.specs.Numerators.{most_angles};
ghost use Rattle.figures.specs.Rows.{quadrilateral_signs, triangle_signs};
ghost use Rattle.whole.specs.Lists.{padded};

mod central_polygons;
mod figure_table;
mod geodetic_quadrilateral;
mod point_in_quadrilateral;
mod point_in_triangle;

pub use central_polygons::CentralPolygon;
pub use figure_table::FigureTable;
use figures::{Counts, Figure, MOST_ANGLES};
pub use geodetic_quadrilateral::Quadrilateral;
pub use point_in_quadrilateral::PointInQuadrilateral;
pub use point_in_triangle::PointInTriangle;

// The one choice of a type by its figure that has no work to do: each arm reads its constants.
pub fn counts_of(figure: Figure) -> Counts
    ensures { result ≡ counts_of figure }
{
    match figure {
        Figure::Quadrilateral => counts::<Quadrilateral>(),
        Figure::PointInTriangle => counts::<PointInTriangle>(),
        Figure::PointInQuadrilateral => counts::<PointInQuadrilateral>(),
        Figure::CentralTriangle => counts::<CentralPolygon<3>>(),
        Figure::CentralQuadrilateral => counts::<CentralPolygon<4>>(),
        Figure::CentralPentagon => counts::<CentralPolygon<5>>(),
        Figure::CentralHexagon => counts::<CentralPolygon<6>>(),
        Figure::CentralHeptagon => counts::<CentralPolygon<7>>(),
        Figure::CentralOctagon => counts::<CentralPolygon<8>>(),
    }
}

fn counts<F: FigureTable>() -> Counts
    ensures { result ≡ counts_of F.figure }
{
    Counts {
        denominator: F::D,
        angles: F::ANGLES,
        conditions: F::CONDITIONS,
        fixed: F::FIXED,
        sides: F::SIDES,
    }
}

// The sine sign of each angle; past the figure's angles the array says nothing.
pub type Signs = [i8; MOST_ANGLES];

// The signs in the pole. Of two rows: one of the trait's constants for each figure would say the second eight times.
pub fn signs_of(figure: Figure) -> Signs
    ensures { take (angle_count figure) result ≡ (pole figure).signs }
{
    match figure {
        Figure::Quadrilateral => quadrilateral_signs(),
        _ => triangle_signs(),
    }
}

// The signs in the side condition; a figure without one has 0 of every angle.
pub fn side_signs_of(figure: Figure) -> Signs
    ensures { take (angle_count figure) result ≡ (side figure).signs }
{
    match figure {
        Figure::PointInQuadrilateral => side_signs(),
        _ => [0; MOST_ANGLES],
    }
}

// Odd +, even −.
fn quadrilateral_signs() -> Signs
    ensures { result ≡ padded most_angles (pos 0) quadrilateral_signs }
{
    [
        1, -1, 1, -1, 1, -1, 1, -1, 0, 0, 0, 0, 0, 0, 0, 0, 0, 0, 0, 0, 0, 0, 0, 0,
    ]
}

// c 0, l +, r −, of each triangle of the largest figure.
fn triangle_signs() -> Signs
    ensures { result ≡ triangle_signs 8 }
{
    [
        0, 1, -1, 0, 1, -1, 0, 1, -1, 0, 1, -1, 0, 1, -1, 0, 1, -1, 0, 1, -1, 0, 1, -1,
    ]
}

// r of triangle 1 and c of triangle 4 +, c of triangle 1 and l of triangle 4 −.
fn side_signs() -> Signs
    ensures { result ≡ padded most_angles (pos 0) side_condition.signs }
{
    let mut signs = [0; MOST_ANGLES];
    signs[2] = 1;
    signs[9] = 1;
    signs[0] = -1;
    signs[10] = -1;
    signs
}
