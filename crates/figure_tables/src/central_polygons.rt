// Code 3: the central polygons of document 01 with 3 to 8 triangles: c of triangle i has −2n·w(i) + 2T − 6h, its l and r have
// −2n·w(i) − T + 3h, over 6n. The definition that each table is proved to equal has this rule for every n. The tables stay numbers because
// the numerators of n = 7 and 8 take five times as long where loops make them by the rule.
// A cast by `as` stands where the library has no `From`, to a narrower type or to and from usize; each is proved to keep its value.
ghost use Rattle.std.specs.Prelude.{◌≡◌, ◌+◌, ◌*◌, ◌≤◌, refl};
ghost use Rattle.vocabulary.specs.{leb→le};
ghost use Rattle.figures.specs.declared.Figure.{Figure};
ghost use Rattle.figures.specs.declared.Figure.TheVariants.{CentralTriangle, CentralQuadrilateral, CentralPentagon, CentralHexagon, CentralHeptagon, CentralOctagon};
ghost use Rattle.figures.specs.Figure.{counts_from, counts_of};
ghost use Rattle.figures.specs.Numerators.{padded_rows};

use crate::figure_table::FigureTable;
use figures::{MOST_CONDITIONS, Rows};

// The central polygon of N triangles.
#[derive(Clone, Copy)]
pub struct CentralPolygon<const N: usize>;

// That N triangles make a figure, and which; and its rows, filled with 0.
pub trait Polygon<const N: usize> {
    ghost polygon: { Figure };

    ghost few: { N ≤ 8 };

    ghost its_counts: { counts_from (6 * N) (3 * N) (N + 1) 0 0 ≡ counts_of polygon };

    fn table() -> Rows
        ensures { result ≡ padded_rows polygon };
}

impl<const N: usize> FigureTable for CentralPolygon<N>
where
    CentralPolygon<N>: Polygon<N>,
{
    const D: u32 = 6 * N as u32;

    const ANGLES: usize = 3 * N;

    const CONDITIONS: usize = N + 1;

    const FIXED: usize = 0;

    const SIDES: usize = 0;

    ghost D = { 6 * N };

    ghost ANGLES = { 3 * N };

    ghost CONDITIONS = { N + 1 };

    ghost FIXED = { 0 };

    ghost SIDES = { 0 };

    ghost figure = { ⟦<CentralPolygon<N> as Polygon<N>>⟧.polygon };

    ghost counted = { ⟦<CentralPolygon<N> as Polygon<N>>⟧.its_counts };

    fn rows() -> Rows {
        <CentralPolygon<N> as Polygon<N>>::table()
    }
}

impl Polygon<3> for CentralPolygon<3> {
    ghost polygon = { CentralTriangle };

    ghost few = { leb→le 3 8 tt };

    ghost its_counts = { refl };

    fn table() -> Rows {
        let filling = [0; MOST_CONDITIONS];
        [
            [-4, 2, 2, -6, 0, 0, 0, 0, 0],
            [-7, -1, -1, 3, 0, 0, 0, 0, 0],
            [-7, -1, -1, 3, 0, 0, 0, 0, 0],
            [2, -4, 2, -6, 0, 0, 0, 0, 0],
            [-1, -7, -1, 3, 0, 0, 0, 0, 0],
            [-1, -7, -1, 3, 0, 0, 0, 0, 0],
            [2, 2, -4, -6, 0, 0, 0, 0, 0],
            [-1, -1, -7, 3, 0, 0, 0, 0, 0],
            [-1, -1, -7, 3, 0, 0, 0, 0, 0],
            filling,
            filling,
            filling,
            filling,
            filling,
            filling,
            filling,
            filling,
            filling,
            filling,
            filling,
            filling,
            filling,
            filling,
            filling,
        ]
    }
}

impl Polygon<4> for CentralPolygon<4> {
    ghost polygon = { CentralQuadrilateral };

    ghost few = { leb→le 4 8 tt };

    ghost its_counts = { refl };

    fn table() -> Rows {
        let filling = [0; MOST_CONDITIONS];
        [
            [-6, 2, 2, 2, -6, 0, 0, 0, 0],
            [-9, -1, -1, -1, 3, 0, 0, 0, 0],
            [-9, -1, -1, -1, 3, 0, 0, 0, 0],
            [2, -6, 2, 2, -6, 0, 0, 0, 0],
            [-1, -9, -1, -1, 3, 0, 0, 0, 0],
            [-1, -9, -1, -1, 3, 0, 0, 0, 0],
            [2, 2, -6, 2, -6, 0, 0, 0, 0],
            [-1, -1, -9, -1, 3, 0, 0, 0, 0],
            [-1, -1, -9, -1, 3, 0, 0, 0, 0],
            [2, 2, 2, -6, -6, 0, 0, 0, 0],
            [-1, -1, -1, -9, 3, 0, 0, 0, 0],
            [-1, -1, -1, -9, 3, 0, 0, 0, 0],
            filling,
            filling,
            filling,
            filling,
            filling,
            filling,
            filling,
            filling,
            filling,
            filling,
            filling,
            filling,
        ]
    }
}

impl Polygon<5> for CentralPolygon<5> {
    ghost polygon = { CentralPentagon };

    ghost few = { leb→le 5 8 tt };

    ghost its_counts = { refl };

    fn table() -> Rows {
        let filling = [0; MOST_CONDITIONS];
        [
            [-8, 2, 2, 2, 2, -6, 0, 0, 0],
            [-11, -1, -1, -1, -1, 3, 0, 0, 0],
            [-11, -1, -1, -1, -1, 3, 0, 0, 0],
            [2, -8, 2, 2, 2, -6, 0, 0, 0],
            [-1, -11, -1, -1, -1, 3, 0, 0, 0],
            [-1, -11, -1, -1, -1, 3, 0, 0, 0],
            [2, 2, -8, 2, 2, -6, 0, 0, 0],
            [-1, -1, -11, -1, -1, 3, 0, 0, 0],
            [-1, -1, -11, -1, -1, 3, 0, 0, 0],
            [2, 2, 2, -8, 2, -6, 0, 0, 0],
            [-1, -1, -1, -11, -1, 3, 0, 0, 0],
            [-1, -1, -1, -11, -1, 3, 0, 0, 0],
            [2, 2, 2, 2, -8, -6, 0, 0, 0],
            [-1, -1, -1, -1, -11, 3, 0, 0, 0],
            [-1, -1, -1, -1, -11, 3, 0, 0, 0],
            filling,
            filling,
            filling,
            filling,
            filling,
            filling,
            filling,
            filling,
            filling,
        ]
    }
}

impl Polygon<6> for CentralPolygon<6> {
    ghost polygon = { CentralHexagon };

    ghost few = { leb→le 6 8 tt };

    ghost its_counts = { refl };

    fn table() -> Rows {
        let filling = [0; MOST_CONDITIONS];
        [
            [-10, 2, 2, 2, 2, 2, -6, 0, 0],
            [-13, -1, -1, -1, -1, -1, 3, 0, 0],
            [-13, -1, -1, -1, -1, -1, 3, 0, 0],
            [2, -10, 2, 2, 2, 2, -6, 0, 0],
            [-1, -13, -1, -1, -1, -1, 3, 0, 0],
            [-1, -13, -1, -1, -1, -1, 3, 0, 0],
            [2, 2, -10, 2, 2, 2, -6, 0, 0],
            [-1, -1, -13, -1, -1, -1, 3, 0, 0],
            [-1, -1, -13, -1, -1, -1, 3, 0, 0],
            [2, 2, 2, -10, 2, 2, -6, 0, 0],
            [-1, -1, -1, -13, -1, -1, 3, 0, 0],
            [-1, -1, -1, -13, -1, -1, 3, 0, 0],
            [2, 2, 2, 2, -10, 2, -6, 0, 0],
            [-1, -1, -1, -1, -13, -1, 3, 0, 0],
            [-1, -1, -1, -1, -13, -1, 3, 0, 0],
            [2, 2, 2, 2, 2, -10, -6, 0, 0],
            [-1, -1, -1, -1, -1, -13, 3, 0, 0],
            [-1, -1, -1, -1, -1, -13, 3, 0, 0],
            filling,
            filling,
            filling,
            filling,
            filling,
            filling,
        ]
    }
}

impl Polygon<7> for CentralPolygon<7> {
    ghost polygon = { CentralHeptagon };

    ghost few = { leb→le 7 8 tt };

    ghost its_counts = { refl };

    fn table() -> Rows {
        let filling = [0; MOST_CONDITIONS];
        [
            [-12, 2, 2, 2, 2, 2, 2, -6, 0],
            [-15, -1, -1, -1, -1, -1, -1, 3, 0],
            [-15, -1, -1, -1, -1, -1, -1, 3, 0],
            [2, -12, 2, 2, 2, 2, 2, -6, 0],
            [-1, -15, -1, -1, -1, -1, -1, 3, 0],
            [-1, -15, -1, -1, -1, -1, -1, 3, 0],
            [2, 2, -12, 2, 2, 2, 2, -6, 0],
            [-1, -1, -15, -1, -1, -1, -1, 3, 0],
            [-1, -1, -15, -1, -1, -1, -1, 3, 0],
            [2, 2, 2, -12, 2, 2, 2, -6, 0],
            [-1, -1, -1, -15, -1, -1, -1, 3, 0],
            [-1, -1, -1, -15, -1, -1, -1, 3, 0],
            [2, 2, 2, 2, -12, 2, 2, -6, 0],
            [-1, -1, -1, -1, -15, -1, -1, 3, 0],
            [-1, -1, -1, -1, -15, -1, -1, 3, 0],
            [2, 2, 2, 2, 2, -12, 2, -6, 0],
            [-1, -1, -1, -1, -1, -15, -1, 3, 0],
            [-1, -1, -1, -1, -1, -15, -1, 3, 0],
            [2, 2, 2, 2, 2, 2, -12, -6, 0],
            [-1, -1, -1, -1, -1, -1, -15, 3, 0],
            [-1, -1, -1, -1, -1, -1, -15, 3, 0],
            filling,
            filling,
            filling,
        ]
    }
}

impl Polygon<8> for CentralPolygon<8> {
    ghost polygon = { CentralOctagon };

    ghost few = { leb→le 8 8 tt };

    ghost its_counts = { refl };

    fn table() -> Rows {
        [
            [-14, 2, 2, 2, 2, 2, 2, 2, -6],
            [-17, -1, -1, -1, -1, -1, -1, -1, 3],
            [-17, -1, -1, -1, -1, -1, -1, -1, 3],
            [2, -14, 2, 2, 2, 2, 2, 2, -6],
            [-1, -17, -1, -1, -1, -1, -1, -1, 3],
            [-1, -17, -1, -1, -1, -1, -1, -1, 3],
            [2, 2, -14, 2, 2, 2, 2, 2, -6],
            [-1, -1, -17, -1, -1, -1, -1, -1, 3],
            [-1, -1, -17, -1, -1, -1, -1, -1, 3],
            [2, 2, 2, -14, 2, 2, 2, 2, -6],
            [-1, -1, -1, -17, -1, -1, -1, -1, 3],
            [-1, -1, -1, -17, -1, -1, -1, -1, 3],
            [2, 2, 2, 2, -14, 2, 2, 2, -6],
            [-1, -1, -1, -1, -17, -1, -1, -1, 3],
            [-1, -1, -1, -1, -17, -1, -1, -1, 3],
            [2, 2, 2, 2, 2, -14, 2, 2, -6],
            [-1, -1, -1, -1, -1, -17, -1, -1, 3],
            [-1, -1, -1, -1, -1, -17, -1, -1, 3],
            [2, 2, 2, 2, 2, 2, -14, 2, -6],
            [-1, -1, -1, -1, -1, -1, -17, -1, 3],
            [-1, -1, -1, -1, -1, -1, -17, -1, 3],
            [2, 2, 2, 2, 2, 2, 2, -14, -6],
            [-1, -1, -1, -1, -1, -1, -1, -17, 3],
            [-1, -1, -1, -1, -1, -1, -1, -17, 3],
        ]
    }
}
