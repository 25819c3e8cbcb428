// Code 2, n = 4: a point in a known quadrilateral, of document 02, M-100.
ghost use Rattle.std.specs.Prelude.{refl};
ghost use Rattle.figures.specs.declared.Figure.TheVariants.{PointInQuadrilateral};

use crate::figure_table::FigureTable;
use figures::{MOST_CONDITIONS, Rows};

#[derive(Clone, Copy)]
pub struct PointInQuadrilateral;

impl FigureTable for PointInQuadrilateral {
    const D: u32 = 24;

    const ANGLES: usize = 12;

    const CONDITIONS: usize = 8;

    const FIXED: usize = 4;

    const SIDES: usize = 2;

    ghost D = { 24 };

    ghost ANGLES = { 12 };

    ghost CONDITIONS = { 8 };

    ghost FIXED = { 4 };

    ghost SIDES = { 2 };

    ghost figure = { PointInQuadrilateral };

    ghost counted = { refl };

    // The rows of M-100.
    fn rows() -> Rows {
        let filling = [0; MOST_CONDITIONS];
        [
            [-14, -4, -2, -4, 9, 9, 3, 3, 0],
            [-5, -1, 1, 5, -12, 3, 0, -3, 0],
            [-5, 5, 1, -1, 3, -12, -3, 0, 0],
            [-4, -14, -4, -2, 3, 9, 9, 3, 0],
            [5, -5, -1, 1, -3, -12, 3, 0, 0],
            [-1, -5, 5, 1, 0, 3, -12, -3, 0],
            [-2, -4, -14, -4, 3, 3, 9, 9, 0],
            [1, 5, -5, -1, 0, -3, -12, 3, 0],
            [1, -1, -5, 5, -3, 0, 3, -12, 0],
            [-4, -2, -4, -14, 9, 3, 3, 9, 0],
            [-1, 1, 5, -5, 3, 0, -3, -12, 0],
            [5, 1, -1, -5, -12, -3, 0, 3, 0],
            filling,
            filling,
            filling,
            filling,
            filling,
            filling,
            filling,
            filling,
            filling,
            filling,
            filling,
            filling,
        ]
    }
}
