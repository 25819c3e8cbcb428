// Code 2, n = 3: a point in a known triangle, of document 01.
ghost use Rattle.std.specs.Prelude.{refl};
ghost use Rattle.figures.specs.declared.Figure.TheVariants.{PointInTriangle};

use crate::figure_table::FigureTable;
use figures::{MOST_CONDITIONS, Rows};

#[derive(Clone, Copy)]
pub struct PointInTriangle;

impl FigureTable for PointInTriangle {
    const D: u32 = 10;

    const ANGLES: usize = 9;

    const CONDITIONS: usize = 6;

    const FIXED: usize = 3;

    const SIDES: usize = 0;

    ghost D = { 10 };

    ghost ANGLES = { 9 };

    ghost CONDITIONS = { 6 };

    ghost FIXED = { 3 };

    ghost SIDES = { 0 };

    ghost figure = { PointInTriangle };

    ghost counted = { refl };

    fn rows() -> Rows {
        let filling = [0; MOST_CONDITIONS];
        [
            [-6, -2, -2, 4, 4, 2, 0, 0, 0],
            [-2, 0, 2, -5, 1, -1, 0, 0, 0],
            [-2, 2, 0, 1, -5, -1, 0, 0, 0],
            [-2, -6, -2, 2, 4, 4, 0, 0, 0],
            [2, -2, 0, -1, -5, 1, 0, 0, 0],
            [0, -2, 2, -1, 1, -5, 0, 0, 0],
            [-2, -2, -6, 4, 2, 4, 0, 0, 0],
            [0, 2, -2, 1, -1, -5, 0, 0, 0],
            [2, 0, -2, -5, -1, 1, 0, 0, 0],
            filling,
            filling,
            filling,
            filling,
            filling,
            filling,
            filling,
            filling,
            filling,
            filling,
            filling,
            filling,
            filling,
            filling,
            filling,
        ]
    }
}
