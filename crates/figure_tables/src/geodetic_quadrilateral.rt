// Code 1, n = 0: the geodetic quadrilateral of document 01.
ghost use Rattle.std.specs.Prelude.{refl};
ghost use Rattle.figures.specs.declared.Figure.TheVariants.{Quadrilateral};

use crate::figure_table::FigureTable;
use figures::{MOST_CONDITIONS, Rows};

#[derive(Clone, Copy)]
pub struct Quadrilateral;

impl FigureTable for Quadrilateral {
    const D: u32 = 8;

    const ANGLES: usize = 8;

    const CONDITIONS: usize = 3;

    const FIXED: usize = 0;

    const SIDES: usize = 0;

    ghost D = { 8 };

    ghost ANGLES = { 8 };

    ghost CONDITIONS = { 3 };

    ghost FIXED = { 0 };

    ghost SIDES = { 0 };

    ghost figure = { Quadrilateral };

    ghost counted = { refl };

    // The angles of a pair have the same row.
    fn rows() -> Rows {
        let angles_1_2 = [-3, 2, -1, 0, 0, 0, 0, 0, 0];
        let angles_3_4 = [-1, -2, 1, 0, 0, 0, 0, 0, 0];
        let angles_5_6 = [1, -2, -1, 0, 0, 0, 0, 0, 0];
        let angles_7_8 = [-1, 2, -3, 0, 0, 0, 0, 0, 0];
        let filling = [0; MOST_CONDITIONS];
        [
            angles_1_2, angles_1_2, angles_3_4, angles_3_4, angles_5_6, angles_5_6, angles_7_8,
            angles_7_8, filling, filling, filling, filling, filling, filling, filling, filling,
            filling, filling, filling, filling, filling, filling, filling, filling,
        ]
    }
}
