// What the code carries of a figure.
ghost use Rattle.std.specs.Prelude.{◌≡◌, ℕ};
ghost use Rattle.figures.specs.declared.Figure.{Figure};
ghost use Rattle.figures.specs.Figure.{counts_from, counts_of};
ghost use Rattle.figures.specs.Numerators.{padded_rows};

use figures::Rows;

// A figure's denominator, its counts and its table, each belonging to its type.
pub trait FigureTable {
    const D: u32;

    const ANGLES: usize;

    const CONDITIONS: usize;

    const FIXED: usize;

    const SIDES: usize;

    ghost D: { ℕ };

    ghost ANGLES: { ℕ };

    ghost CONDITIONS: { ℕ };

    ghost FIXED: { ℕ };

    ghost SIDES: { ℕ };

    ghost figure: { Figure };

    // The rows over D, filled with 0 past the figure's conditions and angles.
    fn rows() -> Rows
        ensures { result ≡ padded_rows figure };

    ghost counted: { counts_from D ANGLES CONDITIONS FIXED SIDES ≡ counts_of figure };
}
