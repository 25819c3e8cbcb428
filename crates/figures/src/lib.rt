// The eight figures of document 01, "The eight figures", and the ninth of document 02, M-100: which are named by a code and an n, and what
// is counted of each. The least-squares theorem over their definitions stands in proofs/.
#![tactic(auto)]

ghost use Rattle.std.specs.Prelude.{◌≡◌};
ghost use Rattle.figures.specs.Figure.{figure_of, name_of};

// The figures, and no others: no wrong figure can be written down.
#[derive(Clone, Copy, Debug, PartialEq, Eq)]
pub enum Figure {
    Quadrilateral,
    PointInTriangle,
    PointInQuadrilateral,
    CentralTriangle,
    CentralQuadrilateral,
    CentralPentagon,
    CentralHexagon,
    CentralHeptagon,
    CentralOctagon,
}

// The code and n that name a figure. A caller's two numbers stay two until they name one (`figure_of`): not every pair does.
#[derive(Clone, Copy, Debug, PartialEq, Eq)]
pub struct Name {
    pub code: u32,
    pub n: u32,
}

#[derive(Clone, Copy, Debug, PartialEq, Eq)]
pub struct Counts {
    pub denominator: u32,
    pub angles: usize,
    pub conditions: usize,
    pub fixed: usize,
    pub sides: usize,
}

// The most that a figure has of each, which is how long the arrays are.
pub const MOST_ANGLES: usize = 24;

pub const MOST_CONDITIONS: usize = 9;

pub const MOST_FIXED: usize = 4;

pub const MOST_SIDES: usize = 2;

// A figure's coefficient rows, one type for all figures: an array of arrays, with 0 where a figure has no angle or no condition.
pub type Rows = [[i8; MOST_CONDITIONS]; MOST_ANGLES];

// The figure that a code and an n name, if they name one.
#[tactic(auto, unfolding(crate::specs::Figure::figure_of))]
pub fn figure_of(code: u32, n: u32) -> Option<Figure>
    ensures { result ≡ figure_of code n }
{
    match (code, n) {
        (1, 0) => Some(Figure::Quadrilateral),
        (2, 3) => Some(Figure::PointInTriangle),
        (2, 4) => Some(Figure::PointInQuadrilateral),
        (3, 3) => Some(Figure::CentralTriangle),
        (3, 4) => Some(Figure::CentralQuadrilateral),
        (3, 5) => Some(Figure::CentralPentagon),
        (3, 6) => Some(Figure::CentralHexagon),
        (3, 7) => Some(Figure::CentralHeptagon),
        (3, 8) => Some(Figure::CentralOctagon),
        _ => None,
    }
}

pub fn name_of(figure: Figure) -> Name
    ensures { result ≡ name_of figure }
{
    match figure {
        Figure::Quadrilateral => Name { code: 1, n: 0 },
        Figure::PointInTriangle => Name { code: 2, n: 3 },
        Figure::PointInQuadrilateral => Name { code: 2, n: 4 },
        Figure::CentralTriangle => Name { code: 3, n: 3 },
        Figure::CentralQuadrilateral => Name { code: 3, n: 4 },
        Figure::CentralPentagon => Name { code: 3, n: 5 },
        Figure::CentralHexagon => Name { code: 3, n: 6 },
        Figure::CentralHeptagon => Name { code: 3, n: 7 },
        Figure::CentralOctagon => Name { code: 3, n: 8 },
    }
}
