// The lines of a sheet worked by the first pass: document 01, "Sheets worked through", and M-106 for the rounds.
// A cast by `as` stands where the library has no `From`, to a narrower type or to and from usize; each is proved to keep its value.
ghost use Rattle.text.specs.Holds.{Holds};
ghost use Rattle.lines.specs.Lines.{first_figure};
ghost use Rattle.lines.specs.Worked.{first_angle_of, first_condition_of, first_text_of};

use crate::put::{put_figure_start, put_line, put_numbers};
use crate::values::number_at;
use crate::worked::{Worked, put_worked};
use figures::Figure;
use text::Page;

// What is shown of the figure, of its angles, and of its conditions: a slice of each sort, as the pass is lent them.
#[derive(Clone, Copy)]
pub struct FirstWorked<'a> {
    pub figure: Figure,
    pub given: &'a [u32],
    pub rounds: &'a [u8],
    pub numerators: &'a [i32],
    pub rounded: &'a [i32],
    pub results: &'a [u32],
    pub misclosures: &'a [i32],
    pub rests: &'a [i32],
}

impl Worked for FirstWorked<'_> {
    ghost named = { λ w. w.figure };

    ghost figure_parts = { λ w. first_figure w.figure };

    ghost angle_parts = { λ w. first_angle_of w };

    ghost condition_parts = { λ w. first_condition_of w };

    fn figure(&self) -> Figure {
        self.figure
    }

    fn put_figure(&self, page: &mut Page<'_>) {
        let counts = figure_tables::counts_of(self.figure);
        put_figure_start(page, self.figure);
        put_line(page, b"denominator ", &[i64::from(counts.denominator)]);
    }

    fn put_angle(&self, page: &mut Page<'_>, i: usize) {
        let numbers = [
            (i + 1) as i64,
            i64::from(number_at(self.given, i, 0)),
            i64::from(number_at(self.numerators, i, 0)),
            i64::from(number_at(self.rounded, i, 0)),
            i64::from(number_at(self.results, i, 0)),
            i64::from(number_at(self.rounds, i, 0)),
        ];
        put_numbers(page, &numbers, b'\n');
    }

    fn put_condition(&self, page: &mut Page<'_>, j: usize) {
        let numbers = [
            (j + 1) as i64,
            i64::from(number_at(self.misclosures, j, 0)),
            i64::from(number_at(self.rests, j, 0)),
        ];
        put_line(page, b"condition ", &numbers);
    }
}

pub fn first_lines(buffer: &mut [u8], worked: FirstWorked<'_>) -> usize
    ensures { Holds buffer.old (first_text_of worked.entry) buffer.new result }
{
    let mut page = Page::new(buffer);
    put_worked(&mut page, &worked);
    page.finish()
}
