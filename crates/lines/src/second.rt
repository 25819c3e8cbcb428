// The lines of a sheet worked by the second pass: document 01, "Sheets worked through", M-100 for a figure with a side condition,
// and M-106 for the rounds.
// A cast by `as` stands where the library has no `From`, to a narrower type or to and from usize; each is proved to keep its value.
ghost use Rattle.std.specs.Prelude.{◌≡◌, ◌∷◌, ◌+◌, ◌<◌, pos};
ghost use Rattle.whole.specs.Sums.{naturals, vector};
ghost use Rattle.text.specs.Holds.{Holds};
ghost use Rattle.text.specs.Page.{Lays};
ghost use Rattle.wide.specs.Wide.{value_of};
ghost use Rattle.wide_words.specs.Words.{joined};
ghost use Rattle.figures.specs.Figure.{has_side};
ghost use Rattle.lines.specs.Lays.{line_start};
ghost use Rattle.lines.specs.Lines.{numbers, divisor_words, coefficients};
ghost use Rattle.lines.specs.Worked.{second_figure_of, second_angle_of, second_condition_of, second_text_of};

use crate::put::{put_figure_start, put_line, put_numbers, put_part, put_wide};
use crate::values::{number_at, wide_at};
use crate::worked::{Worked, put_worked};
use figures::Figure;
use text::Page;
use wide::Wide;

// How many numbers a word can hold.
const RADIX: u128 = 18446744073709551616;

// What is shown of the figure, of its angles, and of its conditions. A numerator is high·2^64 + low, and so is the divisor: S, or with two
// sine conditions the determinant. A slice of each sort, as the pass is lent them.
#[derive(Clone, Copy)]
pub struct SecondWorked<'a> {
    pub figure: Figure,
    pub misclosure: i64,
    pub side_misclosure: i64,
    pub divisor_high: u64,
    pub divisor_low: u64,
    pub given: &'a [u32],
    pub rounds: &'a [u8],
    pub reduced: &'a [i64],
    pub side_reduced: &'a [i64],
    pub numerators_high: &'a [i64],
    pub numerators_low: &'a [u64],
    pub rounded: &'a [i32],
    pub results: &'a [u32],
    pub rests: &'a [i32],
}

impl SecondWorked<'_> {
    #[tactic(auto, using(crate::proofs::WideNumbers::divisor_value))]
    fn divisor(&self) -> Wide
        ensures { value_of result ≡ joined (pos self.now.divisor_high) self.now.divisor_low }
    {
        Wide {
            negative: false,
            size: u128::from(self.divisor_high) * RADIX + u128::from(self.divisor_low),
        }
    }

    // The misclosure of a side condition stands before the word.
    fn put_divisor_words(&self, page: &mut Page<'_>)
        ensures { Lays (line_start (divisor_words (has_side self.now.figure) self.now.side_misclosure))
            page.old page.new }
    {
        if has_side(self.figure) {
            put_part(page, self.side_misclosure, b' ');
            page.put_word(b"determinant ");
        } else {
            page.put_word(b"S ");
        }
    }

    // An angle's line up to A, and to B of a side condition.
    fn put_reduced(&self, page: &mut Page<'_>, i: usize)
        requires { i < 24 }
        ensures { Lays (line_start (numbers (pos (i + 1) ∷ naturals self.now.given.now i
            ∷ coefficients (has_side self.now.figure) (vector self.now.reduced.now i) (vector self.now.side_reduced.now i))))
            page.old page.new }
    {
        let numbers = [
            (i + 1) as i64,
            i64::from(number_at(self.given, i, 0)),
            number_at(self.reduced, i, 0),
            number_at(self.side_reduced, i, 0),
        ];
        if has_side(self.figure) {
            put_numbers(page, &numbers, b' ');
        } else {
            put_numbers(page, &numbers[..3], b' ');
        }
    }
}

impl Worked for SecondWorked<'_> {
    ghost named = { λ w. w.figure };

    ghost figure_parts = { λ w. second_figure_of w };

    ghost angle_parts = { λ w. second_angle_of w };

    ghost condition_parts = { λ w. second_condition_of w };

    fn figure(&self) -> Figure {
        self.figure
    }

    fn put_figure(&self, page: &mut Page<'_>) {
        put_figure_start(page, self.figure);
        page.put_word(b"W ");
        put_part(page, self.misclosure, b' ');
        self.put_divisor_words(page);
        put_wide(page, self.divisor(), b'\n');
    }

    fn put_angle(&self, page: &mut Page<'_>, i: usize) {
        self.put_reduced(page, i);
        let numerator = wide_at(self.numerators_high, self.numerators_low, i);
        put_wide(page, numerator, b' ');
        let numbers = [
            i64::from(number_at(self.rounded, i, 0)),
            i64::from(number_at(self.results, i, 0)),
            i64::from(number_at(self.rounds, i, 0)),
        ];
        put_numbers(page, &numbers, b'\n');
    }

    fn put_condition(&self, page: &mut Page<'_>, j: usize) {
        let numbers = [(j + 1) as i64, i64::from(number_at(self.rests, j, 0))];
        put_line(page, b"condition ", &numbers);
    }
}

#[tactic(auto, using(crate::proofs::Texts::side_known))]
fn has_side(figure: Figure) -> bool
    ensures { result ≡ has_side figure }
{
    figure_tables::counts_of(figure).sides > 0
}

pub fn second_lines(buffer: &mut [u8], worked: SecondWorked<'_>) -> usize
    ensures { Holds buffer.old (second_text_of worked.entry) buffer.new result }
{
    let mut page = Page::new(buffer);
    put_worked(&mut page, &worked);
    page.finish()
}
