// The lines of a figure that a pass worked: its own, then one for each of its angles and of its conditions.
// That an index is below 24 stays a premise: an index with that as its invariant would be built in the two loops that count to it.
ghost use Rattle.std.specs.Prelude.{◌≡◌, ℕ, List, ◌<◌, ◌++◌};
ghost use Rattle.whole.specs.Lists.{listed};
ghost use Rattle.text.specs.Page.{Lays};
ghost use Rattle.text.specs.Text.{line, lines};
ghost use Rattle.figures.specs.declared.Figure.{Figure};
ghost use Rattle.lines.specs.Lays.{all_lines};

use figures::Figure;
use text::Page;

pub(crate) trait Worked {
    ghost named: { Self → Figure };

    ghost figure_parts: { Self → List (List ℕ) };

    ghost angle_parts: { Self → ℕ → List (List ℕ) };

    ghost condition_parts: { Self → ℕ → List (List ℕ) };

    fn figure(&self) -> Figure
        ensures { result ≡ named self.now };

    fn put_figure(&self, page: &mut Page<'_>)
        ensures { Lays (line (figure_parts self.now)) page.old page.new };

    fn put_angle(&self, page: &mut Page<'_>, i: usize)
        requires { i < 24 }
        ensures { Lays (line (angle_parts self.now i)) page.old page.new };

    fn put_condition(&self, page: &mut Page<'_>, j: usize)
        requires { j < 24 }
        ensures { Lays (line (condition_parts self.now j)) page.old page.new };
}

#[tactic(auto, using(crate::proofs::Texts::few_lines))]
pub(crate) fn put_worked<W: Worked>(page: &mut Page<'_>, worked: &W)
    ensures { Lays (lines (all_lines (W.named worked.now) (W.figure_parts worked.now)
        (W.angle_parts worked.now) (W.condition_parts worked.now))) page.old page.new }
{
    let counts = figure_tables::counts_of(worked.figure());
    worked.put_figure(page);
    for i in 0..counts.angles {
        worked.put_angle(page, i);
    }
    for j in 0..counts.conditions {
        worked.put_condition(page, j);
    }
}
