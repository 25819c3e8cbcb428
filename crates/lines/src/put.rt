// Numbers and lines of them. Each function lays one text more on a page.
ghost use Rattle.std.specs.Prelude.{[], ◌∷◌, ◌++◌, pos};
ghost use Rattle.text.specs.Page.{Lays};
ghost use Rattle.text.specs.Text.{line_feed, decimal};
ghost use Rattle.wide.specs.Wide.{value_of};
ghost use Rattle.lines.specs.Lays.{line_start, numbers_ended};
ghost use Rattle.lines.specs.Lines.{figure_named};

use figures::Figure;
use text::Page;
use wide::Wide;

// A number and the byte that ends it.
#[tactic(auto, using(text::proofs::Laying::laid_on_append))]
pub(crate) fn put_part(page: &mut Page<'_>, value: i64, end: u8)
    ensures { Lays (decimal value ++ (end ∷ [])) page.old page.new }
{
    page.put_number(value);
    page.put_byte(end);
}

#[tactic(auto, using(text::proofs::Laying::laid_on_append))]
pub(crate) fn put_natural(page: &mut Page<'_>, value: u64, end: u8)
    ensures { Lays (decimal (pos value) ++ (end ∷ [])) page.old page.new }
{
    page.put_natural(value);
    page.put_byte(end);
}

// A number of two words and the byte that ends it.
#[tactic(auto, using(text::proofs::Laying::laid_on_append))]
pub(crate) fn put_wide(page: &mut Page<'_>, value: Wide, end: u8)
    ensures { Lays (decimal (value_of value) ++ (end ∷ [])) page.old page.new }
{
    wide_text::put_wide(page, value);
    page.put_byte(end);
}

// Numbers, one space between, and the byte that ends them.
pub(crate) fn put_numbers(page: &mut Page<'_>, values: &[i64], end: u8)
    ensures { Lays (numbers_ended values.now end) page.old page.new }
{
    if let Some((first, others)) = values.split_first() {
        page.put_number(*first);
        for value in others {
            page.put_byte(b' ');
            page.put_number(*value);
        }
    }
    page.put_byte(end);
}

// A word, with the space after it, and numbers, as a line.
#[tactic(auto, using(text::proofs::Laying::laid_on_append))]
pub(crate) fn put_line(page: &mut Page<'_>, word: &[u8], values: &[i64])
    ensures { Lays (word.now ++ numbers_ended values.now line_feed) page.old page.new }
{
    page.put_word(word);
    put_numbers(page, values, b'\n');
}

// How the figure's line begins.
pub(crate) fn put_figure_start(page: &mut Page<'_>, figure: Figure)
    ensures { Lays (line_start (figure_named figure [])) page.old page.new }
{
    let name = figures::name_of(figure);
    page.put_word(b"figure ");
    put_natural(page, u64::from(name.code), b' ');
    put_natural(page, u64::from(name.n), b' ');
}
