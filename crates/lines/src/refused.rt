// The line of a refusal: document 01, "Sheets worked through".
// A cast by `as` stands where the library has no `From`, to a narrower type or to and from usize; each is proved to keep its value.
ghost use Rattle.text.specs.Holds.{Holds};
ghost use Rattle.text.specs.Page.{Lays};
ghost use Rattle.lines.specs.Lines.{refused_text};

use crate::put::put_natural;
use refusals::Refusal;
use text::Page;

pub fn refused_lines(buffer: &mut [u8], refusal: Refusal) -> usize
    ensures { Holds buffer.old (refused_text refusal) buffer.new result }
{
    let mut page = Page::new(buffer);
    put_refused(&mut page, refusal);
    page.finish()
}

fn put_refused(page: &mut Page<'_>, refusal: Refusal)
    ensures { Lays (refused_text refusal) page.old page.new }
{
    let number = u64::from(refusal.number());
    let place = refusal.place() as u64;
    page.put_word(b"refused ");
    put_natural(page, number, b' ');
    put_natural(page, place, b'\n');
}
