// A sheet's text, from its bytes: document 01, "Sheets worked through".
ghost use Rattle.std.specs.Prelude.{◌≡◌};
ghost use Rattle.text.specs.Text.{laid};
ghost use Rattle.report.specs.Report.{ReportedPromise};

use pass_sheet::worked_lines;
use text::Page;

// The text of any bytes has at most so many.
pub const LONGEST_TEXT: usize = 2048;

// How many bytes of text were written, or none, for want of room. Laid by itself first, so that a slice without room is left as it was.
#[tactic(auto, using(crate::proofs::Reports::end_within))]
pub fn report(sheet: &[u8], lent: &mut [u8]) -> Option<usize>
    ensures promise { ReportedPromise sheet.now lent.old result lent.new }
{
    let mut buffer = [0u8; LONGEST_TEXT];
    let end = worked_lines(&mut buffer, sheet);
    if end > lent.len() {
        return None;
    }
    lay(&buffer[..end], lent);
    Some(end)
}

// From the start of what is lent; what lies past the text is left as it was.
#[tactic(auto, unfolding(text::specs::Page::laid_on))]
fn lay(text: &[u8], lent: &mut [u8])
    ensures { lent.new ≡ laid lent.old 0 text.now }
{
    let mut page = Page::new(lent);
    page.put_word(text);
    page.finish();
}
