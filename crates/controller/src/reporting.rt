// A sheet's text for C.
// A cast by `as` stands where the library has no `From`, to a narrower type or to and from usize; each is proved to keep its value.
ghost use Rattle.controller.specs.Promises.{text_lent, ReportPromise};

use crate::answer::{DONE, refused};
use refusals::Refusal;
use report::report;

// How many bytes the text has.
const WRITTEN_LENGTH: usize = 1;

pub fn bienguloc_report(sheet: &[u8], text: &mut [u8], written: &mut [u64]) -> u32
    ensures { ReportPromise sheet.now
        (text_lent text.old written.old) result (text_lent text.new written.new) }
{
    if written.len() != WRITTEN_LENGTH {
        return refused(Refusal::WrongLength);
    }
    match report(sheet, text) {
        None => refused(Refusal::WrongLength),
        Some(count) => {
            written[0] = count as u64;
            DONE
        }
    }
}
