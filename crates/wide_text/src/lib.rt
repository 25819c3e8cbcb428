// Numbers wider than 64 bits laid as decimal text on a page: document 01, "Sheets worked through". What a number's text is, and what a
// text without room leaves, are definitions of `text`, and every public function answers every input as they say.
#![tactic(auto)]

ghost use Rattle.text.specs.Page.{Lays};
ghost use Rattle.text.specs.Text.{decimal as Text·decimal};
ghost use Rattle.wide.specs.Wide.{value_of};

use itoa::Buffer;
use text::Page;
use wide::Wide;

// Lays a number in decimal.
#[tactic(auto, using(text::proofs::Laying::laid_on_append, text::proofs::Spelling::spelled_wide, crate::proofs::Decimals::decimal_below, crate::proofs::Decimals::decimal_other))]
pub fn put_wide(page: &mut Page<'_>, value: Wide)
    ensures { Lays (Text·decimal (value_of value)) page.old page.new }
{
    if wide::is_negative(value) {
        page.put_byte(b'-');
    }
    let mut digits = Buffer::new();
    page.put_word(digits.format(value.size).as_bytes());
}
