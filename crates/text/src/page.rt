// A page: a lent byte slice, and the position after what was laid on it.
ghost use Rattle.std.specs.Prelude.{◌≡◌, ◌+◌, ◌≤◌, ◌<◌, [], ◌∷◌, pos, length};
ghost use Rattle.text.specs.Text.{natural, decimal as Text·decimal};
ghost use Rattle.text.specs.Page.{place, place_of, Lays};

use itoa::Buffer;

// Where a text has no room, it is laid as far as the slice reaches, and the position is past the end, so that nothing is laid after it.
#[derive(Drop)]
pub struct Page<'a> {
    buffer: &'a mut [u8],
    at: usize,
}

impl<'a> Page<'a> {
    // Nothing is laid yet.
    pub fn new(buffer: &'a mut [u8]) -> Page<'a>
        ensures same { result.buffer.ghost_name ≡ buffer.entry.ghost_name }
        ensures place { place_of result ≡ place buffer.old 0 }
    {
        Page { buffer, at: 0 }
    }

    // What was laid before ends at that position; where it is past the end, nothing more is laid.
    pub fn resumed(buffer: &'a mut [u8], at: usize) -> Page<'a>
        ensures same { result.buffer.ghost_name ≡ buffer.entry.ghost_name }
        ensures place { place_of result ≡ place buffer.old at }
    {
        Page { buffer, at }
    }

    // Lays a word, or any bytes.
    #[tactic(auto, unfolding(crate::specs::Text::laid, crate::specs::Text::after, crate::specs::Page::laid_on))]
    pub fn put_word(&mut self, word: &[u8])
        ensures { Lays word.now self.old self.new }
    {
        let size = self.buffer.len();
        if self.at > size {
            self.at = size + 1;
            return;
        }
        let room = size - self.at;
        let count = word.len().min(room);
        whole::copy_over(&word[..count], &mut self.buffer[self.at..self.at + count]);
        if count < word.len() {
            self.at = size + 1;
        } else {
            self.at += count;
        }
    }

    // Lays one byte, as a space or a line feed.
    #[tactic(auto, using(crate::proofs::Laying::laid_byte, crate::proofs::Laying::laid_past, crate::proofs::Laying::after_none, crate::proofs::Laying::after_room), unfolding(crate::specs::Page::laid_on))]
    pub fn put_byte(&mut self, byte: u8)
        ensures { Lays (byte ∷ []) self.old self.new }
    {
        let size = self.buffer.len();
        if self.at >= size {
            self.at = size + 1;
            return;
        }
        self.buffer[self.at] = byte;
        self.at += 1;
    }

    // Lays a number in decimal.
    #[tactic(auto, using(crate::proofs::Laying::laid_on_append, crate::proofs::Numbers::decimal_below, crate::proofs::Numbers::decimal_other), unfolding(crate::specs::Text::decimal))]
    pub fn put_number(&mut self, number: i64)
        ensures { Lays (Text·decimal number) self.old self.new }
    {
        if number < 0 {
            self.put_byte(b'-');
        }
        self.put_natural(number.unsigned_abs());
    }

    // Lays a number from 0 up, of the whole unsigned range.
    #[tactic(auto, unfolding(crate::specs::Text::decimal))]
    pub fn put_natural(&mut self, value: u64)
        ensures { Lays (Text·decimal (pos value)) self.old self.new }
    {
        let count = digit_count(value);
        let size = self.buffer.len();
        if self.at <= size && count <= size - self.at {
            self.put_digits(count, value);
        } else {
            self.put_cut(value);
        }
    }

    // In place, where all of them have room.
    fn put_digits(&mut self, count: usize, value: u64)
        requires count { count ≡ length (natural value) }
        requires room { self.old.at + count ≤ length self.old.buffer.now }
        ensures { Lays (natural value) self.old self.new }
    {
        let end = self.at + count;
        itoa::write_digits(value, self.buffer, end);
        self.at = end;
    }

    // A text that the end of the slice cuts short lacks its last digits, which are found first: so it is spelled apart.
    #[tactic(auto, using(crate::proofs::Spelling::spelled))]
    fn put_cut(&mut self, value: u64)
        ensures { Lays (natural value) self.old self.new }
    {
        let mut digits = Buffer::new();
        self.put_word(digits.format(value).as_bytes());
    }

    // The position after what is laid, or past the end where it had no room.
    pub fn finish(self) -> usize
        ensures value { result ≡ self.entry.at }
        ensures kept { self.exit.0.now ≡ self.entry.buffer.now }
    {
        let position = self.at;
        position
    }
}

// Four at a time, and then what is left of them.
#[tactic(auto, using(crate::proofs::Numbers::length_four_more, crate::proofs::Numbers::length_word))]
fn digit_count(value: u64) -> usize
    ensures { result ≡ length (natural value) }
{
    let mut uncounted = value;
    let mut count = 0;
    while uncounted >= 10_000 {
        uncounted /= 10_000;
        count += 4;
    }
    count + short_count(uncounted)
}

#[tactic(auto, using(crate::proofs::Numbers::length_last, crate::proofs::Numbers::length_before))]
fn short_count(value: u64) -> usize
    requires { value < 10000 }
    ensures { result ≡ length (natural value) }
{
    if value < 10 {
        1
    } else if value < 100 {
        2
    } else if value < 1000 {
        3
    } else {
        4
    }
}
