// Fields packed one after the other, without gaps: document 01, "Packed sheets". What does not yet fill four bytes is held as a number,
// so that bytes go out whole, four at a time (M-103).
// A cast by `as` stands where the library has no `From`, to a narrower type or to and from usize; each is proved to keep its value.
ghost use Rattle.std.specs.Prelude.{[], ◌∷◌, ◌++◌, ◌≡◌, ◌+◌, ◌^◌, ◌≤◌, ◌<◌, length, take};
ghost use Rattle.bits.specs.Bits.{byte_count, bytes_of};
ghost use Rattle.sheet_writer.specs.Parts.{field_from};
ghost use Rattle.sheet_writer.specs.Packer.{packed_so_far, packed_count, WellHeld, HasRoom, Packs, word_bytes};

// The last `count` bits of `held` are not out yet, and go to the byte of index `at`. Those before them are of no account: they are shifted
// out in time. Passed on by value: a struct with the sheet in it, changed in place, was up to 12 in 100 slower.
#[derive(Clone, Copy)]
pub(crate) struct Packer {
    pub(crate) held: u64,
    pub(crate) count: u32,
    pub(crate) at: usize,
}

// 2 to the bits of four bytes.
const WORDS: u64 = 4_294_967_296;

fn put_word(sheet: &mut [u8], at: usize, word: u32)
    requires { at + 4 ≤ length sheet.old }
    ensures { take (at + 4) sheet.new ≡ take at sheet.old ++ word_bytes word }
{
    sheet[at..at + 4].copy_from_slice(&word.to_be_bytes());
}

// The last bits of `value`, as many as the field is wide.
pub(crate) fn put(sheet: &mut [u8], packer: Packer, width: u32, value: u32) -> Packer
    requires has_room { HasRoom sheet.old packer width }
    requires width_bound { width ≤ 32 }
    ensures { Packs sheet.old packer (field_from width value ∷ []) sheet.new result }
{
    let field = u64::from(value) % (1 << width);
    let held = (packer.held << width) + field;
    let count = packer.count + width;
    let at = packer.at;
    if count < 32 {
        return Packer { held, count, at };
    }
    let left = count - 32;
    put_word(sheet, at, ((held >> left) % WORDS) as u32);
    Packer {
        held,
        count: left,
        at: at + 4,
    }
}

// What is held goes out, and zero bits after it up to the end of the sheet.
pub(crate) fn finish(sheet: &mut [u8], packer: Packer)
    requires well_held { WellHeld packer }
    requires packer_value { byte_count (packed_count packer) ≡ length sheet.old }
    ensures { sheet.new ≡ bytes_of (packed_so_far sheet.old packer) }
{
    let mut rest = (packer.held << (32 - packer.count)) % WORDS;
    for at in packer.at..sheet.len() {
        sheet[at] = (rest / 16_777_216) as u8;
        rest = rest % 16_777_216 * 256;
    }
}
