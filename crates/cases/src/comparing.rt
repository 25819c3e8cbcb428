// A case's line, and the comparison: whatever is compared is text, against the bytes that are expected.
ghost use Rattle.std.specs.Prelude.{◌≡◌, ◌≤◌, length, take};
ghost use Rattle.cases.specs.Told.{Tells, counted};

use report::{LONGEST_TEXT, report};
use std::io::Write;

// The line of a case, and 1 where it came out as expected.
pub fn tell(rt: &HostRuntime, case: &[u8], as_expected: bool) -> u64
    ensures { (result ≡ counted as_expected) × (result ≤ 1) }
{
    let _ = rt.stdout().write_all(case);
    if as_expected {
        let _ = rt.stdout().write_all(b": as expected\n");
        1
    } else {
        let _ = rt.stdout().write_all(b": NOT as expected\n");
        0
    }
}

// A case that is a sheet and its text.
pub fn tell_sheet(rt: &HostRuntime, case: &[u8], sheet: &[u8], expected: &[u8]) -> u64
    ensures { result ≤ 1 }
{
    tell(rt, case, prints(sheet, expected))
}

// A case that is a sheet, and the text that it should print.
#[derive(Clone, Copy)]
pub struct Case<'a> {
    pub told: &'a [u8],
    pub sheet: &'a [u8],
    pub expected: &'a [u8],
}

// The lines of such cases, and how many came out as expected.
pub fn tell_sheets(rt: &HostRuntime, cases: &[Case]) -> u64
    ensures { result ≤ length cases.now }
{
    let mut as_expected = 0;
    for case in cases {
        as_expected += tell_sheet(rt, case.told, case.sheet, case.expected);
    }
    as_expected
}

// Whether a sheet's text is exactly these bytes.
fn prints(sheet: &[u8], expected: &[u8]) -> bool {
    let mut text = [0; LONGEST_TEXT];
    match report(sheet, &mut text) {
        Some(end) => holds(&text, end, expected),
        None => false,
    }
}

// Whether the text that ends there is exactly these bytes.
pub fn holds(text: &[u8], end: usize, expected: &[u8]) -> bool
    ensures { Tells result ((end ≤ length text.now) × (take end text.now ≡ expected.now)) }
{
    if end > text.len() {
        return false;
    }
    &text[..end] == expected
}
