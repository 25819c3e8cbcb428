// A sheet from standard input, its text to standard output.
ghost use Rattle.std.specs.Prelude.{◌≡◌, length};
ghost use Rattle.report.specs.Report.{report_text};

use report::{LONGEST_TEXT, report};
use std::io::{Read, Write};

// Works what standard input holds, read until it gives no more. Bytes that an error cut off are no sheet.
pub(crate) fn work_input(rt: &HostRuntime) {
    // One byte more than the longest sheet, so that a sheet that is too long is seen. When it is full, the next read has
    // no room and ends the loop, which counts no index: it reads until nothing more comes. That a read failed is kept beside it, since what
    // came before it is not worked.
    let mut sheet = [0u8; 223];
    let mut size = 0;
    let mut more = 1;
    let mut has_failed = false;
    while more > 0 {
        match rt.stdin().read(&mut sheet[size..]) {
            Ok(got) => more = got,
            Err(_) => {
                has_failed = true;
                more = 0;
            }
        }
        size += more;
    }
    if has_failed {
        let _ = rt
            .stderr()
            .write_all(b"adjust: the sheet could not be read\n");
        return;
    }
    print_report(rt, &sheet[..size]);
}

// Writes the lines of a worked sheet, or its refusal, and answers how many bytes they have. What becomes of them is the
// operating system's part; a program has no status of its own, so that bytes which it did not take are told on standard
// error.
fn print_report(rt: &HostRuntime, sheet: &[u8]) -> usize
    ensures { result ≡ length (report_text sheet.now) }
{
    let mut text = [0u8; LONGEST_TEXT];
    match report(sheet, &mut text) {
        Some(end) => {
            tell_unless_whole(rt, rt.stdout().write_all(&text[..end]).is_ok());
            end
        }
        None => 0,
    }
}

fn tell_unless_whole(rt: &HostRuntime, is_whole: bool) {
    if !is_whole {
        let _ = rt
            .stderr()
            .write_all(b"adjust: the text was not written whole\n");
    }
}
