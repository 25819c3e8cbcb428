// Document 01, "Sheets worked through": cases 8 to 10.
ghost use Rattle.std.specs.Prelude.{◌≤◌};

use crate::comparing::{Case, tell, tell_sheet, tell_sheets};
use crate::direct::{eight, first_pass_refuses, second_pass_refuses};

pub fn case_8(rt: &HostRuntime) -> u64
    ensures { result ≤ 3 }
{
    let at_the_limit = tell_sheet(
        rt,
        b"case 8: L = 150, a misclosure of -150 passes",
        b"\x11\x02\x58\xc5\xbc\x51\x8b\x82\x03\x17\x04\x06\x2e\x08\x0c\x5c\x10\x18\xb8\x20\x31\x70\x40\x62\xe0\x80",
        b"figure 1 0 denominator 8\n\
          1 1619850 450 56 1619906 1\n2 1620000 450 56 1620056 1\n3 1620000 150 19 1620019 1\n4 1620000 150 19 1620019 1\n\
          5 1620000 -150 -19 1619981 1\n6 1620000 -150 -19 1619981 1\n7 1620000 150 19 1620019 1\n8 1620000 150 19 1620019 1\n\
          condition 1 -150 0\ncondition 2 0 0\ncondition 3 0 0\n",
    );
    let beyond_it = tell(
        rt,
        b"case 8: L = 150, a misclosure of 151 gives 6",
        first_pass_refuses(150, eight(1620151, 1620000), b"refused 6 1\n"),
    );
    let no_limit = tell(
        rt,
        b"case 8: L = 601 gives 3",
        first_pass_refuses(601, eight(1620000, 1620000), b"refused 3 0\n"),
    );
    at_the_limit + beyond_it + no_limit
}

pub fn case_9(rt: &HostRuntime) -> u64
    ensures { result ≤ 2 }
{
    let closed = tell(
        rt,
        b"case 9: all differences 0, W = 0, gives 10",
        second_pass_refuses(eight(98494850, 98494850), b"refused 10 0\n"),
    );
    let open = tell(
        rt,
        b"case 9: all differences 0, W = 100, gives 10",
        second_pass_refuses(eight(98494950, 98494850), b"refused 10 0\n"),
    );
    closed + open
}

pub fn case_10(rt: &HostRuntime) -> u64
    ensures { result ≤ 2 }
{
    tell_sheets(
        rt,
        &[
            Case {
                told: b"case 10: an empty sheet gives 12",
                sheet: b"",
                expected: b"refused 12 0\n",
            },
            // The first printed sheet of document 01, and a byte of 0 after it.
            Case {
                told: b"case 10: a kind 1 sheet of code 1 with 27 bytes gives 12",
                sheet: b"\x11\x00\x00\xc5\xc1\x21\x8b\x82\x03\x17\x04\x06\x2e\x08\x0c\x5c\x10\x18\xb8\x20\x31\x70\x40\x62\xe0\x80\x00",
                expected: b"refused 12 0\n",
            },
        ],
    )
}
