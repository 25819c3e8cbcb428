// Document 02, M-102: what L = 0 stands for, in a sheet of each kind for the first pass and where the pass is called directly. The
// sheets' texts are those of the independent computation.
ghost use Rattle.std.specs.Prelude.{◌≤◌};

use crate::comparing::{Case, tell, tell_sheets};
use crate::direct::{eight, first_pass_refuses};

pub fn kind_1(rt: &HostRuntime) -> u64
    ensures { result ≤ 2 }
{
    tell_sheets(
        rt,
        &[
            Case {
                told: b"kind 1, L = 0, a misclosure of -150 passes",
                sheet: b"\x11\x00\x00\xc5\xbc\x51\x8b\x82\x03\x17\x04\x06\x2e\x08\x0c\x5c\x10\x18\xb8\x20\x31\x70\x40\x62\xe0\x80",
                expected: b"figure 1 0 denominator 8\n\
          1 1619850 450 56 1619906 1\n2 1620000 450 56 1620056 1\n3 1620000 150 19 1620019 1\n4 1620000 150 19 1620019 1\n\
          5 1620000 -150 -19 1619981 1\n6 1620000 -150 -19 1619981 1\n7 1620000 150 19 1620019 1\n8 1620000 150 19 1620019 1\n\
          condition 1 -150 0\ncondition 2 0 0\ncondition 3 0 0\n",
            },
            Case {
                told: b"kind 1, L = 0, a misclosure of 151 gives 6",
                sheet: b"\x11\x00\x00\xc5\xc1\x01\x8b\x82\x03\x17\x04\x06\x2e\x08\x0c\x5c\x5b\x98\xb8\x20\x31\x70\x40\x62\xe0\x80",
                expected: b"refused 6 2\n",
            },
        ],
    )
}

pub fn kind_3(rt: &HostRuntime) -> u64
    ensures { result ≤ 2 }
{
    tell_sheets(
        rt,
        &[
            Case {
                told: b"kind 3, L = 0, a misclosure of 90 passes",
                sheet: b"\x31\x00\x00\xc5\xc1\x01\x8b\x82\x03\x17\x04\x06\x2e\x08\x0c\x5c\x3d\x18\xb8\x20\x31\x70\x40\x62\xe0\x80",
                expected: b"figure 1 0 denominator 8\n\
          1 1620000 90 11 1620011 1\n2 1620000 90 11 1620011 1\n3 1620000 -90 -11 1619989 1\n4 1620000 -90 -11 1619989 1\n\
          5 1620090 -270 -34 1620056 1\n6 1620000 -270 -34 1619966 1\n7 1620000 -90 -11 1619989 1\n8 1620000 -90 -11 1619989 1\n\
          condition 1 0 0\ncondition 2 90 0\ncondition 3 90 0\n",
            },
            Case {
                told: b"kind 3, L = 0, a misclosure of 91 gives 6",
                sheet: b"\x31\x00\x00\xc5\xc1\x01\x8b\x82\x03\x17\x04\x06\x2e\x08\x0c\x5c\x3d\x98\xb8\x20\x31\x70\x40\x62\xe0\x80",
                expected: b"refused 6 2\n",
            },
        ],
    )
}

pub fn direct(rt: &HostRuntime) -> u64
    ensures { result ≤ 1 }
{
    tell(
        rt,
        b"a direct call, L = 0, a misclosure of 91 gives 6",
        first_pass_refuses(0, eight(1620091, 1620000), b"refused 6 1\n"),
    )
}
