// The published examples: the sheets of these names in sheets/, whose values stand as the books have them in sheets/values.py. Where a book
// gives no value, the one expected is that of the independent computation.
ghost use Rattle.std.specs.Prelude.{◌≤◌};

use crate::comparing::{Case, tell_sheets};

pub fn book_000_example_1(rt: &HostRuntime) -> u64
    ensures { result ≤ 2 }
{
    tell_sheets(
        rt,
        &[
            // The book has 11 for angle 6, one tenth less by eye, so that its corrected angles close; the exact correction is 93 / 8.
            Case {
                told: b"000 example 1: misclosures 38, -5, -45; last tenth of angle 6 by eye, exact values compared",
                sheet: b"\x11\x00\x00\x9a\x0f\x89\xc2\xcb\x73\xd3\xa1\xa5\x35\x3c\x4c\xa4\x6b\x96\x25\xa6\x30\x39\x38\x6d\x54\xe8",
                expected: b"figure 1 0 denominator 8\n\
          1 1262065 -79 -10 1262055 1\n2 1846455 -79 -10 1846445 1\n3 2006285 -73 -9 2006276 1\n4 1365233 -73 -9 1365224 1\n\
          5 1657047 93 12 1657059 1\n6 1451430 93 12 1451442 1\n7 1580188 87 11 1580199 1\n8 1791290 87 11 1791301 1\n\
          condition 1 38 0\ncondition 2 -5 1\ncondition 3 -45 1\n",
            },
            // The book's own corrections also serve its second base line, a condition that is not built here. W and the reduced coefficients,
            // which it has as A / 800 to two decimals, know nothing of it.
            Case {
                told: b"000 example 1: W = -148 and the reduced coefficients",
                sheet: b"\x21\x00\x09\xa0\xf3\xdd\x12\x31\x60\x25\x87\x0b\x2b\x6f\x2b\x87\xb8\x0a\x93\xd3\xa0\x97\xa4\xf8\x58\x04\x79\x4d\x4e\x8b\xab\x3d\xd0\x04\x3c\xca\x47\x1d\xe0\x14\xe5\x01\x96\x58\x96\xc6\xec\x83\x93\x80\xf8\x30\x39\x4f\x77\x66\xf0\x80\x6d\x9b\x55\x45\xbc\x7f\x6c\x20\x2c\x80",
                expected: b"figure 1 0 W -148 S 24315176\n\
          1 1262055 2049 242601600 10 1262065 1\n2 1846445 -1703 -201635200 -8 1846437 1\n3 2006276 1483 175587200 7 2006283 1\n4 1365224 -1829 -216553600 -9 1365215 1\n\
          5 1657059 1977 234076800 10 1657069 1\n6 1451441 -1631 -193110400 -8 1451433 1\n7 1580199 1415 167536000 7 1580206 1\n8 1791301 -1761 -208502400 -9 1791292 1\n\
          condition 1 0\ncondition 2 0\ncondition 3 0\n",
            },
        ],
    )
}

pub fn book_000_example_2(rt: &HostRuntime) -> u64
    ensures { result ≤ 2 }
{
    tell_sheets(
        rt,
        &[
            // The book has -1 for angle 6 and 9 for angle 8, each one tenth less by eye; the exact corrections are -4 / 8 and 76 / 8.
            Case {
                told: b"000 example 2: misclosures 16, 19, -18; last tenths of angles 6 and 8 by eye, exact values compared",
                sheet: b"\x11\x00\x01\x5f\x4f\xb1\x2a\x6b\x12\xc1\xe6\x63\x90\x2d\x84\x6f\xeb\x35\xb0\xd4\x2a\xb1\x2e\x3b\xdc\xb4",
                expected: b"figure 1 0 denominator 8\n\
          1 2877942 8 1 2877943 1\n2 1222321 8 1 1222322 1\n3 1445683 -72 -9 1445674 1\n4 934070 -72 -9 934061 1\n\
          5 581590 -4 0 581590 1\n6 3518676 -4 0 3518676 1\n7 1398935 76 10 1398945 1\n8 980781 76 10 980791 1\n\
          condition 1 16 0\ncondition 2 19 1\ncondition 3 -18 2\n",
            },
            // The book has 6 for angle 8, one tenth less by eye, which keeps the sum of angles 5 to 8; the exact correction is 351792000 /
            // 54096480, that is 6.503.
            Case {
                told: b"000 example 2: second corrections; last tenth of angle 8 by eye, exact values compared",
                sheet: b"\x21\x00\x15\xf4\xfb\xdf\x4d\xa4\xd0\x04\xa4\xa9\xac\xae\x7a\x3d\x30\x13\x92\xc1\xe5\x57\x63\x3c\x64\x07\xd0\xe4\x0a\xdb\x7e\x33\x6e\x06\xc4\x46\xfe\xb5\xa1\x1a\xba\x05\xae\xd6\xc3\x4e\xfa\xa2\xd9\x7f\xe4\x2a\xb1\x43\x75\xbf\x3d\x40\x82\x8e\xf7\x36\xb8\x43\x31\x00\x66\x40",
                expected: b"figure 1 0 W 126 S 54096480\n\
          1 2877943 2210 -222768000 -4 2877939 1\n2 1222322 -590 59472000 1 1222323 1\n3 1445674 1922 -193737600 -4 1445670 1\n4 934061 -3542 357033600 7 934068 1\n\
          5 581590 3606 -363484800 -7 581583 1\n6 3518675 -1986 200188800 4 3518679 1\n7 1398945 1870 -188496000 -3 1398942 1\n8 980790 -3490 351792000 7 980797 1\n\
          condition 1 0\ncondition 2 0\ncondition 3 1\n",
            },
        ],
    )
}

pub fn book_001_example_8_1(rt: &HostRuntime) -> u64
    ensures { result ≤ 2 }
{
    tell_sheets(
        rt,
        &[
            // The book gives the misclosures and no corrections.
            Case {
                told: b"001 example 8-1: misclosures 18, -29, -13",
                sheet: b"\x11\x00\x00\xe2\xe4\xf9\x50\x1c\x72\x0c\xcd\x88\x46\xf0\x0a\x79\x70\x9c\x6b\x56\x42\x51\xe2\x41\x65\x2c",
                expected: b"figure 1 0 denominator 8\n\
          1 1858719 -99 -12 1858707 1\n2 1376711 -99 -12 1376699 1\n3 1074796 27 3 1074799 1\n4 2169792 27 3 2169795 1\n\
          5 1372897 89 11 1372908 1\n6 1862486 89 11 1862497 1\n7 2173169 -37 -5 2173164 1\n8 1071435 -37 -5 1071430 1\n\
          condition 1 18 0\ncondition 2 -29 -1\ncondition 3 -13 -1\n",
            },
            // The book goes no further than W.
            Case {
                told: b"001 example 8-1: W = -70",
                sheet: b"\x21\x00\x0e\x2e\x4f\xde\x5c\x16\x10\x14\xe5\x40\x71\xee\xb0\xbb\xc8\x10\xb2\x0c\xcd\x97\x1e\x9e\xa8\x0b\x7a\x11\xbc\x0b\xd9\x0e\x10\x01\xe0\xa7\x97\x0d\xd5\xef\x99\x02\x18\x71\xad\x5a\xf2\xec\xee\x00\xa6\x42\x51\xe3\x7b\x25\xb7\x40\x3c\x10\x59\x4b\xb8\xee\xed\x40\x5c\x00",
                expected: b"figure 1 0 W -70 S 27264872\n\
          1 1858719 1739 97384000 4 1858723 1\n2 1376711 -1733 -97048000 -4 1376707 1\n3 1074796 1945 108920000 4 1074800 1\n4 2169792 -1951 -109256000 -4 2169788 1\n\
          5 1372897 1739 97384000 4 1372901 1\n6 1862486 -1733 -97048000 -4 1862482 1\n7 2173169 1949 109144000 4 2173173 1\n8 1071435 -1955 -109480000 -4 1071431 1\n\
          condition 1 0\ncondition 2 0\ncondition 3 0\n",
            },
        ],
    )
}

// The book's corners a, d, c, b are 1 to 4 here, so its angles stand in the order 1, 2, 3, 10, 11, 12, 7, 9, 8, 4, 5, 6 (sheets/README.md).
pub fn book_004_example_1(rt: &HostRuntime) -> u64
    ensures { result ≤ 2 }
{
    tell_sheets(
        rt,
        &[
            // The book cuts 353 / 24, that is 14.708, to 14 for its angle 11, and gives the tenth to its angle 10, which has 60 where the exact
            // correction is 1427 / 24.
            Case {
                told: b"004 example 1: misclosures 48, -108, 41, -56, -146, 64, 0, 7; last tenths of its angles 10 and 11 by hand, exact values compared",
                sheet: b"\x12\x40\x01\xc1\x13\x39\x64\xaf\x92\x8e\x6a\x0e\xdb\xb2\x0b\xc7\x14\x8f\xe3\x23\x5f\xaf\xfe\x7b\xf6\xdc\xa0\x57\x9a\x25\x7d\x21\xee\xc5\x8c\x44\x92\xa3\xae\xea\xac\x01\x39\x5d\xc1\xb4\x8e\x04\x60",
                expected: b"figure 2 4 denominator 24\n\
          1 3678823 -815 -34 3678789 1\n2 1460985 1552 65 1461050 1\n3 1340240 -1889 -79 1340161 1\n\
          4 3894984 1427 59 3895043 1\n5 1543721 353 15 1543736 1\n6 1041187 812 34 1041221 1\n\
          7 3135487 -197 -8 3135479 1\n8 2031031 -812 -34 2030997 1\n9 1313523 25 1 1313524 1\n\
          10 2250706 -415 -17 2250689 1\n11 1013292 -193 -8 1013284 1\n12 3215946 1952 81 3216027 1\n\
          condition 1 48 0\ncondition 2 -108 0\ncondition 3 41 0\ncondition 4 -56 0\ncondition 5 -146 0\ncondition 6 64 0\ncondition 7 0 0\ncondition 8 7 0\n",
            },
            // The book adds 2.46 and 0.02, the differences of its angles 2 and 6, to 2.56, so that its A are others, and its second corrections,
            // by up to 1.2 tenths. W of both conditions and B are its own.
            Case {
                told: b"004 example 1: W = 252 and -224, and B; A and the corrections are those of its own differences",
                sheet: b"\x22\x40\x12\x88\x32\x42\x5b\x17\x24\x70\x44\x8b\x7d\x17\x8d\x7f\xe9\x96\x4b\x3a\xbb\x2c\x7b\x00\x3d\x8a\x39\x80\xdd\x49\x2f\xe0\x22\xce\xdb\xc1\x2f\x93\xd6\x07\xfb\xb2\xf1\xc6\xf7\x71\x79\xdc\x07\x18\xfe\x34\x5b\x8b\x7a\xa8\x05\xf5\x7e\xbf\xbd\xf5\xcb\x36\x00\x16\x7b\xf6\x56\xf4\xe3\x6d\x00\x8b\x28\x15\xe9\x74\xdb\xae\x40\x8e\xa2\x57\xc1\xbd\xbe\x3d\x80\x1b\x47\xbb\x12\x5c\x41\x6b\x90\x31\x4c\x44\xa6\xef\xae\xfe\xd8\x00\x20",
                expected: b"figure 2 4 W 252 -224 determinant 3813876255227904\n\
          1 3678789 1126 -982 -58962544916889600 -15 3678774 1\n2 1461050 4624 -1024 25634729130393600 7 1461057 1\n\
          3 1340161 -5750 2006 33327815786496000 9 1340170 1\n4 3895044 506 598 65999754790502400 17 3895061 1\n\
          5 1543735 5750 -2006 -33327815786496000 -9 1543726 1\n6 1041221 -6256 1408 -32671939004006400 -9 1041212 1\n\
          7 3135479 538 -2218 -183814731001036800 -48 3135431 1\n8 2030997 6256 -1408 32671939004006400 9 2031006 1\n\
          9 1313524 -6794 3626 151142791997030400 40 1313564 1\n10 2250689 -2170 2602 176777521127424000 46 2250735 1\n\
          11 1013284 6794 -3626 -151142791997030400 -40 1013244 1\n12 3216027 -4624 1024 -25634729130393600 -7 3216020 1\n\
          condition 1 1\ncondition 2 -1\ncondition 3 1\ncondition 4 -1\ncondition 5 0\ncondition 6 0\ncondition 7 0\ncondition 8 0\n",
            },
        ],
    )
}
