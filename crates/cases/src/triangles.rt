// Accepted sheets of codes 2 and 3, for both passes: bytes and texts of the independent computation (sheets/), a row for each triangle.
ghost use Rattle.std.specs.Prelude.{◌≤◌};

use crate::comparing::{Case, tell_sheets};

pub fn point_in_triangle(rt: &HostRuntime) -> u64
    ensures { result ≤ 2 }
{
    tell_sheets(
        rt,
        &[
            Case {
                told: b"code 2, n = 3, a sheet of kind 1",
                sheet: b"\x12\x30\x02\x2a\x3b\x48\xe8\x0b\x91\xe3\x0b\x0f\xec\xa3\xc8\x85\x29\x92\x23\x9f\x81\x8e\x06\x47\xb6\x30\x81\x5e\x81\xea\xc8\xb4\x04\x55\x89\x04\x52\x40",
                expected: b"figure 2 3 denominator 10\n\
          1 4540265 28 3 4540268 1\n2 950457 -15 -2 950455 1\n3 989272 47 5 989277 1\n\
          4 4174479 -56 -6 4174473 1\n5 1116755 -37 -4 1116751 1\n6 1188767 83 8 1188775 1\n\
          7 4245251 78 8 4245259 1\n8 1174924 217 22 1174946 1\n9 1059792 35 4 1059796 1\n\
          condition 1 -6 0\ncondition 2 1 -1\ncondition 3 -33 1\ncondition 4 -2 0\ncondition 5 -1 0\ncondition 6 -30 0\n",
            },
            Case {
                told: b"code 2, n = 3, a sheet of kind 2",
                sheet: b"\x22\x30\x22\xa3\xb6\x5e\x7b\xc0\x9f\xec\xc3\xa0\x2d\xee\x01\x60\x78\x1a\x81\xe3\x0b\xb7\x0a\x81\xa8\x0c\xab\xfb\x28\x9b\xdd\xa9\xf3\xfe\x64\x88\x52\x7d\xc9\xf3\x00\x02\xbc\x48\x8e\x9e\xe6\xd3\x47\x81\x44\x81\x8e\x17\x7b\x6b\x43\x7f\xc8\x11\xed\xa2\xb9\x9e\xc8\xa0\x52\x48\x15\xea\x5c\x6c\xee\x80\x2e\xa0",
                expected: b"figure 2 3 W -141 S 81253110\n\
          1 4540268 -84 -11844000 0 4540268 1\n2 950455 3799 535659000 7 950462 1\n3 989277 -3715 -523815000 -6 989271 1\n\
          4 4174473 -204 -28764000 0 4174473 1\n5 1116751 3715 523815000 6 1116757 1\n6 1188775 -3511 -495051000 -6 1188769 1\n\
          7 4245259 288 40608000 0 4245259 1\n8 1174946 3511 495051000 6 1174952 1\n9 1059796 -3799 -535659000 -7 1059789 1\n\
          condition 1 1\ncondition 2 0\ncondition 3 -1\ncondition 4 0\ncondition 5 0\ncondition 6 0\n",
            },
        ],
    )
}

pub fn point_in_quadrilateral(rt: &HostRuntime) -> u64
    ensures { result ≤ 2 }
{
    tell_sheets(
        rt,
        &[
            Case {
                told: b"code 2, n = 4, a sheet of kind 1",
                sheet: b"\x12\x40\x01\xba\xe2\xe1\x65\xdb\x32\xa4\xcf\x4a\xab\xf6\x8f\x5d\xd9\x99\x74\xe1\x62\x04\x24\x5e\xd5\xc4\xd1\x4a\x6b\x2b\x30\xa2\xcf\xf1\xc6\x6b\x80\x58\x05\xdc\xb3\xe2\x2d\x62\x54\x86\xc2\xa3\x5c",
                expected: b"figure 2 4 denominator 24\n\
          1 3628124 -302 -13 3628111 1\n2 1465779 226 9 1465788 1\n3 1386106 -140 -6 1386100 1\n\
          4 2797530 -22 -1 2797529 1\n5 2014131 140 6 2014137 1\n6 1668321 314 13 1668334 1\n\
          7 3211794 -1010 -42 3211752 1\n8 1553777 -674 -28 1553749 1\n9 1714509 -236 -10 1714499 1\n\
          10 3322634 -634 -26 3322608 1\n11 1474446 140 6 1474452 1\n12 1682945 -106 -4 1682941 1\n\
          condition 1 9 -1\ncondition 2 -18 0\ncondition 3 80 0\ncondition 4 25 1\ncondition 5 -5 0\ncondition 6 0 0\ncondition 7 15 0\ncondition 8 4 0\n",
            },
            Case {
                told: b"code 2, n = 4, a sheet of kind 2",
                sheet: b"\x22\x40\x11\xf4\x34\x82\x3c\x3c\x36\x6e\xb8\x9f\x7d\x2c\xb9\xbf\xec\x16\x5d\xbc\xbb\x32\x27\x40\x3d\x4a\x93\x3a\x5d\x67\x90\x00\x21\x2a\xab\xf6\x6f\xa2\xbd\x18\x02\xe3\xd7\x77\x37\xa5\xa7\xd8\x04\x71\x97\x4e\xeb\xc0\xdb\xbc\x03\x25\x88\x0f\x45\xf5\xdf\x69\x00\x06\x5e\xd5\x56\xee\x5b\x5d\x00\xe1\x34\x52\x87\x78\x74\x0a\x80\x60\x32\xb2\xf0\xbe\xba\x6c\x9f\xfe\x0b\x3f\xca\x5d\x9e\x3a\xd0\x1e\x66\x6b\x7f\x6f\x06\xfd\x88\x0c\x60",
                expected: b"figure 2 4 W -290 43 determinant 920843533810944\n\
          1 3628111 -189 -650 -15867082251302400 -17 3628094 1\n2 1465788 5211 -1256 22029318912614400 24 1465812 1\n3 1386100 -5022 1906 -6162236661312000 -7 1386093 1\n\
          4 2797529 87 938 21142354030732800 23 2797552 1\n5 2014137 5022 -1906 6162236661312000 7 2014144 1\n6 1668334 -5109 968 -27304590692044800 -30 1668304 1\n\
          7 3211752 81 -998 -20854732654656000 -23 3211729 1\n8 1553749 5109 -968 27304590692044800 30 1553779 1\n9 1714499 -5190 1966 -6449858037388800 -7 1714492 1\n\
          10 3322608 21 710 15579460875225600 17 3322625 1\n11 1474452 5190 -1966 6449858037388800 7 1474459 1\n12 1682941 -5211 1256 -22029318912614400 -24 1682917 1\n\
          condition 1 0\ncondition 2 0\ncondition 3 0\ncondition 4 0\ncondition 5 0\ncondition 6 0\ncondition 7 0\ncondition 8 0\n",
            },
        ],
    )
}

pub fn central_triangle(rt: &HostRuntime) -> u64
    ensures { result ≤ 2 }
{
    tell_sheets(
        rt,
        &[
            Case {
                told: b"code 3, n = 3, a sheet of kind 1",
                sheet: b"\x13\x30\x02\x07\xdd\x09\x13\xb7\xe2\x15\x27\x6f\xf1\x8c\x08\x49\x63\x12\x87\x90\x89\xfe\x50\x3e\x01\x00\x73\x09\x80",
                expected: b"figure 3 3 denominator 18\n\
          1 4258721 254 14 4258735 1\n2 1129342 215 12 1129354 1\n3 1091899 215 12 1091911 1\n\
          4 4179504 -10 -1 4179503 1\n5 1086150 -49 -3 1086147 1\n6 1214352 -49 -3 1214349 1\n\
          7 4521768 -118 -7 4521761 1\n8 1015872 -157 -9 1015863 1\n9 942384 -157 -9 942375 1\n\
          condition 1 -38 0\ncondition 2 6 -1\ncondition 3 24 -1\ncondition 4 -7 -1\n",
            },
            Case {
                told: b"code 3, n = 3, a sheet of kind 2",
                sheet: b"\x23\x30\x20\x7d\xd7\xde\xd7\x1d\x8f\xf1\xe4\x4e\xe2\xae\x54\xf1\x78\x15\x92\x15\x28\xf7\x22\x6a\x48\x0b\x43\xfc\x62\xfb\xdd\x81\x8b\xfe\x64\x84\x96\x1d\xc8\x49\x48\x02\xd4\x4a\x1e\x36\xe7\x72\xed\x01\x3b\x89\xfe\x43\x7a\x0a\x84\x7f\xb4\x8f\x80\x37\xb8\x87\xc9\xe0\x62\x07\x30\x93\xdb\xfa\x58\x90\x35\x80",
                expected: b"figure 3 3 W -47 S 263897280\n\
          1 4258735 82 6937200 0 4258735 1\n2 1129354 6304 533318400 2 1129356 1\n3 1091911 -6386 -540255600 -2 1091909 1\n\
          4 4179503 -290 -24534000 0 4179503 1\n5 1086147 6238 527734800 2 1086149 1\n6 1214349 -5948 -503200800 -2 1214347 1\n\
          7 4521761 208 17596800 0 4521761 1\n8 1015863 7276 615549600 2 1015865 1\n9 942375 -7484 -633146400 -2 942373 1\n\
          condition 1 0\ncondition 2 0\ncondition 3 0\ncondition 4 0\n",
            },
        ],
    )
}
