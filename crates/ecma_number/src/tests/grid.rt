//! What node answers for the operators on each pair of a small grid, row by row, by exact integers
//! where both sides are whole. `none` stands for a result outside the domain.

pub(super) const GRID: &str =
    "0 -0 1 -1 2 7 -7 2147483648 -2147483648 4294967297 9007199254740991 NaN Infinity -Infinity";

pub(super) const ADD: &str = "\
    0 0 1 -1 2 7 -7 2147483648 -2147483648 4294967297 9007199254740991 NaN Infinity -Infinity \
    0 -0 1 -1 2 7 -7 2147483648 -2147483648 4294967297 9007199254740991 NaN Infinity -Infinity \
    1 1 2 0 3 8 -6 2147483649 -2147483647 4294967298 none NaN Infinity -Infinity \
    -1 -1 0 -2 1 6 -8 2147483647 -2147483649 4294967296 9007199254740990 NaN Infinity -Infinity \
    2 2 3 1 4 9 -5 2147483650 -2147483646 4294967299 none NaN Infinity -Infinity \
    7 7 8 6 9 14 0 2147483655 -2147483641 4294967304 none NaN Infinity -Infinity \
    -7 -7 -6 -8 -5 0 -14 2147483641 -2147483655 4294967290 9007199254740984 NaN Infinity -Infinity \
    2147483648 2147483648 2147483649 2147483647 2147483650 2147483655 2147483641 4294967296 0 6442450945 none NaN Infinity -Infinity \
    -2147483648 -2147483648 -2147483647 -2147483649 -2147483646 -2147483641 -2147483655 0 -4294967296 2147483649 9007197107257343 NaN Infinity -Infinity \
    4294967297 4294967297 4294967298 4294967296 4294967299 4294967304 4294967290 6442450945 2147483649 8589934594 none NaN Infinity -Infinity \
    9007199254740991 9007199254740991 none 9007199254740990 none none 9007199254740984 none 9007197107257343 none none NaN Infinity -Infinity \
    NaN NaN NaN NaN NaN NaN NaN NaN NaN NaN NaN NaN NaN NaN \
    Infinity Infinity Infinity Infinity Infinity Infinity Infinity Infinity Infinity Infinity Infinity NaN Infinity NaN \
    -Infinity -Infinity -Infinity -Infinity -Infinity -Infinity -Infinity -Infinity -Infinity -Infinity -Infinity NaN NaN -Infinity \
";

pub(super) const SUB: &str = "\
    0 0 -1 1 -2 -7 7 -2147483648 2147483648 -4294967297 -9007199254740991 NaN -Infinity Infinity \
    -0 0 -1 1 -2 -7 7 -2147483648 2147483648 -4294967297 -9007199254740991 NaN -Infinity Infinity \
    1 1 0 2 -1 -6 8 -2147483647 2147483649 -4294967296 -9007199254740990 NaN -Infinity Infinity \
    -1 -1 -2 0 -3 -8 6 -2147483649 2147483647 -4294967298 none NaN -Infinity Infinity \
    2 2 1 3 0 -5 9 -2147483646 2147483650 -4294967295 -9007199254740989 NaN -Infinity Infinity \
    7 7 6 8 5 0 14 -2147483641 2147483655 -4294967290 -9007199254740984 NaN -Infinity Infinity \
    -7 -7 -8 -6 -9 -14 0 -2147483655 2147483641 -4294967304 none NaN -Infinity Infinity \
    2147483648 2147483648 2147483647 2147483649 2147483646 2147483641 2147483655 0 4294967296 -2147483649 -9007197107257343 NaN -Infinity Infinity \
    -2147483648 -2147483648 -2147483649 -2147483647 -2147483650 -2147483655 -2147483641 -4294967296 0 -6442450945 none NaN -Infinity Infinity \
    4294967297 4294967297 4294967296 4294967298 4294967295 4294967290 4294967304 2147483649 6442450945 0 -9007194959773694 NaN -Infinity Infinity \
    9007199254740991 9007199254740991 9007199254740990 none 9007199254740989 9007199254740984 none 9007197107257343 none 9007194959773694 0 NaN -Infinity Infinity \
    NaN NaN NaN NaN NaN NaN NaN NaN NaN NaN NaN NaN NaN NaN \
    Infinity Infinity Infinity Infinity Infinity Infinity Infinity Infinity Infinity Infinity Infinity NaN NaN Infinity \
    -Infinity -Infinity -Infinity -Infinity -Infinity -Infinity -Infinity -Infinity -Infinity -Infinity -Infinity NaN -Infinity NaN \
";

pub(super) const MUL: &str = "\
    0 -0 0 -0 0 0 -0 0 -0 0 0 NaN NaN NaN \
    -0 0 -0 0 -0 -0 0 -0 0 -0 -0 NaN NaN NaN \
    0 -0 1 -1 2 7 -7 2147483648 -2147483648 4294967297 9007199254740991 NaN Infinity -Infinity \
    -0 0 -1 1 -2 -7 7 -2147483648 2147483648 -4294967297 -9007199254740991 NaN -Infinity Infinity \
    0 -0 2 -2 4 14 -14 4294967296 -4294967296 8589934594 none NaN Infinity -Infinity \
    0 -0 7 -7 14 49 -49 15032385536 -15032385536 30064771079 none NaN Infinity -Infinity \
    -0 0 -7 7 -14 -49 49 -15032385536 15032385536 -30064771079 none NaN -Infinity Infinity \
    0 -0 2147483648 -2147483648 4294967296 15032385536 -15032385536 none none none none NaN Infinity -Infinity \
    -0 0 -2147483648 2147483648 -4294967296 -15032385536 15032385536 none none none none NaN -Infinity Infinity \
    0 -0 4294967297 -4294967297 8589934594 30064771079 -30064771079 none none none none NaN Infinity -Infinity \
    0 -0 9007199254740991 -9007199254740991 none none none none none none none NaN Infinity -Infinity \
    NaN NaN NaN NaN NaN NaN NaN NaN NaN NaN NaN NaN NaN NaN \
    NaN NaN Infinity -Infinity Infinity Infinity -Infinity Infinity -Infinity Infinity Infinity NaN Infinity -Infinity \
    NaN NaN -Infinity Infinity -Infinity -Infinity Infinity -Infinity Infinity -Infinity -Infinity NaN -Infinity Infinity \
";

pub(super) const DIV: &str = "\
    NaN NaN 0 -0 0 0 -0 0 -0 0 0 NaN 0 -0 \
    NaN NaN -0 0 -0 -0 0 -0 0 -0 -0 NaN -0 0 \
    Infinity -Infinity 1 -1 none none none none none none none NaN 0 -0 \
    -Infinity Infinity -1 1 none none none none none none none NaN -0 0 \
    Infinity -Infinity 2 -2 1 none none none none none none NaN 0 -0 \
    Infinity -Infinity 7 -7 none 1 -1 none none none none NaN 0 -0 \
    -Infinity Infinity -7 7 none -1 1 none none none none NaN -0 0 \
    Infinity -Infinity 2147483648 -2147483648 1073741824 none none 1 -1 none none NaN 0 -0 \
    -Infinity Infinity -2147483648 2147483648 -1073741824 none none -1 1 none none NaN -0 0 \
    Infinity -Infinity 4294967297 -4294967297 none none none none none 1 none NaN 0 -0 \
    Infinity -Infinity 9007199254740991 -9007199254740991 none none none none none none 1 NaN 0 -0 \
    NaN NaN NaN NaN NaN NaN NaN NaN NaN NaN NaN NaN NaN NaN \
    Infinity -Infinity Infinity -Infinity Infinity Infinity -Infinity Infinity -Infinity Infinity Infinity NaN NaN NaN \
    -Infinity Infinity -Infinity Infinity -Infinity -Infinity Infinity -Infinity Infinity -Infinity -Infinity NaN NaN NaN \
";

pub(super) const REM: &str = "\
    NaN NaN 0 0 0 0 0 0 0 0 0 NaN 0 0 \
    NaN NaN -0 -0 -0 -0 -0 -0 -0 -0 -0 NaN -0 -0 \
    NaN NaN 0 0 1 1 1 1 1 1 1 NaN 1 1 \
    NaN NaN -0 -0 -1 -1 -1 -1 -1 -1 -1 NaN -1 -1 \
    NaN NaN 0 0 0 2 2 2 2 2 2 NaN 2 2 \
    NaN NaN 0 0 1 0 0 7 7 7 7 NaN 7 7 \
    NaN NaN -0 -0 -1 -0 -0 -7 -7 -7 -7 NaN -7 -7 \
    NaN NaN 0 0 0 2 2 0 0 2147483648 2147483648 NaN 2147483648 2147483648 \
    NaN NaN -0 -0 -0 -2 -2 -0 -0 -2147483648 -2147483648 NaN -2147483648 -2147483648 \
    NaN NaN 0 0 1 5 5 1 1 0 4294967297 NaN 4294967297 4294967297 \
    NaN NaN 0 0 1 3 3 2147483647 2147483647 4292870144 0 NaN 9007199254740991 9007199254740991 \
    NaN NaN NaN NaN NaN NaN NaN NaN NaN NaN NaN NaN NaN NaN \
    NaN NaN NaN NaN NaN NaN NaN NaN NaN NaN NaN NaN NaN NaN \
    NaN NaN NaN NaN NaN NaN NaN NaN NaN NaN NaN NaN NaN NaN \
";

pub(super) const POW: &str = "\
    1 1 0 Infinity 0 0 Infinity 0 Infinity 0 0 NaN 0 Infinity \
    1 1 -0 -Infinity 0 -0 -Infinity 0 Infinity -0 -0 NaN 0 Infinity \
    1 1 1 1 1 1 1 1 1 1 1 NaN NaN NaN \
    1 1 -1 -1 1 -1 -1 1 1 -1 -1 NaN NaN NaN \
    1 1 2 none 4 128 none none none none none NaN Infinity 0 \
    1 1 7 none 49 823543 none none none none none NaN Infinity 0 \
    1 1 -7 none 49 -823543 none none none none none NaN Infinity 0 \
    1 1 2147483648 none none none none none none none none NaN Infinity 0 \
    1 1 -2147483648 none none none none none none none none NaN Infinity 0 \
    1 1 4294967297 none none none none none none none none NaN Infinity 0 \
    1 1 9007199254740991 none none none none none none none none NaN Infinity 0 \
    1 1 NaN NaN NaN NaN NaN NaN NaN NaN NaN NaN NaN NaN \
    1 1 Infinity 0 Infinity Infinity 0 Infinity 0 Infinity Infinity NaN Infinity 0 \
    1 1 -Infinity -0 Infinity -Infinity -0 Infinity 0 -Infinity -Infinity NaN Infinity 0 \
";

pub(super) const SHL: &str = "\
    0 0 0 0 0 0 0 0 0 0 0 0 0 0 \
    0 0 0 0 0 0 0 0 0 0 0 0 0 0 \
    1 1 2 -2147483648 4 128 33554432 1 1 2 -2147483648 1 1 1 \
    -1 -1 -2 -2147483648 -4 -128 -33554432 -1 -1 -2 -2147483648 -1 -1 -1 \
    2 2 4 0 8 256 67108864 2 2 4 0 2 2 2 \
    7 7 14 -2147483648 28 896 234881024 7 7 14 -2147483648 7 7 7 \
    -7 -7 -14 -2147483648 -28 -896 -234881024 -7 -7 -14 -2147483648 -7 -7 -7 \
    -2147483648 -2147483648 0 0 0 0 0 -2147483648 -2147483648 0 0 -2147483648 -2147483648 -2147483648 \
    -2147483648 -2147483648 0 0 0 0 0 -2147483648 -2147483648 0 0 -2147483648 -2147483648 -2147483648 \
    1 1 2 -2147483648 4 128 33554432 1 1 2 -2147483648 1 1 1 \
    -1 -1 -2 -2147483648 -4 -128 -33554432 -1 -1 -2 -2147483648 -1 -1 -1 \
    0 0 0 0 0 0 0 0 0 0 0 0 0 0 \
    0 0 0 0 0 0 0 0 0 0 0 0 0 0 \
    0 0 0 0 0 0 0 0 0 0 0 0 0 0 \
";

pub(super) const SHR: &str = "\
    0 0 0 0 0 0 0 0 0 0 0 0 0 0 \
    0 0 0 0 0 0 0 0 0 0 0 0 0 0 \
    1 1 0 0 0 0 0 1 1 0 0 1 1 1 \
    -1 -1 -1 -1 -1 -1 -1 -1 -1 -1 -1 -1 -1 -1 \
    2 2 1 0 0 0 0 2 2 1 0 2 2 2 \
    7 7 3 0 1 0 0 7 7 3 0 7 7 7 \
    -7 -7 -4 -1 -2 -1 -1 -7 -7 -4 -1 -7 -7 -7 \
    -2147483648 -2147483648 -1073741824 -1 -536870912 -16777216 -64 -2147483648 -2147483648 -1073741824 -1 -2147483648 -2147483648 -2147483648 \
    -2147483648 -2147483648 -1073741824 -1 -536870912 -16777216 -64 -2147483648 -2147483648 -1073741824 -1 -2147483648 -2147483648 -2147483648 \
    1 1 0 0 0 0 0 1 1 0 0 1 1 1 \
    -1 -1 -1 -1 -1 -1 -1 -1 -1 -1 -1 -1 -1 -1 \
    0 0 0 0 0 0 0 0 0 0 0 0 0 0 \
    0 0 0 0 0 0 0 0 0 0 0 0 0 0 \
    0 0 0 0 0 0 0 0 0 0 0 0 0 0 \
";

pub(super) const UNSIGNED_SHR: &str = "\
    0 0 0 0 0 0 0 0 0 0 0 0 0 0 \
    0 0 0 0 0 0 0 0 0 0 0 0 0 0 \
    1 1 0 0 0 0 0 1 1 0 0 1 1 1 \
    4294967295 4294967295 2147483647 1 1073741823 33554431 127 4294967295 4294967295 2147483647 1 4294967295 4294967295 4294967295 \
    2 2 1 0 0 0 0 2 2 1 0 2 2 2 \
    7 7 3 0 1 0 0 7 7 3 0 7 7 7 \
    4294967289 4294967289 2147483644 1 1073741822 33554431 127 4294967289 4294967289 2147483644 1 4294967289 4294967289 4294967289 \
    2147483648 2147483648 1073741824 1 536870912 16777216 64 2147483648 2147483648 1073741824 1 2147483648 2147483648 2147483648 \
    2147483648 2147483648 1073741824 1 536870912 16777216 64 2147483648 2147483648 1073741824 1 2147483648 2147483648 2147483648 \
    1 1 0 0 0 0 0 1 1 0 0 1 1 1 \
    4294967295 4294967295 2147483647 1 1073741823 33554431 127 4294967295 4294967295 2147483647 1 4294967295 4294967295 4294967295 \
    0 0 0 0 0 0 0 0 0 0 0 0 0 0 \
    0 0 0 0 0 0 0 0 0 0 0 0 0 0 \
    0 0 0 0 0 0 0 0 0 0 0 0 0 0 \
";

pub(super) const BIT_AND: &str = "\
    0 0 0 0 0 0 0 0 0 0 0 0 0 0 \
    0 0 0 0 0 0 0 0 0 0 0 0 0 0 \
    0 0 1 1 0 1 1 0 0 1 1 0 0 0 \
    0 0 1 -1 2 7 -7 -2147483648 -2147483648 1 -1 0 0 0 \
    0 0 0 2 2 2 0 0 0 0 2 0 0 0 \
    0 0 1 7 2 7 1 0 0 1 7 0 0 0 \
    0 0 1 -7 0 1 -7 -2147483648 -2147483648 1 -7 0 0 0 \
    0 0 0 -2147483648 0 0 -2147483648 -2147483648 -2147483648 0 -2147483648 0 0 0 \
    0 0 0 -2147483648 0 0 -2147483648 -2147483648 -2147483648 0 -2147483648 0 0 0 \
    0 0 1 1 0 1 1 0 0 1 1 0 0 0 \
    0 0 1 -1 2 7 -7 -2147483648 -2147483648 1 -1 0 0 0 \
    0 0 0 0 0 0 0 0 0 0 0 0 0 0 \
    0 0 0 0 0 0 0 0 0 0 0 0 0 0 \
    0 0 0 0 0 0 0 0 0 0 0 0 0 0 \
";

pub(super) const BIT_OR: &str = "\
    0 0 1 -1 2 7 -7 -2147483648 -2147483648 1 -1 0 0 0 \
    0 0 1 -1 2 7 -7 -2147483648 -2147483648 1 -1 0 0 0 \
    1 1 1 -1 3 7 -7 -2147483647 -2147483647 1 -1 1 1 1 \
    -1 -1 -1 -1 -1 -1 -1 -1 -1 -1 -1 -1 -1 -1 \
    2 2 3 -1 2 7 -5 -2147483646 -2147483646 3 -1 2 2 2 \
    7 7 7 -1 7 7 -1 -2147483641 -2147483641 7 -1 7 7 7 \
    -7 -7 -7 -1 -5 -1 -7 -7 -7 -7 -1 -7 -7 -7 \
    -2147483648 -2147483648 -2147483647 -1 -2147483646 -2147483641 -7 -2147483648 -2147483648 -2147483647 -1 -2147483648 -2147483648 -2147483648 \
    -2147483648 -2147483648 -2147483647 -1 -2147483646 -2147483641 -7 -2147483648 -2147483648 -2147483647 -1 -2147483648 -2147483648 -2147483648 \
    1 1 1 -1 3 7 -7 -2147483647 -2147483647 1 -1 1 1 1 \
    -1 -1 -1 -1 -1 -1 -1 -1 -1 -1 -1 -1 -1 -1 \
    0 0 1 -1 2 7 -7 -2147483648 -2147483648 1 -1 0 0 0 \
    0 0 1 -1 2 7 -7 -2147483648 -2147483648 1 -1 0 0 0 \
    0 0 1 -1 2 7 -7 -2147483648 -2147483648 1 -1 0 0 0 \
";

pub(super) const BIT_XOR: &str = "\
    0 0 1 -1 2 7 -7 -2147483648 -2147483648 1 -1 0 0 0 \
    0 0 1 -1 2 7 -7 -2147483648 -2147483648 1 -1 0 0 0 \
    1 1 0 -2 3 6 -8 -2147483647 -2147483647 0 -2 1 1 1 \
    -1 -1 -2 0 -3 -8 6 2147483647 2147483647 -2 0 -1 -1 -1 \
    2 2 3 -3 0 5 -5 -2147483646 -2147483646 3 -3 2 2 2 \
    7 7 6 -8 5 0 -2 -2147483641 -2147483641 6 -8 7 7 7 \
    -7 -7 -8 6 -5 -2 0 2147483641 2147483641 -8 6 -7 -7 -7 \
    -2147483648 -2147483648 -2147483647 2147483647 -2147483646 -2147483641 2147483641 0 0 -2147483647 2147483647 -2147483648 -2147483648 -2147483648 \
    -2147483648 -2147483648 -2147483647 2147483647 -2147483646 -2147483641 2147483641 0 0 -2147483647 2147483647 -2147483648 -2147483648 -2147483648 \
    1 1 0 -2 3 6 -8 -2147483647 -2147483647 0 -2 1 1 1 \
    -1 -1 -2 0 -3 -8 6 2147483647 2147483647 -2 0 -1 -1 -1 \
    0 0 1 -1 2 7 -7 -2147483648 -2147483648 1 -1 0 0 0 \
    0 0 1 -1 2 7 -7 -2147483648 -2147483648 1 -1 0 0 0 \
    0 0 1 -1 2 7 -7 -2147483648 -2147483648 1 -1 0 0 0 \
";

pub(super) const NUM_EQ: &str = "\
    1 1 0 0 0 0 0 0 0 0 0 0 0 0 \
    1 1 0 0 0 0 0 0 0 0 0 0 0 0 \
    0 0 1 0 0 0 0 0 0 0 0 0 0 0 \
    0 0 0 1 0 0 0 0 0 0 0 0 0 0 \
    0 0 0 0 1 0 0 0 0 0 0 0 0 0 \
    0 0 0 0 0 1 0 0 0 0 0 0 0 0 \
    0 0 0 0 0 0 1 0 0 0 0 0 0 0 \
    0 0 0 0 0 0 0 1 0 0 0 0 0 0 \
    0 0 0 0 0 0 0 0 1 0 0 0 0 0 \
    0 0 0 0 0 0 0 0 0 1 0 0 0 0 \
    0 0 0 0 0 0 0 0 0 0 1 0 0 0 \
    0 0 0 0 0 0 0 0 0 0 0 0 0 0 \
    0 0 0 0 0 0 0 0 0 0 0 0 1 0 \
    0 0 0 0 0 0 0 0 0 0 0 0 0 1 \
";

pub(super) const NEG: &str = "\
    -0 0 -1 1 -2 -7 7 -2147483648 2147483648 -4294967297 -9007199254740991 NaN -Infinity Infinity \
";

pub(super) const NOT: &str = "\
    -1 -1 -2 0 -3 -8 6 2147483647 2147483647 -2 0 -1 -1 -1 \
";

pub(super) const AS_INT32: &str = "\
    0 0 1 -1 2 7 -7 -2147483648 -2147483648 1 -1 0 0 0 \
";

pub(super) const AS_UINT32: &str = "\
    0 0 1 4294967295 2 7 4294967289 2147483648 2147483648 1 4294967295 0 0 0 \
";
