//! Numerals and texts, each before `|` and the Number that it stands for; `none` stands for none in
//! the domain.

pub(super) const NUMERALS: &str = "\
    0|0;\
    907|907;\
    1.50e1|15;\
    1.5|none;\
    1e3|1000;\
    5e-1|none;\
    50E-1|5;\
    0.0|0;\
    .0e5|0;\
    5.|5;\
    0.5e+1|5;\
    1_000.2_5e0_2|100025;\
    0x1_F|31;\
    0XfF|255;\
    0o17|15;\
    0B1_01|5;\
    9007199254740991|9007199254740991;\
    9007199254740992|none;\
    900719925474099.1e1|9007199254740991;\
    0x1fffffffffffff|9007199254740991;\
    0x20000000000000|none;\
    18446744073709551617|none;\
    1e16|none;\
    0e99999999999999999999999|0;\
    1e-99999999999999999999999|none;\
    1e99999999999999999999999|none;\
    |none;\
    0001|none;\
    00.5|none;\
    0_1|none;\
    1__0|none;\
    1_|none;\
    _1|none;\
    1_.5|none;\
    1._5|none;\
    1e_5|none;\
    1e|none;\
    e1|none;\
    .|none;\
    1.5.5|none;\
    0x|none;\
    0x_1|none;\
    0b2|none;\
    1n|none;\
    -1|none;\
    +1|none;\
    1 |none;\
    ١|none\
";

pub(super) const TEXTS: &str = "\
    |0;\
    \u{20}\t\n|0;\
    0x10|16;\
    0x+1|NaN;\
    -0x1|NaN;\
    0b11|3;\
    0O17|15;\
    0b2|NaN;\
    0x|NaN;\
    inf|NaN;\
    Infinity|Infinity;\
    +Infinity|Infinity;\
    -Infinity|-Infinity;\
    infinity|NaN;\
    -0|-0;\
    -0.0e7|-0;\
    1e3|1000;\
    +5|5;\
    -5.|-5;\
    .50e1|5;\
    --5|NaN;\
    - 5|NaN;\
    -|NaN;\
    0001|1;\
    1_0|NaN;\
    1n|NaN;\
    1 2|NaN;\
    \u{B}7\u{FEFF}|7;\
    \u{3000}\u{2028}7\u{A0}|7;\
    \u{85}7|NaN;\
    9007199254740991|9007199254740991;\
    -9007199254740991|-9007199254740991;\
    9007199254740992|none;\
    -9007199254740992|none;\
    0x20000000000000|none;\
    1.5|none;\
    1e-400|none;\
    1e400|none\
";
