//! Words for `gen`, and what is printed.

/// Words for `gen`, the status that a run of them ends with, and what it writes.
pub type Generated = (&'static [&'static str], u8, &'static [u8]);

/// A summary is written for a seed of 64 bits and a size from 1 to 100,000, in decimal without leading zeros. Other words are no form.
pub const GENERATED_ROWS: &[Generated] = &[
    (&["gen", "0", "1"], 0, SHORTEST),
    (&["gen", "18446744073709551615", "1"], 0, LAST_SEED),
    (&["gen", "1", "9"], 0, EACH_KIND),
    (&["gen", "7", "2000"], 0, LONG),
    (&["gen", "18446744073709551616", "1"], 1, b""),
    (&["gen", "0", "0"], 1, b""),
    (&["gen", "0", "100001"], 1, b""),
    (&["gen", "00", "1"], 1, b""),
    (&["gen", "0", "01"], 1, b""),
    (&["gen", "+1", "1"], 1, b""),
    (&["gen", "", "1"], 1, b""),
    (&["gen", "0"], 1, b""),
    (&["gen", "0", "1", "1"], 1, b""),
];

const SHORTEST: &[u8] = b"lines 26
steps 26
permitted 0
denied 0
waiting 0
ended 0
revoked 0
refused 0
";

const LAST_SEED: &[u8] = b"lines 26
steps 26
permitted 1
denied 0
waiting 0
ended 0
revoked 0
refused 0
";

/// As counted by a program that was written apart from this one.
const LONG: &[u8] = b"lines 2025
steps 1556
permitted 975
denied 57
waiting 0
ended 11
revoked 916
refused 469
";

/// A tick, a look, tries, beats and ends.
const EACH_KIND: &[u8] = b"lines 34
steps 29
permitted 2
denied 0
waiting 0
ended 0
revoked 0
refused 5
";
