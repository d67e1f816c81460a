//! Hostile input, as bytes with how the program ends: documents at a limit and one above it, and files that were cut off or changed.

use crate::Played;
use crate::journals::{ADDS_A, Bytes, CLOSED, MAGIC, PLAY, POLICY_R};

/// A document at a limit, or above it, which repeats a part between a front and a back, and what a form makes of it.
#[derive(Clone, Copy)]
pub struct Limit {
    /// What is at the limit.
    pub name: &'static str,
    pub form: &'static str,
    pub front: &'static [u8],
    pub part: &'static [u8],
    /// How often the part stands.
    pub times: u32,
    pub back: &'static [u8],
    pub status: u8,
    /// With status 0 each line of the output, else the line of the fault.
    pub line: &'static [u8],
    /// How many lines the output has.
    pub lines: u32,
}

/// An attribute's set with 64 texts that rise, without its end.
const A_SET_OF_64: &[u8] =
    b"attr s a : set = {\"a00\",\"a01\",\"a02\",\"a03\",\"a04\",\"a05\",\"a06\",\"a07\",\"a08\",\"a09\",\"a10\",\"a11\",\"a12\",\"a13\",\"a14\",\"a15\",\"a16\",\"a17\",\"a18\",\"a19\",\"a20\",\"a21\",\"a22\",\"a23\",\"a24\",\"a25\",\"a26\",\"a27\",\"a28\",\"a29\",\"a30\",\"a31\",\"a32\",\"a33\",\"a34\",\"a35\",\"a36\",\"a37\",\"a38\",\"a39\",\"a40\",\"a41\",\"a42\",\"a43\",\"a44\",\"a45\",\"a46\",\"a47\",\"a48\",\"a49\",\"a50\",\"a51\",\"a52\",\"a53\",\"a54\",\"a55\",\"a56\",\"a57\",\"a58\",\"a59\",\"a60\",\"a61\",\"a62\",\"a63\"";
/// A set of as many on a command's line, without its end.
const A_VALUE_OF_64: &[u8] =
    b"attr s a : set = {};\n%%\nclient 0\nsubject ann\nset s ann a {\"a00\",\"a01\",\"a02\",\"a03\",\"a04\",\"a05\",\"a06\",\"a07\",\"a08\",\"a09\",\"a10\",\"a11\",\"a12\",\"a13\",\"a14\",\"a15\",\"a16\",\"a17\",\"a18\",\"a19\",\"a20\",\"a21\",\"a22\",\"a23\",\"a24\",\"a25\",\"a26\",\"a27\",\"a28\",\"a29\",\"a30\",\"a31\",\"a32\",\"a33\",\"a34\",\"a35\",\"a36\",\"a37\",\"a38\",\"a39\",\"a40\",\"a41\",\"a42\",\"a43\",\"a44\",\"a45\",\"a46\",\"a47\",\"a48\",\"a49\",\"a50\",\"a51\",\"a52\",\"a53\",\"a54\",\"a55\",\"a56\",\"a57\",\"a58\",\"a59\",\"a60\",\"a61\",\"a62\",\"a63\"";
/// A command that sets an attribute to a text, up to the text's first quote.
const A_TEXT_ON_A_LINE: &[u8] =
    b"attr s a : text = \"\";\n%%\nclient 0\nsubject ann\nset s ann a \"";

/// A comment of 64 bytes.
const COMMENT: &[u8] = b"###############################################################\n";

/// A document of no bytes that `check` accepts, and of which it prints nothing.
const CHECK: Limit = Limit {
    name: "",
    form: "check",
    front: b"",
    part: b"",
    times: 0,
    back: b"",
    status: 0,
    line: b"",
    lines: 0,
};

/// The same with `trial`.
const TRIAL: Limit = Limit {
    form: "trial",
    ..CHECK
};

/// Documents at each limit, and one above it.
pub const HOSTILE_DOCUMENTS: &[Limit] = &[
    Limit {
        name: "a policy of 65,536 bytes",
        part: b" ",
        times: 65_536,
        ..CHECK
    },
    Limit {
        name: "a policy of 65,537 bytes",
        part: b" ",
        times: 65_537,
        status: 2,
        line: b"ucon: policy: too long at 65536\n",
        ..TRIAL
    },
    Limit {
        name: "32 times not",
        front: b"right r { pre a t: ",
        part: b"not ",
        times: 32,
        back: b"1 = 1; }",
        line: b"right r preA0\n",
        lines: 1,
        ..CHECK
    },
    Limit {
        name: "33 times not",
        front: b"right r { pre a t: ",
        part: b"not ",
        times: 33,
        back: b"1 = 1; }",
        status: 2,
        line: b"ucon: policy: too deep at 147\n",
        ..TRIAL
    },
    Limit {
        name: "32 operands",
        front: b"right r { pre a t: 1",
        part: b" + 1",
        times: 31,
        back: b" = 1; }",
        line: b"right r preA0\n",
        lines: 1,
        ..CHECK
    },
    Limit {
        name: "33 operands",
        front: b"right r { pre a t: 1",
        part: b" + 1",
        times: 32,
        back: b" = 1; }",
        status: 2,
        line: b"ucon: policy: too many at 145\n",
        ..TRIAL
    },
    Limit {
        name: "a text of 64 bytes",
        front: b"attr s a : text = \"",
        part: b"x",
        times: 64,
        back: b"\";",
        ..CHECK
    },
    Limit {
        name: "a text of 64 bytes without its last quote",
        front: b"attr s a : text = \"",
        part: b"x",
        times: 64,
        status: 2,
        line: b"ucon: policy: unexpected at 83\n",
        ..TRIAL
    },
    Limit {
        name: "a text of 65 bytes without its last quote",
        front: b"attr s a : text = \"",
        part: b"x",
        times: 65,
        status: 2,
        line: b"ucon: policy: too long at 18\n",
        ..TRIAL
    },
    Limit {
        name: "a text of 64 bytes without its last quote on a line",
        front: A_TEXT_ON_A_LINE,
        part: b"x",
        times: 64,
        back: b"\n",
        status: 3,
        line: b"ucon: script: bad word at line 5\n",
        ..TRIAL
    },
    Limit {
        name: "a text of 65 bytes without its last quote on a line",
        front: A_TEXT_ON_A_LINE,
        part: b"x",
        times: 65,
        back: b"\n",
        status: 3,
        line: b"ucon: script: bad word at line 5\n",
        ..TRIAL
    },
    Limit {
        name: "a set of 64 texts",
        front: A_SET_OF_64,
        back: b"};",
        ..CHECK
    },
    Limit {
        name: "a set of 65 texts",
        front: A_SET_OF_64,
        part: b",\"b\"",
        times: 1,
        back: b"};",
        status: 2,
        line: b"ucon: policy: too many at 402\n",
        ..TRIAL
    },
    Limit {
        name: "a value of 65 texts",
        front: A_VALUE_OF_64,
        part: b",\"b\"",
        times: 1,
        back: b"}\n",
        status: 3,
        line: b"ucon: script: bad word at line 5\n",
        ..TRIAL
    },
    Limit {
        name: "1,025 headings",
        front: b"%%\n",
        part: b"client 0\n",
        times: 1_025,
        ..TRIAL
    },
    Limit {
        name: "a client of 40 digits",
        front: b"%%\nclient 1",
        part: b"0",
        times: 39,
        back: b"\nlook 1\n",
        status: 3,
        line: b"ucon: script: too many clients at line 2\n",
        ..TRIAL
    },
    Limit {
        name: "a client of 40 digits, of which the first is 0",
        front: b"%%\nclient 0",
        part: b"1",
        times: 39,
        back: b"\nlook 1\n",
        status: 3,
        line: b"ucon: script: bad heading at line 2\n",
        ..TRIAL
    },
    Limit {
        name: "262,144 lines",
        front: b"%%\nclient 1\n",
        part: b"look 1\n",
        times: 262_144,
        line: b"1 0 no session\n",
        lines: 262_144,
        ..TRIAL
    },
    Limit {
        name: "262,145 lines",
        front: b"%%\nclient 1\n",
        part: b"look 1\n",
        times: 262_145,
        status: 3,
        line: b"ucon: script: too many lines at line 262147\n",
        ..TRIAL
    },
    Limit {
        name: "4,194,304 bytes",
        front: b"%%\n",
        part: COMMENT,
        times: 65_535,
        back: b"client 1\nlook 1\n############################################\n",
        line: b"1 0 no session\n",
        lines: 1,
        ..TRIAL
    },
    Limit {
        name: "4,194,305 bytes",
        front: b"%%\n",
        part: COMMENT,
        times: 65_535,
        back: b"client 1\nlook 1\n#############################################\n",
        status: 11,
        line: b"ucon: input too long\n",
        ..TRIAL
    },
    Limit {
        name: "4,194,305 bytes, of which the first begins no policy",
        front: b"?",
        part: COMMENT,
        times: 65_536,
        status: 11,
        line: b"ucon: input too long\n",
        ..TRIAL
    },
];

/// The policy is the record of a journal without entries.
pub const WITHOUT_ENTRIES: Bytes = &[MAGIC, POLICY_R, CLOSED];
/// The empty policy is the record.
const EMPTY_POLICY: Bytes = &[MAGIC, b"\x01\x00\x00\x00\x00", CLOSED];
/// The length of record 1 is the greatest that four bytes can tell.
const GREATEST_LENGTH: Bytes = &[MAGIC, POLICY_R, b"\x01\xff\xff\xff\xff0 subject a\nok\x00"];
/// The first byte of record 1's payload is no digit.
const WRONG_PAYLOAD: Bytes = &[
    MAGIC,
    POLICY_R,
    b"\x01\x00\x00\x00\x0ex subject a\nok",
    CLOSED,
];
/// The first byte of the policy is a capital letter.
const WRONG_POLICY: Bytes = &[MAGIC, b"\x01\x00\x00\x00\x0bRight r {}\n", ADDS_A, CLOSED];
/// Record 1 has no byte.
const EMPTY_RECORD: Bytes = &[MAGIC, POLICY_R, b"\x01\x00\x00\x00\x00", CLOSED];
/// Two records have no byte, of which the first is the empty policy.
const EMPTY_RECORDS: Bytes = &[
    MAGIC,
    b"\x01\x00\x00\x00\x00",
    b"\x01\x00\x00\x00\x00",
    CLOSED,
];

/// Files that nobody's `play` left so. What is refused is left as it was.
pub const HOSTILE_JOURNALS: &[Played] = &[
    Played {
        name: "two foreign bytes",
        file: &[b"hi"],
        left: WITHOUT_ENTRIES,
        ..PLAY
    },
    Played {
        name: "a length of ffffffff",
        file: GREATEST_LENGTH,
        left: WITHOUT_ENTRIES,
        ..PLAY
    },
    Played {
        name: "a wrong payload byte",
        file: WRONG_PAYLOAD,
        status: 7,
        told: b"ucon: damaged record 1 at 24\n",
        left: WRONG_PAYLOAD,
        ..PLAY
    },
    Played {
        name: "a wrong policy byte",
        file: WRONG_POLICY,
        status: 7,
        told: b"ucon: damaged record 0 at 8\n",
        left: WRONG_POLICY,
        ..PLAY
    },
    Played {
        name: "a record of length 0",
        file: EMPTY_RECORD,
        status: 7,
        told: b"ucon: damaged record 1 at 24\n",
        left: EMPTY_RECORD,
        ..PLAY
    },
    Played {
        name: "a policy of length 0",
        file: EMPTY_POLICY,
        document: b"",
        left: EMPTY_POLICY,
        ..PLAY
    },
    Played {
        name: "a record of length 0 behind a policy of length 0",
        file: EMPTY_RECORDS,
        document: b"",
        status: 7,
        told: b"ucon: damaged record 1 at 13\n",
        left: EMPTY_RECORDS,
        ..PLAY
    },
    Played {
        name: "a policy of length 0 under another",
        file: EMPTY_POLICY,
        status: 10,
        told: b"ucon: other policy at 0\n",
        left: EMPTY_POLICY,
        ..PLAY
    },
];
