//! What is told of tries over a journal, and what its file holds then.

use crate::journals::{
    ADDS_A, Bytes, CLOSED, FOREIGN, MADE, MAGIC, OTHER_POLICY, PLAY, Played, TORN, WITH_A,
    WRONG_REPLY,
};

/// The policy of a sale: an authorisation, an obligation and a condition before a usage.
const SALE: &[u8] = b"attr s age : int 0..150 = 0;
env hour : int 0..23 = 9;
right buy { pre b sign: done sign_up; pre c late: env.hour >= 10; pre a adult: s.age >= 18; }
";

/// Behind the policy the subject `a` and the object `x`.
const WITH_BOTH: Bytes = &[
    MAGIC,
    b"\x01\x00\x00\x00\x95",
    SALE,
    ADDS_A,
    b"\x01\x00\x00\x00\x0d0 object x\nok",
    CLOSED,
];
/// The same with a checkpoint behind them.
const POINTED: Bytes = &[
    MAGIC,
    b"\x01\x00\x00\x00\x95",
    SALE,
    ADDS_A,
    b"\x01\x00\x00\x00\x0d0 object x\nok",
    b"\x01\x00\x00\x00\xdapoint 2\npolicy 149\nattr s age : int 0..150 = 0;\n\
env hour : int 0..23 = 9;\nright buy { pre b sign: done sign_up; pre c late: env.hour >= 10; pre a adult: s.age >= 18; }\n\n\
tick 0\nenv hour 9\nsubject a\nvalue age 0\nobject x\n",
    CLOSED,
];
/// The record before the checkpoint has the reply `oj`: opening accepts the file, and it is found as no history.
const ACCEPTED: Bytes = &[
    MAGIC,
    b"\x01\x00\x00\x00\x95",
    SALE,
    ADDS_A,
    b"\x01\x00\x00\x00\x0d0 object x\noj",
    b"\x01\x00\x00\x00\xdapoint 2\npolicy 149\nattr s age : int 0..150 = 0;\n\
env hour : int 0..23 = 9;\nright buy { pre b sign: done sign_up; pre c late: env.hour >= 10; pre a adult: s.age >= 18; }\n\n\
tick 0\nenv hour 9\nsubject a\nvalue age 0\nobject x\n",
    CLOSED,
];

/// What the subject `a` would meet.
const DENIED: &[u8] = b"pre sign b false
  act a sign_up x never
pre late c false
  read env.hour 9
pre adult a false
  read s.age 0
verdict deny late
";

/// A try of `a` over the journal with both, on a disk and to a sink that don't fail.
pub(crate) const EXPLAIN: Played = Played {
    words: &["explain", "j", "a", "buy", "x"],
    file: WITH_BOTH,
    document: SALE,
    output: DENIED,
    left: WITH_BOTH,
    ..PLAY
};

/// A try is explained, or refused in one line, and the file stays as it was.
pub const EXPLAINED_ROWS: &[Played] = &[
    Played {
        name: "a try that would be denied",
        ..EXPLAIN
    },
    Played {
        name: "nobody of that name",
        words: &["explain", "j", "b", "buy", "x"],
        output: b"no subject\n",
        ..EXPLAIN
    },
    Played {
        name: "no right of that name",
        words: &["explain", "j", "a", "sell", "x"],
        output: b"no right\n",
        ..EXPLAIN
    },
    Played {
        name: "nothing of that name",
        words: &["explain", "j", "a", "buy", "y"],
        output: b"no object\n",
        ..EXPLAIN
    },
    Played {
        name: "behind a checkpoint",
        file: POINTED,
        left: POINTED,
        ..EXPLAIN
    },
    Played {
        name: "a file that opening alone accepts",
        file: ACCEPTED,
        left: ACCEPTED,
        ..EXPLAIN
    },
];

/// A try over a file that isn't opened.
const UNOPENED: Played = Played {
    words: &["explain", "j", "a", "r", "x"],
    file: WITH_A,
    left: WITH_A,
    ..PLAY
};

/// A file is opened as by `play`, and one that isn't stays as it was.
pub const UNEXPLAINED_ROWS: &[Played] = &[
    Played {
        name: "a first journal",
        file: &[],
        output: b"no subject\n",
        left: MADE,
        ..UNOPENED
    },
    Played {
        name: "a torn record",
        file: TORN,
        output: b"no subject\n",
        left: MADE,
        ..UNOPENED
    },
    Played {
        name: "a wrong record",
        file: WRONG_REPLY,
        status: 7,
        told: b"ucon: damaged record 1 at 24\n",
        left: WRONG_REPLY,
        ..UNOPENED
    },
    Played {
        name: "ten bytes",
        file: FOREIGN,
        status: 8,
        told: b"ucon: not a journal\n",
        left: FOREIGN,
        ..UNOPENED
    },
    Played {
        name: "another policy",
        document: OTHER_POLICY,
        status: 10,
        told: b"ucon: other policy at 6\n",
        ..UNOPENED
    },
    Played {
        name: "a disk that fails at the opening",
        disk_faults: &[3],
        status: 6,
        told: b"ucon: disk fault\n",
        ..UNOPENED
    },
    Played {
        name: "a refused script",
        document: b"right q {}\n%%\nclient 0\nfly a\n",
        status: 3,
        told: b"ucon: script: unknown word at line 4\n",
        ..UNOPENED
    },
];
