//! Uses that time ends: documents, each with what `trial` prints of it, as one works it out by hand. Every limit is met at the tick before it, at
//! it and after it.

use crate::Row;

/// A use may last three ticks.
const SHORT: &[u8] = b"right short { on c t: lasts 3; }
";

/// An act within five ticks before the use, and within three ticks while it lasts.
const FRESH: &[u8] = b"right fresh { pre b p: within 5 ping; on b t: within 3 ping; }
";

/// An act by somebody else on something else, every three ticks.
const WATCHED_BY_GUARDS: &[u8] = b"right watched { on b t: every 3 pong by \"g\" on \"d\"; }
";

/// Two parts that may share their limit.
const OFTEN: &[u8] = b"right often { on b t: every 4 ping; on c u: lasts 4; }
";

/// The rows.
pub const TIMED_ROWS: &[Row] = &[
    Row {
        name: "a_use_that_lasts",
        policy: SHORT,
        script: b"client 0
subject a
object x
tick 2
try a short x
tick 4
tick 5
try a short x
tick 6
tick 8
tick 9
",
        output: b"0 1 ok
0 2 ok
0 3 ok
0 4 permitted 1
0 5 ok
0 6 ok
0 7 permitted 2
0 8 ok revoked 1 t
0 9 ok
0 10 ok revoked 2 t
",
    },
    // The act at tick 3 moves the limit to 6. A use that is tried at 7 may begin, and may not go on.
    Row {
        name: "an_act_moves_a_limit",
        policy: FRESH,
        script: b"client 0
subject a
object x
try a fresh x
act a ping x
again 1
tick 3
act a ping x
tick 4
tick 6
tick 7
try a fresh x
",
        output: b"0 1 ok
0 2 ok
0 3 waiting 1 p
0 4 ok
0 5 permitted 1
0 6 ok
0 7 ok
0 8 ok
0 9 ok
0 10 ok revoked 1 t
0 11 permitted 2 revoked 2 t
",
    },
    // Acts by another subject or on another object move nothing; where the use began after the act, its start counts.
    Row {
        name: "an_act_by_others_on_others",
        policy: WATCHED_BY_GUARDS,
        script: b"client 0
subject a
subject g
object x
object d
tick 1
try a watched x
act g pong x
act a pong d
tick 3
act g pong d
tick 4
tick 6
try a watched x
tick 7
tick 9
tick 10
",
        output: b"0 1 ok
0 2 ok
0 3 ok
0 4 ok
0 5 ok
0 6 permitted 1
0 7 ok
0 8 ok
0 9 ok
0 10 ok
0 11 ok
0 12 ok
0 13 permitted 2
0 14 ok revoked 1 t
0 15 ok
0 16 ok revoked 2 t
",
    },
    // If both parts have become false the first label is told; a tick passes the limits of many uses, and those of one use at once.
    Row {
        name: "parts_that_share_a_limit",
        policy: OFTEN,
        script: b"client 0
subject a
object x
try a often x
tick 2
act a ping x
tick 4
tick 5
try a often x
try a often x
tick 9
tick 10
try a often x
tick 12
act a ping x
tick 99
",
        output: b"0 1 ok
0 2 ok
0 3 permitted 1
0 4 ok
0 5 ok
0 6 ok
0 7 ok revoked 1 u
0 8 permitted 2
0 9 permitted 3
0 10 ok
0 11 ok revoked 2 t revoked 3 t
0 12 permitted 4
0 13 ok
0 14 ok
0 15 ok revoked 4 t
",
    },
    // A use that ended has no limit any more; a policy that replaces another sets the limits anew.
    Row {
        name: "limits_of_a_new_policy",
        policy: SHORT,
        script: b"client 0
subject a
object x
try a short x
try a short x
end 1
tick 3
amend right short { on c t: lasts 6; on b q: every 5 ping; }
tick 5
act a ping x
tick 6
tick 7
try a short x
amend right short { on c t: lasts 0; }
tick 7
tick 8
",
        output: b"0 1 ok
0 2 ok
0 3 permitted 1
0 4 permitted 2
0 5 ended 1
0 6 ok
0 7 ok
0 8 ok
0 9 ok
0 10 ok
0 11 ok revoked 2 t
0 12 permitted 3
0 13 ok
0 14 ok
0 15 ok revoked 3 t
",
    },
];
