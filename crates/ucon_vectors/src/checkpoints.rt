//! Histories that are played in parts over one journal, with checkpoints between them.

/// A form over the journal that the part before left, its document, and what it prints.
#[derive(Clone, Copy)]
pub struct Part {
    /// `play` or `point`.
    pub form: &'static str,
    pub document: &'static [u8],
    pub output: &'static [u8],
}

/// A use that has to be acted on every 30 ticks, with a checkpoint between the act and the ticks that ask for the next one.
pub const TICKS_AROUND_A_CHECKPOINT: &[Part] = &[
    Part {
        form: "play",
        document: b"right watch { on b ads: every 30 click; }
%%
client 0
subject a
object x
try a watch x
tick 30
act a click x
",
        output: b"0 1 ok
0 2 ok
0 3 permitted 1
0 4 ok
0 5 ok
",
    },
    Part {
        form: "point",
        document: b"right watch { on b ads: every 30 click; }\n",
        output: b"point 5\n",
    },
    Part {
        form: "play",
        document: b"right watch { on b ads: every 30 click; }
%%
client 0
tick 60
tick 61
",
        output: b"0 6 ok
0 7 ok revoked 1 ads
",
    },
];

/// Two rights: one that is always permitted, and one that waits for an act.
pub const WAITING: &[u8] = b"right use {}
right wait { pre b go: done go; }
";

/// Behind a use that waits and 65,535 that go on: another one that waits, and then the first is permitted, so that as many go on as may.
pub const FILLED: &[u8] = b"try a wait x
act a go x
again 1
";

/// Behind a checkpoint of all that: the use that waits still is refused until another one ends.
pub const WAITED: &[u8] = b"client 0
again 65537
end 2
again 65537
";

/// What `WAITED` is answered.
pub const WAITED_OUTPUT: &[u8] = b"0 65541 full accessing
0 65542 ended 2
0 65543 permitted 65537
";
