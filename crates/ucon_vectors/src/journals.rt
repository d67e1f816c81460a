//! Documents that are played over a journal or a checkpoint of which is written, and what its file holds then.

/// A file in parts, which stand in it one behind the other.
pub type Bytes = &'static [&'static [u8]];

/// One run over a file: a document is played over it, a checkpoint is written to it, or something is told of it. It has the calls of the disk and
/// of the sink that fail, by their numbers from 0. It has what the program ends with, writes and tells, and the file afterwards.
#[derive(Clone, Copy)]
pub struct Played {
    pub name: &'static str,
    /// The form's words, over the journal `j`.
    pub words: &'static [&'static str],
    pub file: Bytes,
    pub document: &'static [u8],
    pub disk_faults: &'static [u64],
    pub sink_faults: &'static [u64],
    pub status: u8,
    pub output: &'static [u8],
    pub told: &'static [u8],
    pub left: Bytes,
}

/// What each journal begins with.
pub(crate) const MAGIC: &[u8] = b"UCONJR02";

/// The same of version 1.
pub(crate) const OLD_MAGIC: &[u8] = b"UCONJR01";

/// The record of the policy: an open gate, the length in four bytes, and the payload.
pub(crate) const POLICY_R: &[u8] = b"\x01\x00\x00\x00\x0bright r {}\n";

/// The record of client 0's `subject a`.
pub(crate) const ADDS_A: &[u8] = b"\x01\x00\x00\x00\x0e0 subject a\nok";

/// The record of client 0's `subject b`.
pub(crate) const ADDS_B: &[u8] = b"\x01\x00\x00\x00\x0e0 subject b\nok";

/// The record of a checkpoint behind that of `subject a`.
pub(crate) const POINT_WITH_A: &[u8] =
    b"\x01\x00\x00\x00/point 1\npolicy 11\nright r {}\n\ntick 0\nsubject a\n";

/// The gate of the next record, which is none yet.
pub(crate) const CLOSED: &[u8] = b"\x00";

/// One record behind the policy: client 0's `subject a`.
pub const WITH_A: Bytes = &[MAGIC, POLICY_R, ADDS_A, CLOSED];

/// The same with a checkpoint behind the record.
pub const WITH_A_AND_POINT: Bytes = &[MAGIC, POLICY_R, ADDS_A, POINT_WITH_A, CLOSED];
/// With two checkpoints.
pub(crate) const WITH_A_AND_TWO_POINTS: Bytes = &[
    MAGIC,
    POLICY_R,
    ADDS_A,
    POINT_WITH_A,
    POINT_WITH_A,
    CLOSED,
];
/// With a step behind the checkpoint.
const WITH_A_AND_POINT_AND_B: Bytes = &[MAGIC, POLICY_R, ADDS_A, POINT_WITH_A, ADDS_B, CLOSED];
/// The gate of the checkpoint is closed still, so that it doesn't count.
const WITH_A_THEN_POINT: Bytes = &[
    MAGIC,
    POLICY_R,
    ADDS_A,
    b"\x00\x00\x00\x00\x2fpoint 1\npolicy 11\nright r {}\n\ntick 0\nsubject a\n",
    CLOSED,
];
/// The checkpoint has a subject of no name.
pub(crate) const WRONG_SUBJECT: Bytes = &[
    MAGIC,
    POLICY_R,
    ADDS_A,
    b"\x01\x00\x00\x00\x2fpoint 1\npolicy 11\nright r {}\n\ntick 0\nsubject A\n",
    CLOSED,
];
/// The checkpoint tells another number of entries.
pub(crate) const WRONG_NUMBER: Bytes = &[
    MAGIC,
    POLICY_R,
    ADDS_A,
    b"\x01\x00\x00\x00\x2fpoint 2\npolicy 11\nright r {}\n\ntick 0\nsubject a\n",
    CLOSED,
];
/// The record before the checkpoint has the reply `oj`.
pub(crate) const CHANGED_BEFORE_POINT: Bytes = &[
    MAGIC,
    POLICY_R,
    b"\x01\x00\x00\x00\x0e0 subject a\noj",
    POINT_WITH_A,
    CLOSED,
];
/// There is a wrong checkpoint before the last one.
pub(crate) const WRONG_POINT_BEFORE_POINT: Bytes = &[
    MAGIC,
    POLICY_R,
    ADDS_A,
    b"\x01\x00\x00\x00/point 1\npolicy 11\nright r {}\n\ntick 0\nsubject A\n",
    POINT_WITH_A,
    CLOSED,
];
/// The record behind the checkpoint has the reply `oj`.
const CHANGED_BEHIND_POINT: Bytes = &[
    MAGIC,
    POLICY_R,
    ADDS_A,
    POINT_WITH_A,
    b"\x01\x00\x00\x00\x0e0 subject b\noj",
    CLOSED,
];
/// The checkpoint has one subject twice.
const SUBJECT_TWICE: Bytes = &[
    MAGIC,
    POLICY_R,
    ADDS_A,
    b"\x01\x00\x00\x009point 1\npolicy 11\nright r {}\n\ntick 0\nsubject a\nsubject a\n",
    CLOSED,
];
/// The checkpoint has a session of an object that isn't there.
const NO_OBJECT: Bytes = &[
    MAGIC,
    POLICY_R,
    ADDS_A,
    b"\x01\x00\x00\x00Lpoint 1\npolicy 11\nright r {}\n\ntick 0\nsubject a\nsession 0 r a x requesting 0\n",
    CLOSED,
];
/// In the checkpoint a use goes on by a right that the policy hasn't.
const UNSETTLED: Bytes = &[
    MAGIC,
    POLICY_R,
    ADDS_A,
    b"\x01\x00\x00\x00Tpoint 1\npolicy 11\nright r {}\n\ntick 0\nsubject a\nobject x\nsession 0 q a x accessing 0\n",
    CLOSED,
];
/// The checkpoint has the value of an attribute that isn't declared.
const NO_ATTRIBUTE: Bytes = &[
    MAGIC,
    POLICY_R,
    ADDS_A,
    b"\x01\x00\x00\x009point 1\npolicy 11\nright r {}\n\ntick 0\nsubject a\nvalue k 1\n",
    CLOSED,
];
/// The checkpoint's policy is no policy.
const POLICY_IN_PART: Bytes = &[
    MAGIC,
    POLICY_R,
    ADDS_A,
    b"\x01\x00\x00\x00,point 1\npolicy 9\nright r {\ntick 0\nsubject a\n",
    CLOSED,
];
/// The checkpoint's last line has no end.
const POINT_IN_PART: Bytes = &[
    MAGIC,
    POLICY_R,
    ADDS_A,
    b"\x01\x00\x00\x00.point 1\npolicy 11\nright r {}\n\ntick 0\nsubject a",
    CLOSED,
];

const WITH_B: Bytes = &[MAGIC, POLICY_R, ADDS_B, CLOSED];

const WITH_A_AND_B: Bytes = &[MAGIC, POLICY_R, ADDS_A, ADDS_B, CLOSED];
/// The gate of the second record is closed still, so that it doesn't count.
const WITH_A_THEN_B: Bytes = &[
    MAGIC,
    POLICY_R,
    ADDS_A,
    b"\x00\x00\x00\x00\x0e0 subject b\nok",
    CLOSED,
];
/// The same as the first by version 1.
pub(crate) const OLD_WITH_A: Bytes = &[OLD_MAGIC, POLICY_R, ADDS_A, CLOSED];

const OLD_WITH_A_AND_B: Bytes = &[OLD_MAGIC, POLICY_R, ADDS_A, ADDS_B, CLOSED];
/// The gate of record 1 is closed, and the record is cut off.
pub(crate) const TORN: Bytes = &[MAGIC, POLICY_R, b"\x00\x00\x00\x00\x0e0 sub"];
/// The reply is `oj`.
pub(crate) const WRONG_REPLY: Bytes = &[
    MAGIC,
    POLICY_R,
    b"\x01\x00\x00\x00\x0e0 subject a\noj",
    CLOSED,
];
/// The caller is client 1, who is no administrator.
pub(crate) const WRONG_CALLER: Bytes = &[
    MAGIC,
    POLICY_R,
    b"\x01\x00\x00\x00\x0e1 subject a\nok",
    CLOSED,
];

pub(crate) const MADE: Bytes = &[MAGIC, POLICY_R, CLOSED];

/// A checkpoint before the first entry.
const POINTED: Bytes = &[
    MAGIC,
    POLICY_R,
    b"\x01\x00\x00\x00\x25point 0\npolicy 11\nright r {}\n\ntick 0\n",
    CLOSED,
];

pub(crate) const FOREIGN: Bytes = &[b"0123456789"];

/// A document that is a policy alone.
pub const NO_LINES: &[u8] = b"right r {}\n";

pub(crate) const SUBJECT_A: &[u8] = b"right r {}\n%%\nclient 0\nsubject a\n";

const SUBJECT_B: &[u8] = b"right r {}\n%%\nclient 0\nsubject b\n";

/// Two lines of client 0, each of which makes a subject.
pub const SUBJECTS_B_AND_C: &[u8] = b"right r {}\n%%\nclient 0\nsubject b\nsubject c\n";

/// One line that changes nothing: its place is the number of entries.
pub const LOOKING: &[u8] = b"right r {}\n%%\nclient 0\nlook 1\n";

pub(crate) const OTHER_POLICY: &[u8] = b"right q {}\n";

/// `play` of a policy without lines, over a disk that doesn't fail.
pub const PLAY: Played = Played {
    name: "",
    words: &["play", "j"],
    file: &[],
    document: NO_LINES,
    disk_faults: &[],
    sink_faults: &[],
    status: 0,
    output: b"",
    told: b"",
    left: &[],
};

/// Two lines over a journal of one record, on a disk of which a call fails.
const STOPPED: Played = Played {
    file: WITH_A,
    document: SUBJECTS_B_AND_C,
    status: 6,
    told: b"ucon: disk fault\n",
    left: WITH_A,
    ..PLAY
};

/// Each line that changes something is a record; a torn record doesn't count; what is wrong, foreign or another's isn't written.
pub const PLAYED_ROWS: &[Played] = &[
    Played {
        name: "a first journal",
        document: SUBJECT_A,
        output: b"0 1 ok\n",
        left: WITH_A,
        ..PLAY
    },
    Played {
        name: "a torn record",
        file: TORN,
        document: SUBJECT_B,
        output: b"0 1 ok\n",
        left: WITH_B,
        ..PLAY
    },
    Played {
        name: "nine bytes",
        file: &[b"012345678"],
        left: MADE,
        ..PLAY
    },
    Played {
        name: "what is there",
        file: WITH_A,
        document: SUBJECT_A,
        output: b"0 1 already there\n",
        left: WITH_A,
        ..PLAY
    },
    Played {
        name: "version 1",
        file: OLD_WITH_A,
        document: SUBJECT_B,
        output: b"0 2 ok\n",
        left: OLD_WITH_A_AND_B,
        ..PLAY
    },
    Played {
        name: "a wrong reply",
        file: WRONG_REPLY,
        status: 7,
        told: b"ucon: damaged record 1 at 24\n",
        left: WRONG_REPLY,
        ..PLAY
    },
    Played {
        name: "a reply that isn't the serial run's",
        file: WRONG_CALLER,
        status: 7,
        told: b"ucon: damaged record 1 at 24\n",
        left: WRONG_CALLER,
        ..PLAY
    },
    Played {
        name: "ten bytes",
        file: FOREIGN,
        status: 8,
        told: b"ucon: not a journal\n",
        left: FOREIGN,
        ..PLAY
    },
    Played {
        name: "another policy",
        file: WITH_A,
        document: OTHER_POLICY,
        status: 10,
        told: b"ucon: other policy at 6\n",
        left: WITH_A,
        ..PLAY
    },
    Played {
        name: "a refused policy",
        file: WITH_A,
        document: b"right r {",
        status: 2,
        told: b"ucon: policy: unexpected at 9\n",
        left: WITH_A,
        ..PLAY
    },
    Played {
        name: "a failing sink",
        document: SUBJECT_A,
        left: WITH_A,
        sink_faults: &[2],
        status: 5,
        output: b"0 ",
        told: b"ucon: sink fault\n",
        ..PLAY
    },
    Played {
        name: "a disk that fails, or is full, at a record",
        disk_faults: &[11],
        output: b"0 - disk fault\n0 - stopped\n",
        ..STOPPED
    },
    Played {
        name: "a failing sync at the opening",
        disk_faults: &[0],
        ..STOPPED
    },
    Played {
        name: "a failing read at the opening",
        disk_faults: &[3],
        ..STOPPED
    },
    Played {
        name: "a failing sync before the gate",
        disk_faults: &[12],
        output: b"0 - disk fault\n0 - stopped\n",
        left: WITH_A_THEN_B,
        ..STOPPED
    },
    Played {
        name: "a failing sync behind the gate",
        disk_faults: &[14],
        output: b"0 - disk fault\n0 - stopped\n",
        left: WITH_A_AND_B,
        ..STOPPED
    },
];

/// A checkpoint, over a disk that doesn't fail.
const POINT: Played = Played {
    words: &["point", "j"],
    ..PLAY
};

/// A checkpoint of a journal of one record, on a disk of which a call fails.
const HALF_POINTED: Played = Played {
    words: &["point", "j"],
    document: NO_LINES,
    ..STOPPED
};

/// A checkpoint stands behind all entries, and changes no place and no reply. Opening begins at the last one, which has to hold a state, and
/// looks at no record before it.
pub const POINTED_ROWS: &[Played] = &[
    Played {
        name: "a checkpoint behind one entry",
        file: WITH_A,
        output: b"point 1\n",
        left: WITH_A_AND_POINT,
        ..POINT
    },
    Played {
        name: "lines that are not run",
        file: WITH_A,
        document: SUBJECT_B,
        output: b"point 1\n",
        left: WITH_A_AND_POINT,
        ..POINT
    },
    Played {
        name: "a second checkpoint",
        file: WITH_A_AND_POINT,
        output: b"point 1\n",
        left: WITH_A_AND_TWO_POINTS,
        ..POINT
    },
    Played {
        name: "a first journal",
        output: b"point 0\n",
        left: POINTED,
        ..POINT
    },
    Played {
        name: "version 1",
        file: OLD_WITH_A,
        status: 14,
        told: b"ucon: old journal\n",
        left: OLD_WITH_A,
        ..POINT
    },
    Played {
        name: "ten bytes",
        file: FOREIGN,
        status: 8,
        told: b"ucon: not a journal\n",
        left: FOREIGN,
        ..POINT
    },
    Played {
        name: "another policy",
        file: WITH_A,
        document: OTHER_POLICY,
        status: 10,
        told: b"ucon: other policy at 6\n",
        left: WITH_A,
        ..POINT
    },
    Played {
        name: "a refused policy",
        file: WITH_A,
        document: b"right r {",
        status: 2,
        told: b"ucon: policy: unexpected at 9\n",
        left: WITH_A,
        ..POINT
    },
    Played {
        name: "a refused line",
        file: WITH_A,
        document: b"right r {}\n%%\nclient 0\nsubject\n",
        status: 3,
        told: b"ucon: script: wrong count at line 4\n",
        left: WITH_A,
        ..POINT
    },
    Played {
        name: "a failing sink",
        file: WITH_A,
        left: WITH_A_AND_POINT,
        sink_faults: &[2],
        status: 5,
        output: b"po",
        told: b"ucon: sink fault\n",
        ..POINT
    },
    Played {
        name: "a failing read at the opening",
        disk_faults: &[3],
        ..HALF_POINTED
    },
    Played {
        name: "a failing sync before the gate",
        disk_faults: &[12],
        left: WITH_A_THEN_POINT,
        ..HALF_POINTED
    },
    Played {
        name: "a failing sync behind the gate",
        disk_faults: &[14],
        left: WITH_A_AND_POINT,
        ..HALF_POINTED
    },
    Played {
        name: "what is there, with a checkpoint",
        file: WITH_A_AND_POINT,
        document: SUBJECT_A,
        output: b"0 1 already there\n",
        left: WITH_A_AND_POINT,
        ..PLAY
    },
    Played {
        name: "a step behind a checkpoint",
        file: WITH_A_AND_POINT,
        document: SUBJECT_B,
        output: b"0 2 ok\n",
        left: WITH_A_AND_POINT_AND_B,
        ..PLAY
    },
    Played {
        name: "a checkpoint whose gate is closed",
        file: WITH_A_THEN_POINT,
        document: SUBJECT_A,
        output: b"0 1 already there\n",
        left: WITH_A,
        ..PLAY
    },
    Played {
        name: "a checkpoint with a subject of no name",
        file: WRONG_SUBJECT,
        document: SUBJECT_A,
        status: 7,
        told: b"ucon: damaged record 2 at 43\n",
        left: WRONG_SUBJECT,
        ..PLAY
    },
    Played {
        name: "a record changed before a checkpoint",
        file: CHANGED_BEFORE_POINT,
        document: SUBJECT_A,
        output: b"0 1 already there\n",
        left: CHANGED_BEFORE_POINT,
        ..PLAY
    },
    Played {
        name: "a wrong checkpoint before the last one",
        file: WRONG_POINT_BEFORE_POINT,
        document: SUBJECT_A,
        output: b"0 1 already there\n",
        left: WRONG_POINT_BEFORE_POINT,
        ..PLAY
    },
    Played {
        name: "a record changed behind a checkpoint",
        file: CHANGED_BEHIND_POINT,
        document: SUBJECT_A,
        status: 7,
        told: b"ucon: damaged record 3 at 95\n",
        left: CHANGED_BEHIND_POINT,
        ..PLAY
    },
    Played {
        name: "a checkpoint with one subject twice",
        file: SUBJECT_TWICE,
        document: SUBJECT_A,
        status: 7,
        told: b"ucon: damaged record 2 at 43\n",
        left: SUBJECT_TWICE,
        ..PLAY
    },
    Played {
        name: "a checkpoint with a session of no object",
        file: NO_OBJECT,
        document: SUBJECT_A,
        status: 7,
        told: b"ucon: damaged record 2 at 43\n",
        left: NO_OBJECT,
        ..PLAY
    },
    Played {
        name: "a checkpoint in which a use fails",
        file: UNSETTLED,
        document: SUBJECT_A,
        status: 7,
        told: b"ucon: damaged record 2 at 43\n",
        left: UNSETTLED,
        ..PLAY
    },
    Played {
        name: "a checkpoint with a value of no attribute",
        file: NO_ATTRIBUTE,
        document: SUBJECT_A,
        status: 7,
        told: b"ucon: damaged record 2 at 43\n",
        left: NO_ATTRIBUTE,
        ..PLAY
    },
    Played {
        name: "a checkpoint under no policy",
        file: POLICY_IN_PART,
        document: SUBJECT_A,
        status: 7,
        told: b"ucon: damaged record 2 at 43\n",
        left: POLICY_IN_PART,
        ..PLAY
    },
    Played {
        name: "a checkpoint whose last line has no end",
        file: POINT_IN_PART,
        document: SUBJECT_A,
        status: 7,
        told: b"ucon: damaged record 2 at 43\n",
        left: POINT_IN_PART,
        ..PLAY
    },
    Played {
        name: "a checkpoint of another number of entries",
        file: WRONG_NUMBER,
        document: SUBJECT_A,
        status: 7,
        told: b"ucon: damaged record 2 at 43\n",
        left: WRONG_NUMBER,
        ..PLAY
    },
];
