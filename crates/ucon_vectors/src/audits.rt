//! What `audit` and `report` tell of journals, and what their files hold then.

use crate::explained::EXPLAIN;
use crate::journals::{
    ADDS_A, ADDS_B, Bytes, CHANGED_BEFORE_POINT, CLOSED, FOREIGN, MAGIC, OLD_MAGIC, OLD_WITH_A,
    OTHER_POLICY, PLAY, POINT_WITH_A, POLICY_R, Played, SUBJECT_A, SUBJECTS_B_AND_C,
    WITH_A_AND_POINT, WITH_A_AND_TWO_POINTS, WRONG_CALLER, WRONG_NUMBER, WRONG_POINT_BEFORE_POINT,
    WRONG_REPLY, WRONG_SUBJECT,
};
use crate::worked::PAY_PER_USE;

/// A journal without a record.
const FRESH: Bytes = &[MAGIC, CLOSED];
/// Of the uses that go on one wouldn't be permitted now. Client 0's `try` left a credit of 4, below the price.
const WANTING: Bytes = &[
    MAGIC,
    b"\x01\x00\x00\x00\xb5",
    PAY_PER_USE,
    b"\x01\x00\x00\x00\x100 subject ann\nok",
    b"\x01\x00\x00\x00\x100 object song\nok",
    b"\x01\x00\x00\x00\x170 set s ann credit 9\nok",
    b"\x01\x00\x00\x00\x1f0 try ann play song\npermitted 1",
    CLOSED,
];
/// Of four uses that go on two would wait and one be denied now; one more has ended.
const LATE: Bytes = &[
    MAGIC,
    b"\x01\x00\x00\x00z",
    LATE_POLICY,
    ADDS_A,
    b"\x01\x00\x00\x00\x0d0 object x\nok",
    b"\x01\x00\x00\x00\x131 act a accept x\nok",
    b"\x01\x00\x00\x00\x191 try a use x\npermitted 1",
    b"\x01\x00\x00\x00\x192 try a see x\npermitted 2",
    b"\x01\x00\x00\x00\x1a1 try a free x\npermitted 3",
    b"\x01\x00\x00\x00\x192 try a use x\npermitted 4",
    b"\x01\x00\x00\x00\x192 try a use x\npermitted 5",
    b"\x01\x00\x00\x00\x0f2 end 4\nended 4",
    b"\x01\x00\x00\x00\x0f0 env open 0\nok",
    b"\x01\x00\x00\x00\x0b0 tick 9\nok",
    CLOSED,
];
/// The policy of these uses.
const LATE_POLICY: &[u8] =
    b"env open : int 0..1 = 1;\nright see { pre c day: env.open = 1; }\nright use { pre b fresh: within 5 accept; }\nright free {}\n";
/// The policy was replaced, and a checkpoint stands behind that.
const AMENDED_AND_POINT: Bytes = &[
    MAGIC,
    POLICY_R,
    ADDS_A,
    b"\x01\x00\x00\x00#0 amend attr s k : int 0..9 = 3;\nok",
    b"\x01\x00\x00\x00Fpoint 2\npolicy 24\nattr s k : int 0..9 = 3;\ntick 0\nsubject a\nvalue k 3\n",
    CLOSED,
];
/// The same, but the checkpoint has the first policy's text.
const FIRST_POLICY_IN_POINT: Bytes = &[
    MAGIC,
    POLICY_R,
    ADDS_A,
    b"\x01\x00\x00\x00#0 amend attr s k : int 0..9 = 3;\nok",
    b"\x01\x00\x00\x00/point 2\npolicy 11\nright r {}\n\ntick 0\nsubject a\n",
    CLOSED,
];
/// Of version 1, and its first gate is closed.
const OLD_WITHOUT_RECORD: Bytes = &[OLD_MAGIC, b"\x00x"];
/// A checkpoint in a file of version 1, which may have none.
const OLD_WITH_POINT: Bytes = &[OLD_MAGIC, POLICY_R, ADDS_A, POINT_WITH_A, CLOSED];
/// A checkpoint whose gate is closed, and which is cut off.
const TORN_POINT: Bytes = &[MAGIC, POLICY_R, ADDS_A, b"\x00\x00\x00\x00/point 1\npol"];
/// The length of the last record reaches beyond the file, so it doesn't count.
const CUT_OFF: Bytes = &[MAGIC, POLICY_R, b"\x01\xff\xff\xff\xff0 subject a\nok\x00"];
/// Record 0 is no policy.
const NO_POLICY: Bytes = &[MAGIC, b"\x01\x00\x00\x00\x0bRight r {}\n", ADDS_A, CLOSED];
/// A use that its own `try` revoked, since no credit was left.
const REVOKED: Bytes = &[
    MAGIC,
    b"\x01\x00\x00\x00\xb5",
    PAY_PER_USE,
    b"\x01\x00\x00\x00\x100 subject ann\nok",
    b"\x01\x00\x00\x00\x100 object song\nok",
    b"\x01\x00\x00\x00\x170 set s ann credit 5\nok",
    b"\x01\x00\x00\x00.0 try ann play song\npermitted 1 revoked 1 left",
    CLOSED,
];
/// Attributes, variables and sessions of all kinds, and acts.
const ALL_KINDS: &[u8] =
    b"attr s credit : int -9..100 = 7;\nattr s tags : set = {\"a\", \"b\"};\nattr o price : int 0..100 = 5;\nattr o label : text = \"x\\y\";\nenv hour : int 0..23 = 9;\nenv area : text = \"eu\";\nright play { pre b terms: done accept; on a left: s.credit > 0; after_end s.credit = 0 - 1; }\nright no { pre c never: 1 = 2; }\n";
/// Steps under that policy, and a checkpoint in their midst.
const WITH_ALL_KINDS: Bytes = &[
    MAGIC,
    b"\x01\x00\x00\x01.",
    ALL_KINDS,
    ADDS_B,
    ADDS_A,
    b"\x01\x00\x00\x00\x100 object song\nok",
    b"\x01\x00\x00\x00\x1b0 set s b tags {\"b\",\"c\"}\nok",
    b"\x01\x00\x00\x00\x160 act a accept song\nok",
    b"\x01\x00\x00\x00\x0b0 tick 5\nok",
    b"\x01\x00\x00\x00\x1d1 try a play song\npermitted 1",
    b"\x01\x00\x00\x00!2 try b play song\nwaiting 2 terms",
    b"\x01\x00\x00\x02Cpoint 8\npolicy 302\nattr s credit : int -9..100 = 7;\n\
attr s tags : set = {\"a\", \"b\"};\nattr o price : int 0..100 = 5;\n\
attr o label : text = \"x\\y\";\nenv hour : int 0..23 = 9;\nenv area : text = \"eu\";\n\
right play { pre b terms: done accept; on a left: s.credit > 0; after_end s.credit = 0 - 1; }\n\
right no { pre c never: 1 = 2; }\n\ntick 5\nenv hour 9\nenv area \"eu\"\n\
subject b\nvalue credit 7\nvalue tags {\"b\",\"c\"}\nsubject a\n\
value credit 7\nvalue tags {\"a\",\"b\"}\nobject song\nvalue price 5\n\
value label \"x\\y\"\nact a accept song 0\nsession 1 play a song accessing 5\n\
session 2 play b song requesting 0\n",
    b"\x01\x00\x00\x00\x162 act b accept song\nok",
    b"\x01\x00\x00\x00\x161 act a accept song\nok",
    b"\x01\x00\x00\x00\x0f1 end 1\nended 1",
    b"\x01\x00\x00\x00\x100 env area \"\"\nok",
    b"\x01\x00\x00\x00\x1f63 try b no song\ndenied 3 never",
    CLOSED,
];
/// The same, and then another policy, which has some of the attributes and variables still.
const WITH_ALL_KINDS_AMENDED: Bytes = &[
    MAGIC,
    b"\x01\x00\x00\x01.",
    ALL_KINDS,
    ADDS_B,
    ADDS_A,
    b"\x01\x00\x00\x00\x100 object song\nok",
    b"\x01\x00\x00\x00\x1b0 set s b tags {\"b\",\"c\"}\nok",
    b"\x01\x00\x00\x00\x160 act a accept song\nok",
    b"\x01\x00\x00\x00\x0b0 tick 5\nok",
    b"\x01\x00\x00\x00\x1d1 try a play song\npermitted 1",
    b"\x01\x00\x00\x00!2 try b play song\nwaiting 2 terms",
    b"\x01\x00\x00\x02Cpoint 8\npolicy 302\nattr s credit : int -9..100 = 7;\n\
attr s tags : set = {\"a\", \"b\"};\nattr o price : int 0..100 = 5;\n\
attr o label : text = \"x\\y\";\nenv hour : int 0..23 = 9;\nenv area : text = \"eu\";\n\
right play { pre b terms: done accept; on a left: s.credit > 0; after_end s.credit = 0 - 1; }\n\
right no { pre c never: 1 = 2; }\n\ntick 5\nenv hour 9\nenv area \"eu\"\n\
subject b\nvalue credit 7\nvalue tags {\"b\",\"c\"}\nsubject a\n\
value credit 7\nvalue tags {\"a\",\"b\"}\nobject song\nvalue price 5\n\
value label \"x\\y\"\nact a accept song 0\nsession 1 play a song accessing 5\n\
session 2 play b song requesting 0\n",
    b"\x01\x00\x00\x00\x162 act b accept song\nok",
    b"\x01\x00\x00\x00\x161 act a accept song\nok",
    b"\x01\x00\x00\x00\x0f1 end 1\nended 1",
    b"\x01\x00\x00\x00\x100 env area \"\"\nok",
    b"\x01\x00\x00\x00\x1f63 try b no song\ndenied 3 never",
    b"\x01\x00\x00\x00_0 amend attr s tags : set = {}; env day : int 0..6 = 1; env area : text = \"us\"; right see {}\nok",
    CLOSED,
];

/// A full check of a journal of one record and a checkpoint, over a disk and to a sink that don't fail.
const AUDIT: Played = Played {
    words: &["audit", "j"],
    file: WITH_A_AND_POINT,
    left: WITH_A_AND_POINT,
    ..PLAY
};

/// `play` of what is there, over a journal whose last checkpoint is right.
const PLAY_A: Played = Played {
    document: SUBJECT_A,
    output: b"0 1 already there\n",
    ..PLAY
};

/// Each record is run, and each checkpoint compared. The heads are by Python's hashlib: h = sha256(file[:8]), and then h = sha256(h + payload),
/// digest by digest.
pub const AUDITED_ROWS: &[Played] = &[
    Played {
        name: "no file",
        file: &[],
        output: b"records 0\nentries 0\nhead 663036308aa65cf86873b0e5df3e462335cc43ee6157575411030542e2ecfb52\naccessing 0\n",
        left: FRESH,
        ..AUDIT
    },
    Played {
        name: "nine bytes of another file",
        file: &[b"012345678"],
        output: b"records 0\nentries 0\nhead 663036308aa65cf86873b0e5df3e462335cc43ee6157575411030542e2ecfb52\naccessing 0\n",
        left: FRESH,
        ..AUDIT
    },
    Played {
        name: "version 1",
        file: OLD_WITH_A,
        output: b"records 2\nentries 1\nhead b819cb9009819bb0138f842de8b8ec8a86a027fe1f57027685e35b0117831f72\naccessing 0\n",
        left: OLD_WITH_A,
        ..AUDIT
    },
    Played {
        name: "version 1 without a record",
        file: OLD_WITHOUT_RECORD,
        output: b"records 0\nentries 0\nhead b2e786003d9b6e3749b354f4632cda2a2e75eddd1330f68795e42f0bba221899\naccessing 0\n",
        left: OLD_WITHOUT_RECORD,
        ..AUDIT
    },
    Played {
        name: "a checkpoint behind one entry",
        output: b"records 3\nentries 1\nhead d75b31cf05eb6508917df1fba42dac83a4f07350aa2b0a8f326c1d31cd3a0aea\naccessing 0\n",
        ..AUDIT
    },
    Played {
        name: "lines that are not run",
        document: SUBJECTS_B_AND_C,
        output: b"records 3\nentries 1\nhead d75b31cf05eb6508917df1fba42dac83a4f07350aa2b0a8f326c1d31cd3a0aea\naccessing 0\n",
        ..AUDIT
    },
    Played {
        name: "a torn checkpoint, which stays",
        file: TORN_POINT,
        output: b"records 2\nentries 1\nhead 2f2ade13745aed79bf0433cc068791a267842ecd9a84a6cd1972c62f45adcebd\naccessing 0\n",
        left: TORN_POINT,
        ..AUDIT
    },
    Played {
        name: "a record that is cut off, which stays",
        file: CUT_OFF,
        output: b"records 1\nentries 0\nhead 5ab67da621ecb0946395d494638e9658d0b526586b49f271a23fb3d530f089ad\naccessing 0\n",
        left: CUT_OFF,
        ..AUDIT
    },
    Played {
        name: "a head of no records",
        words: &[
            "audit",
            "j",
            "0",
            "663036308aa65cf86873b0e5df3e462335cc43ee6157575411030542e2ecfb52",
        ],
        output: b"records 3\nentries 1\nhead d75b31cf05eb6508917df1fba42dac83a4f07350aa2b0a8f326c1d31cd3a0aea\nextends yes\naccessing 0\n",
        ..AUDIT
    },
    Played {
        name: "a head of fewer records",
        words: &[
            "audit",
            "j",
            "2",
            "2f2ade13745aed79bf0433cc068791a267842ecd9a84a6cd1972c62f45adcebd",
        ],
        output: b"records 3\nentries 1\nhead d75b31cf05eb6508917df1fba42dac83a4f07350aa2b0a8f326c1d31cd3a0aea\nextends yes\naccessing 0\n",
        ..AUDIT
    },
    Played {
        name: "a head of all records",
        words: &[
            "audit",
            "j",
            "3",
            "d75b31cf05eb6508917df1fba42dac83a4f07350aa2b0a8f326c1d31cd3a0aea",
        ],
        output: b"records 3\nentries 1\nhead d75b31cf05eb6508917df1fba42dac83a4f07350aa2b0a8f326c1d31cd3a0aea\nextends yes\naccessing 0\n",
        ..AUDIT
    },
    Played {
        name: "a head of one record more",
        words: &[
            "audit",
            "j",
            "4",
            "d75b31cf05eb6508917df1fba42dac83a4f07350aa2b0a8f326c1d31cd3a0aea",
        ],
        output: b"records 3\nentries 1\nhead d75b31cf05eb6508917df1fba42dac83a4f07350aa2b0a8f326c1d31cd3a0aea\nextends no\naccessing 0\n",
        ..AUDIT
    },
    Played {
        name: "a head of as many records as there are numbers",
        words: &[
            "audit",
            "j",
            "18446744073709551615",
            "d75b31cf05eb6508917df1fba42dac83a4f07350aa2b0a8f326c1d31cd3a0aea",
        ],
        output: b"records 3\nentries 1\nhead d75b31cf05eb6508917df1fba42dac83a4f07350aa2b0a8f326c1d31cd3a0aea\nextends no\naccessing 0\n",
        ..AUDIT
    },
    Played {
        name: "a head of other records",
        words: &[
            "audit",
            "j",
            "2",
            "b819cb9009819bb0138f842de8b8ec8a86a027fe1f57027685e35b0117831f72",
        ],
        output: b"records 3\nentries 1\nhead d75b31cf05eb6508917df1fba42dac83a4f07350aa2b0a8f326c1d31cd3a0aea\nextends no\naccessing 0\n",
        ..AUDIT
    },
    Played {
        name: "a head of no records of another version",
        words: &[
            "audit",
            "j",
            "0",
            "b2e786003d9b6e3749b354f4632cda2a2e75eddd1330f68795e42f0bba221899",
        ],
        output: b"records 3\nentries 1\nhead d75b31cf05eb6508917df1fba42dac83a4f07350aa2b0a8f326c1d31cd3a0aea\nextends no\naccessing 0\n",
        ..AUDIT
    },
    Played {
        name: "two checkpoints of one place",
        file: WITH_A_AND_TWO_POINTS,
        output: b"records 4\nentries 1\nhead a9bfe510dca79afc7b805f0e8a64dcfdf92999a2342de960ecbb5b4d23e72315\naccessing 0\n",
        left: WITH_A_AND_TWO_POINTS,
        ..AUDIT
    },
    Played {
        name: "a use that wouldn't be permitted now",
        file: WANTING,
        document: PAY_PER_USE,
        output: b"records 5\nentries 4\nhead 9dc1bfcda38673a93341cbd19ac7546a929151cc0a6bd0082b0b182e18e12294\naccessing 1\nsession 1 deny funds\n",
        left: WANTING,
        ..AUDIT
    },
    Played {
        name: "uses that would wait or be denied now",
        file: LATE,
        document: LATE_POLICY,
        output: b"records 12\nentries 11\nhead c9ff8fdd121b4b16da6521468fc811a12a7f823058c8dba78f090244bc181706\naccessing 4\nsession 1 wait fresh\nsession 2 deny day\nsession 5 wait fresh\n",
        left: LATE,
        ..AUDIT
    },
    Played {
        name: "a checkpoint behind another policy",
        file: AMENDED_AND_POINT,
        output: b"records 4\nentries 2\nhead dbec4612f8197ae5e5df539372f8eb92ae6f1fe12fa241f94727329df00ace42\naccessing 0\n",
        left: AMENDED_AND_POINT,
        ..AUDIT
    },
];

/// The state of the same journal, over a disk and to a sink that don't fail.
const REPORT: Played = Played {
    words: &["report", "j"],
    ..AUDIT
};

/// The state is told as JSON, by a full check.
pub const REPORTED_ROWS: &[Played] = &[
    Played {
        name: "no file",
        file: &[],
        output: b"{\"acts\":[],\"entries\":0,\"env\":{},\"objects\":{},\"sessions\":[],\"subjects\":{},\"tick\":0}\n",
        left: FRESH,
        ..REPORT
    },
    Played {
        name: "no file under a policy with variables",
        file: &[],
        document: ALL_KINDS,
        output: b"{\"acts\":[],\"entries\":0,\"env\":{\"area\":\"eu\",\"hour\":9},\"objects\":{},\"sessions\":[],\"subjects\":{},\"tick\":0}\n",
        left: FRESH,
        ..REPORT
    },
    Played {
        name: "a checkpoint behind one entry",
        output: b"{\"acts\":[],\"entries\":1,\"env\":{},\"objects\":{},\"sessions\":[],\"subjects\":{\"a\":{}},\"tick\":0}\n",
        ..REPORT
    },
    Played {
        name: "a revoked use",
        file: REVOKED,
        document: PAY_PER_USE,
        output: b"{\"acts\":[],\"entries\":4,\"env\":{},\"objects\":{\"song\":{\"price\":5}},\"sessions\":[{\"caller\":0,\"number\":1,\"object\":\"song\",\"right\":\"play\",\"start\":0,\"state\":\"revoked\",\"subject\":\"ann\"}],\"subjects\":{\"ann\":{\"credit\":0}},\"tick\":0}\n",
        left: REVOKED,
        ..REPORT
    },
    Played {
        name: "a use that goes on",
        file: WANTING,
        document: PAY_PER_USE,
        output: b"{\"acts\":[],\"entries\":4,\"env\":{},\"objects\":{\"song\":{\"price\":5}},\"sessions\":[{\"caller\":0,\"number\":1,\"object\":\"song\",\"right\":\"play\",\"start\":0,\"state\":\"accessing\",\"subject\":\"ann\"}],\"subjects\":{\"ann\":{\"credit\":4}},\"tick\":0}\n",
        left: WANTING,
        ..REPORT
    },
    Played {
        name: "all kinds of values and sessions",
        file: WITH_ALL_KINDS,
        document: ALL_KINDS,
        output: b"{\"acts\":[{\"action\":\"accept\",\"at\":5,\"object\":\"song\",\"subject\":\"a\"},{\"action\":\"accept\",\"at\":5,\"object\":\"song\",\"subject\":\"b\"}],\"entries\":13,\"env\":{\"area\":\"\",\"hour\":9},\"objects\":{\"song\":{\"label\":\"x\\\\y\",\"price\":5}},\"sessions\":[{\"caller\":1,\"number\":1,\"object\":\"song\",\"right\":\"play\",\"start\":5,\"state\":\"ended\",\"subject\":\"a\"},{\"caller\":2,\"number\":2,\"object\":\"song\",\"right\":\"play\",\"start\":0,\"state\":\"requesting\",\"subject\":\"b\"},{\"caller\":63,\"number\":3,\"object\":\"song\",\"right\":\"no\",\"start\":0,\"state\":\"denied\",\"subject\":\"b\"}],\"subjects\":{\"a\":{\"credit\":-1,\"tags\":[\"a\",\"b\"]},\"b\":{\"credit\":7,\"tags\":[\"b\",\"c\"]}},\"tick\":5}\n",
        left: WITH_ALL_KINDS,
        ..REPORT
    },
    Played {
        name: "a torn checkpoint, which stays",
        file: TORN_POINT,
        output: b"{\"acts\":[],\"entries\":1,\"env\":{},\"objects\":{},\"sessions\":[],\"subjects\":{\"a\":{}},\"tick\":0}\n",
        left: TORN_POINT,
        ..REPORT
    },
];

/// The state is that under the policy in force, which isn't the journal's first.
pub const AMENDED_REPORTS: &[Played] = &[
    Played {
        name: "behind an amendment",
        file: WITH_ALL_KINDS_AMENDED,
        document: ALL_KINDS,
        output: b"{\"acts\":[{\"action\":\"accept\",\"at\":5,\"object\":\"song\",\"subject\":\"a\"},{\"action\":\"accept\",\"at\":5,\"object\":\"song\",\"subject\":\"b\"}],\"entries\":14,\"env\":{\"area\":\"\",\"day\":1},\"objects\":{\"song\":{}},\"sessions\":[{\"caller\":1,\"number\":1,\"object\":\"song\",\"right\":\"play\",\"start\":5,\"state\":\"ended\",\"subject\":\"a\"},{\"caller\":2,\"number\":2,\"object\":\"song\",\"right\":\"play\",\"start\":0,\"state\":\"requesting\",\"subject\":\"b\"},{\"caller\":63,\"number\":3,\"object\":\"song\",\"right\":\"no\",\"start\":0,\"state\":\"denied\",\"subject\":\"b\"}],\"subjects\":{\"a\":{\"tags\":[\"a\",\"b\"]},\"b\":{\"tags\":[\"b\",\"c\"]}},\"tick\":5}\n",
        left: WITH_ALL_KINDS_AMENDED,
        ..REPORT
    },
    Played {
        name: "behind an amendment and its checkpoint",
        file: AMENDED_AND_POINT,
        output: b"{\"acts\":[],\"entries\":2,\"env\":{},\"objects\":{},\"sessions\":[],\"subjects\":{\"a\":{\"k\":3}},\"tick\":0}\n",
        left: AMENDED_AND_POINT,
        ..REPORT
    },
];

/// The first record that is wrong is told, and another policy only where none is. Behind some rows stands what `play` makes of the same file, which
/// it opens at its last checkpoint.
pub const UNTOLD_ROWS: &[Played] = &[
    Played {
        name: "ten bytes of another file",
        file: FOREIGN,
        status: 8,
        told: b"ucon: not a journal\n",
        left: FOREIGN,
        ..AUDIT
    },
    Played {
        name: "a checkpoint with the first policy's text",
        file: FIRST_POLICY_IN_POINT,
        status: 7,
        told: b"ucon: damaged record 3 at 83\n",
        left: FIRST_POLICY_IN_POINT,
        ..AUDIT
    },
    Played {
        name: "a reply changed before the checkpoint",
        file: CHANGED_BEFORE_POINT,
        status: 7,
        told: b"ucon: damaged record 1 at 24\n",
        left: CHANGED_BEFORE_POINT,
        ..AUDIT
    },
    Played {
        name: "which opening doesn't see",
        file: CHANGED_BEFORE_POINT,
        left: CHANGED_BEFORE_POINT,
        ..PLAY_A
    },
    Played {
        name: "a name changed in the checkpoint",
        file: WRONG_SUBJECT,
        status: 7,
        told: b"ucon: damaged record 2 at 43\n",
        left: WRONG_SUBJECT,
        ..AUDIT
    },
    Played {
        name: "which opening sees",
        file: WRONG_SUBJECT,
        status: 7,
        output: b"",
        told: b"ucon: damaged record 2 at 43\n",
        left: WRONG_SUBJECT,
        ..PLAY_A
    },
    Played {
        name: "another number in the checkpoint",
        file: WRONG_NUMBER,
        status: 7,
        told: b"ucon: damaged record 2 at 43\n",
        left: WRONG_NUMBER,
        ..AUDIT
    },
    Played {
        name: "which opening sees, too",
        file: WRONG_NUMBER,
        status: 7,
        output: b"",
        told: b"ucon: damaged record 2 at 43\n",
        left: WRONG_NUMBER,
        ..PLAY_A
    },
    Played {
        name: "a name changed in the first of two checkpoints",
        file: WRONG_POINT_BEFORE_POINT,
        status: 7,
        told: b"ucon: damaged record 2 at 43\n",
        left: WRONG_POINT_BEFORE_POINT,
        ..AUDIT
    },
    Played {
        name: "which opening doesn't see, either",
        file: WRONG_POINT_BEFORE_POINT,
        left: WRONG_POINT_BEFORE_POINT,
        ..PLAY_A
    },
    Played {
        name: "a checkpoint in version 1",
        file: OLD_WITH_POINT,
        status: 7,
        told: b"ucon: damaged record 2 at 43\n",
        left: OLD_WITH_POINT,
        ..AUDIT
    },
    Played {
        name: "another policy",
        document: OTHER_POLICY,
        status: 10,
        told: b"ucon: other policy at 6\n",
        ..AUDIT
    },
    Played {
        name: "another policy and a reply changed",
        file: WRONG_REPLY,
        document: OTHER_POLICY,
        status: 7,
        told: b"ucon: damaged record 1 at 24\n",
        left: WRONG_REPLY,
        ..AUDIT
    },
    Played {
        name: "a client that may not",
        file: WRONG_CALLER,
        status: 7,
        told: b"ucon: damaged record 1 at 24\n",
        left: WRONG_CALLER,
        ..AUDIT
    },
    Played {
        name: "no policy",
        file: NO_POLICY,
        status: 7,
        told: b"ucon: damaged record 0 at 8\n",
        left: NO_POLICY,
        ..AUDIT
    },
    Played {
        name: "a refused policy",
        document: b"right r {",
        status: 2,
        told: b"ucon: policy: unexpected at 9\n",
        ..AUDIT
    },
    Played {
        name: "a refused line",
        document: b"right r {}\n%%\nclient 0\nsubject\n",
        status: 3,
        told: b"ucon: script: wrong count at line 4\n",
        ..AUDIT
    },
    Played {
        name: "a failing sink",
        sink_faults: &[9],
        status: 5,
        output: b"records 3",
        told: b"ucon: sink fault\n",
        ..AUDIT
    },
    Played {
        name: "a file that opening alone accepts, of which the state was asked",
        file: CHANGED_BEFORE_POINT,
        status: 7,
        told: b"ucon: damaged record 1 at 24\n",
        left: CHANGED_BEFORE_POINT,
        ..REPORT
    },
    Played {
        name: "ten bytes of another file, of which the state was asked",
        file: FOREIGN,
        status: 8,
        told: b"ucon: not a journal\n",
        left: FOREIGN,
        ..REPORT
    },
    Played {
        name: "another policy, of which the state was asked",
        document: OTHER_POLICY,
        status: 10,
        told: b"ucon: other policy at 6\n",
        ..REPORT
    },
    Played {
        name: "a failing sink, of which the state was asked",
        sink_faults: &[9],
        status: 5,
        output: b"{\"acts\":[",
        told: b"ucon: sink fault\n",
        ..REPORT
    },
];

/// One row of each form that runs no line.
pub const TELLING_ROWS: &[Played] = &[
    EXPLAIN,
    Played {
        file: LATE,
        document: LATE_POLICY,
        output: b"records 12\nentries 11\nhead c9ff8fdd121b4b16da6521468fc811a12a7f823058c8dba78f090244bc181706\naccessing 4\nsession 1 wait fresh\nsession 2 deny day\nsession 5 wait fresh\n",
        left: LATE,
        ..AUDIT
    },
    Played {
        file: WANTING,
        document: PAY_PER_USE,
        output: b"{\"acts\":[],\"entries\":4,\"env\":{},\"objects\":{\"song\":{\"price\":5}},\"sessions\":[{\"caller\":0,\"number\":1,\"object\":\"song\",\"right\":\"play\",\"start\":0,\"state\":\"accessing\",\"subject\":\"ann\"}],\"subjects\":{\"ann\":{\"credit\":4}},\"tick\":0}\n",
        left: WANTING,
        ..REPORT
    },
];
