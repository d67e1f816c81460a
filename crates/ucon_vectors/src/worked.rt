//! The worked rows: small documents, each with what `trial` prints of it, as one works it out by hand from the rules.

use crate::Row;

/// Pay-per-use music.
pub const MUSIC: &[u8] = b"attr s credit : int 0..1000000 = 0;
attr s member : text = \"none\";
attr s bought : set = {};
attr o price : int 0..10000 = 5;
attr o plays : int 0..1000000 = 0;
env region : text = \"eu\";
right play {
  pre a funds: s.credit >= o.price;
  pre b terms: done accept;
  pre c area: env.region = \"eu\";
  on a good: s.member != \"blocked\";
  on b ads: every 30 click;
  before s.credit = s.credit - o.price;
  during s.credit = s.credit - 1;
  after_end o.plays = o.plays + 1;
  after_revoke o.plays = o.plays + 1;
}
";

/// A usage that costs credit, and goes on while some is left.
pub const PAY_PER_USE: &[u8] = b"attr s credit : int 0..100 = 0;
attr o price : int 0..100 = 5;
right play {
  pre a funds: s.credit >= o.price;
  on a left: s.credit > 0;
  before s.credit = s.credit - o.price;
}
";

/// So many users at most.
pub const CAPPED: &[u8] = b"attr o users : int 0..1000 = 0;
attr o most : int 0..1000 = 3;
right use {
  on a cap: o.users <= o.most;
  before o.users = o.users + 1;
  after_end o.users = o.users - 1;
  after_revoke o.users = o.users - 1;
}
";

/// An obligation and a condition, by an attribute and a variable with ranges.
pub const ASKED: &[u8] = b"attr s credit : int 0..100 = 0;
env hour : int 0..23 = 9;
right play { pre b asked: done click; pre c late: env.hour >= 10; }
";

/// The revocation of one usage ends another.
pub const PULLED: &[u8] = b"attr s good : int 0..1 = 1;
attr o flag : int 0..1 = 0;
right ra { on a la: o.flag = 0; }
right rb { on a lb: s.good = 1; after_revoke o.flag = 1; }
";

/// An authorisation, an obligation and a condition before a usage.
pub const SALE: &[u8] = b"attr s age : int 0..150 = 0;
env hour : int 0..23 = 9;
right buy { pre b sign: done sign_up; pre c late: env.hour >= 10; pre a adult: s.age >= 18; }
";

/// A click every thirty ticks.
pub const WATCHED: &[u8] = b"right watch { on b ads: every 30 click; }
";

/// Sums that reach the ends of their ranges.
pub const CLAMPED: &[u8] = b"attr s n : int -1000000000000000..1000000000000000 = 1000000000000000;
attr s k : int 0..9 = 0;
right r { pre a t: s.k = 0; before s.n = s.n + 1; before s.k = s.k - 1; }
";

/// A set that grows.
pub const TAGGED: &[u8] =
    b"attr s tags : set = {}; right r { pre a t: size(s.tags) >= 0; before s.tags = s.tags + \"zz\"; }
";

/// The rows: those that `docs/definitions.md` works out, in its order, and two in which each command comes.
pub const WORKED_ROWS: &[Row] = &[
    Row {
        name: "pay_per_use_music",
        policy: MUSIC,
        script: b"client 0
subject ann
subject bob
subject cat
object song
object film
set s ann credit 12
client 1
try ann play song
act ann accept song
again 1
beat 1
value s ann credit
client 2
try bob play song
end 1
client 0
tick 31
value o song plays
",
        output: b"0 1 ok
0 2 ok
0 3 ok
0 4 ok
0 5 ok
0 6 ok
1 7 waiting 1 terms
1 8 ok
1 9 permitted 1
1 10 ok
1 10 value 6
2 11 denied 2 funds
2 11 not yours
0 12 ok revoked 1 ads
0 12 value 1
",
    },
    Row {
        name: "nothing",
        policy: b"",
        script: b"",
        output: b"",
    },
    Row {
        name: "the_first_run",
        policy: PAY_PER_USE,
        script: b"client 0
subject ann
object song
set s ann credit 5
try ann play song
value s ann credit
",
        output: b"0 1 ok
0 2 ok
0 3 ok
0 4 permitted 1 revoked 1 left
0 4 value 0
",
    },
    Row {
        name: "three_users_at_most",
        policy: CAPPED,
        script: b"client 0
subject a
subject b
subject c
subject d
object x
client 1
try a use x
try b use x
try c use x
try d use x
value o x users
",
        output: b"0 1 ok
0 2 ok
0 3 ok
0 4 ok
0 5 ok
1 6 permitted 1
1 7 permitted 2
1 8 permitted 3
1 9 permitted 4 revoked 1 cap
1 9 value 3
",
    },
    Row {
        name: "usages_go_on_and_end",
        policy: CAPPED,
        script: b"client 0
subject a
subject b
subject c
subject d
object x
client 1
try a use x
try b use x
try c use x
try d use x
value o x users
look 1
client 2
end 2
client 1
end 2
end 2
subject z
again 4
beat 5
beat 4
client 0
set o x most 1
client 1
value o x users
look 4
",
        output: b"0 1 ok
0 2 ok
0 3 ok
0 4 ok
0 5 ok
1 6 permitted 1
1 7 permitted 2
1 8 permitted 3
1 9 permitted 4 revoked 1 cap
1 9 value 3
1 9 status 1 revoked
2 9 not yours
1 10 ended 2
1 10 not accessing
1 10 not admin
1 10 not requesting
1 10 no session
1 11 ok
0 12 ok revoked 3 cap
1 12 value 1
1 12 status 4 accessing
",
    },
    Row {
        name: "each_call_once",
        policy: ASKED,
        script: b"client 0
subject ann
object song
value s ann credit
try ann play song
set s ann credit 5
env hour 10
tick 7
try ann play song
act ann click song
again 2
set s ann credit 101
env hour 24
tick 6
subject ann
value s ann credit
look 1
end 2
look 2
",
        output: b"0 1 ok
0 2 ok
0 2 value 0
0 3 denied 1 late
0 4 ok
0 5 ok
0 6 ok
0 7 waiting 2 asked
0 8 ok
0 9 permitted 2
0 9 bad value
0 9 bad value
0 9 tick back
0 9 already there
0 9 value 5
0 9 status 1 denied
0 10 ended 2
0 10 status 2 ended
",
    },
    Row {
        name: "a_cap_of_zero",
        policy: CAPPED,
        script: b"client 0
subject a
object x
set o x most 0
try a use x
value o x users
",
        output: b"0 1 ok
0 2 ok
0 3 ok
0 4 permitted 1 revoked 1 cap
0 4 value 0
",
    },
    Row {
        name: "a_higher_session_pulls_a_lower_one",
        policy: PULLED,
        script: b"client 0
subject a
object x
try a ra x
try a rb x
set s a good 0
",
        output: b"0 1 ok
0 2 ok
0 3 permitted 1
0 4 permitted 2
0 5 ok revoked 2 lb revoked 1 la
",
    },
    Row {
        name: "a_revocation_saves_the_next",
        policy: CAPPED,
        script: b"client 0
subject a
subject b
subject c
subject d
object x
client 1
try a use x
try b use x
try c use x
client 0
set o x most 2
look 1
look 2
look 3
",
        output: b"0 1 ok
0 2 ok
0 3 ok
0 4 ok
0 5 ok
1 6 permitted 1
1 7 permitted 2
1 8 permitted 3
0 9 ok revoked 1 cap
0 9 status 1 revoked
0 9 status 2 accessing
0 9 status 3 accessing
",
    },
    Row {
        name: "order_of_predicates_and_waiting",
        policy: SALE,
        script: b"client 0
subject a
object x
try a buy x
env hour 10
try a buy x
set s a age 18
try a buy x
act a sign_up x
again 3
again 3
look 3
look 4
again 1
",
        output: b"0 1 ok
0 2 ok
0 3 denied 1 late
0 4 ok
0 5 denied 2 adult
0 6 ok
0 7 waiting 3 sign
0 8 ok
0 9 permitted 3
0 9 not requesting
0 9 status 3 accessing
0 9 no session
0 9 not requesting
",
    },
    Row {
        name: "every_thirty_with_an_act",
        policy: WATCHED,
        script: b"client 0
subject a
object x
try a watch x
tick 30
act a click x
tick 60
tick 61
",
        output: b"0 1 ok
0 2 ok
0 3 permitted 1
0 4 ok
0 5 ok
0 6 ok
0 7 ok revoked 1 ads
",
    },
    Row {
        name: "every_thirty_without_an_act",
        policy: WATCHED,
        script: b"client 0
subject a
object x
try a watch x
tick 30
tick 31
",
        output: b"0 1 ok
0 2 ok
0 3 permitted 1
0 4 ok
0 5 ok revoked 1 ads
",
    },
    Row {
        name: "clamps",
        policy: CLAMPED,
        script: b"client 0
subject a
object x
try a r x
value s a n
value s a k
set s a k 10
set s a k \"x\"
value s a k
",
        output: b"0 1 ok
0 2 ok
0 3 permitted 1
0 3 value 1000000000000000
0 3 value 0
0 3 bad value
0 3 bad value
0 3 value 0
",
    },
    Row {
        name: "a_full_set",
        policy: TAGGED,
        script: b"client 0
subject a
object x
set s a tags {\"a00\",\"a01\",\"a02\",\"a03\",\"a04\",\"a05\",\"a06\",\"a07\",\"a08\",\"a09\",\"a10\",\"a11\",\"a12\",\"a13\",\"a14\",\"a15\",\"a16\",\"a17\",\"a18\",\"a19\",\"a20\",\"a21\",\"a22\",\"a23\",\"a24\",\"a25\",\"a26\",\"a27\",\"a28\",\"a29\",\"a30\",\"a31\",\"a32\",\"a33\",\"a34\",\"a35\",\"a36\",\"a37\",\"a38\",\"a39\",\"a40\",\"a41\",\"a42\",\"a43\",\"a44\",\"a45\",\"a46\",\"a47\",\"a48\",\"a49\",\"a50\",\"a51\",\"a52\",\"a53\",\"a54\",\"a55\",\"a56\",\"a57\",\"a58\",\"a59\",\"a60\",\"a61\",\"a62\",\"a63\"}
try a r x
value s a tags
set s a tags {\"zz\"}
try a r x
value s a tags
",
        output: b"0 1 ok
0 2 ok
0 3 ok
0 4 permitted 1
0 4 value {\"a00\",\"a01\",\"a02\",\"a03\",\"a04\",\"a05\",\"a06\",\"a07\",\"a08\",\"a09\",\"a10\",\"a11\",\"a12\",\"a13\",\"a14\",\"a15\",\"a16\",\"a17\",\"a18\",\"a19\",\"a20\",\"a21\",\"a22\",\"a23\",\"a24\",\"a25\",\"a26\",\"a27\",\"a28\",\"a29\",\"a30\",\"a31\",\"a32\",\"a33\",\"a34\",\"a35\",\"a36\",\"a37\",\"a38\",\"a39\",\"a40\",\"a41\",\"a42\",\"a43\",\"a44\",\"a45\",\"a46\",\"a47\",\"a48\",\"a49\",\"a50\",\"a51\",\"a52\",\"a53\",\"a54\",\"a55\",\"a56\",\"a57\",\"a58\",\"a59\",\"a60\",\"a61\",\"a62\",\"a63\"}
0 5 ok
0 6 permitted 2
0 6 value {\"zz\"}
",
    },
    Row {
        name: "not_yours",
        policy: CAPPED,
        script: b"client 0
subject a
object x
client 1
try a use x
client 2
end 1
client 1
end 1
end 1
subject z
",
        output: b"0 1 ok
0 2 ok
1 3 permitted 1
2 3 not yours
1 4 ended 1
1 4 not accessing
1 4 not admin
",
    },
    Row {
        name: "ticks",
        policy: b"",
        script: b"client 0
tick 0
tick 5
tick 4
tick 1000000000000000
",
        output: b"0 1 ok
0 2 ok
0 2 tick back
0 3 ok
",
    },
];
