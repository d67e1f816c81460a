//! Policies replaced as a step: documents, each with what `trial` prints of it, as one works it out by hand from the rules.

use crate::{CAPPED, Row};

/// Three attributes, a variable and two rights, of which amendments take some away and bring some back.
const LENT: &[u8] = b"attr s credit : int 0..100 = 5;
attr o name : text = \"old\";
env hour : int 0..23 = 9;
right borrow { pre b sign: done sign_up; on c open: env.hour < 18; after_end s.credit = s.credit + 1; }
right read { on a rich: s.credit > 0; during s.credit = s.credit - 1; }
";

/// The rows.
pub const AMENDED_ROWS: &[Row] = &[
    Row {
        name: "a_right_taken_away",
        policy: CAPPED,
        script: b"client 0
subject a
object x
try a use x
amend attr o users : int 0..1000 = 0; attr o most : int 0..1000 = 0; right see {}
value o x most
value o x users
try a use x
object y
value o y most
amend attr o users : int 0..9 = 0;
client 1
amend right r {}
client 0
amend right r {}
value o x users
",
        output: b"0 1 ok
0 2 ok
0 3 permitted 1
0 4 ok revoked 1 no_right
0 4 value 3
0 4 value 1
0 4 no right
0 5 ok
0 5 value 0
0 5 kind changed
1 5 not admin
0 6 ok
0 6 no attribute
",
    },
    // An attribute and a variable that were dropped come back with their new defaults and not with their old values; what stays keeps
    // its value, also if its default is new, and an entity that is made later has the new default.
    Row {
        name: "dropped_and_brought_back",
        policy: LENT,
        script: b"client 0
subject ann
object book
set s ann credit 50
set o book name \"mine\"
env hour 17
amend attr s credit : int 0..100 = 7;
value s ann credit
value o book name
env hour 18
subject bob
value s bob credit
amend attr o name : text = \"new\"; env hour : int 0..23 = 12; right late { pre c noon: env.hour = 12; }
value s ann credit
value o book name
try bob late book
object film
value o film name
amend attr s credit : int 0..1 = 1;
value s ann credit
value s bob credit
value o book name
",
        output: b"0 1 ok
0 2 ok
0 3 ok
0 4 ok
0 5 ok
0 6 ok
0 6 value 50
0 6 no attribute
0 6 no variable
0 7 ok
0 7 value 7
0 8 ok
0 8 no attribute
0 8 value \"new\"
0 9 permitted 1
0 10 ok
0 10 value \"new\"
0 11 ok revoked 1 no_right
0 11 value 1
0 11 value 1
0 11 no attribute
",
    },
    // A session that waits is decided by its right as it comes back; one that is accessing is revoked by a right that goes, and by the
    // new predicates of one that stays, in the one order; one that ended stays ended.
    Row {
        name: "sessions_under_a_right_that_goes_and_comes_back",
        policy: LENT,
        script: b"client 0
subject ann
object book
try ann borrow book
client 1
try ann read book
try ann read book
end 2
try ann read book
client 0
amend attr s credit : int 0..100 = 5; right read { on a poor: s.credit < 5; after_revoke s.credit = s.credit - 1; }
again 1
again 9
look 2
look 3
look 4
value s ann credit
amend right borrow {}
again 1
amend right read {}
look 1
look 3
client 1
end 3
client 0
again 1
",
        output: b"0 1 ok
0 2 ok
0 3 waiting 1 sign
1 4 permitted 2
1 5 permitted 3
1 6 ended 2
1 7 permitted 4
0 8 ok revoked 3 poor
0 8 no right
0 8 no session
0 8 status 2 ended
0 8 status 3 revoked
0 8 status 4 accessing
0 8 value 4
0 9 ok revoked 4 no_right
0 10 permitted 1
0 11 ok revoked 1 no_right
0 11 status 1 revoked
0 11 status 3 revoked
1 11 not accessing
0 11 no right
",
    },
    // Each way in which a kind may change, and what is no change.
    Row {
        name: "kinds_that_change",
        policy: LENT,
        script: b"client 0
amend attr s credit : int 0..101 = 5;
amend attr s credit : int 1..100 = 5;
amend attr s credit : text = \"5\";
amend attr o name : set = {};
amend env hour : int 0..24 = 9;
amend attr s name : set = {}; attr o credit : text = \"5\"; env credit : set = {};
amend attr s name : set = {\"a\"}; attr s credit : text = \"5\"; attr o name : int 0..1 = 1; env hour : text = \"\";
amend attr s credit : int 0..100 = 5; attr o name : int 0..2 = 1;
",
        output: b"0 0 kind changed
0 0 kind changed
0 0 kind changed
0 0 kind changed
0 0 kind changed
0 1 ok
0 2 ok
0 2 kind changed
",
    },
    // An empty policy, written with one space and nothing behind it, takes all away; a comment reaches to the end of the line. Acts stay:
    // what was told counts again when an obligation names it again.
    Row {
        name: "an_empty_policy",
        policy: LENT,
        script: b"client 0
subject ann
object book
act ann sign_up book
amend 
act ann sign_up book
try ann borrow book
value s ann credit
amend # nothing at all; right borrow {}
try ann borrow book
amend right borrow { pre b sign: done sign_up; }
try ann borrow book
",
        output: b"0 1 ok
0 2 ok
0 3 ok
0 4 ok
0 4 no act
0 4 no right
0 4 no attribute
0 5 ok
0 5 no right
0 6 ok
0 7 permitted 1
",
    },
    // What was brought and dropped in between is as if it had never been there; its default is that of the last amendment that brings it.
    Row {
        name: "the_last_that_brings_it",
        policy: b"",
        script: b"client 0
subject ann
amend attr s k : int 0..9 = 1; env v : int 0..9 = 1;
set s ann k 5
env v 5
amend attr s k : int 0..9 = 2; env v : int 0..9 = 2; right r { pre a t: s.k = 5; pre c u: env.v = 5; }
object x
try ann r x
amend right r {}
amend attr s k : int 0..9 = 3; env v : int 0..9 = 3; right r { pre a t: s.k = 3; pre c u: env.v = 3; }
value s ann k
try ann r x
",
        output: b"0 1 ok
0 2 ok
0 3 ok
0 4 ok
0 5 ok
0 6 ok
0 7 permitted 1
0 8 ok
0 9 ok
0 9 value 3
0 10 permitted 2
",
    },
];
