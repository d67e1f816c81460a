//! The examples of the user's pages, as those pages print them. `.ci/examples` writes this file, and holds it against them.

use crate::Example;

/// The examples, in the order of the pages.
pub const LANGUAGE_EXAMPLES: &[Example] = &[
    Example {
        name: "policy-language 1",
        form: "trial",
        document: b"attr s credit : int 0..100 = 20;
attr s member : text = \"none\";
attr o tags : set = {\"loud\", \"new\"};
%%
client 0
subject ann
object song
value s ann credit
value s ann member
value o song tags
set s ann credit 101
",
        status: 0,
        text: b"0 1 ok
0 2 ok
0 2 value 20
0 2 value \"none\"
0 2 value {\"loud\",\"new\"}
0 2 bad value
",
    },
    Example {
        name: "policy-language 2",
        form: "trial",
        document: b"env hour : int 0..23 = 9;
right enter { pre c open: env.hour >= 8 and env.hour < 18; }
%%
client 0
subject ann
object hall
try ann enter hall
env hour 20
try ann enter hall
",
        status: 0,
        text: b"0 1 ok
0 2 ok
0 3 permitted 1
0 4 ok
0 5 denied 2 open
",
    },
    Example {
        name: "policy-language 3",
        form: "trial",
        document: b"attr s age : int 0..150 = 0;
right watch {
  pre a adult: s.age >= 18;
  pre a alive: s.age < 150;
}
right listen {}
%%
client 0
subject ann
object film
try ann watch film
try ann listen film
",
        status: 0,
        text: b"0 1 ok
0 2 ok
0 3 denied 1 adult
0 4 permitted 2
",
    },
    Example {
        name: "policy-language 4",
        form: "trial",
        document: b"attr s age : int 0..150 = 0;
right buy {
  pre b sign: done sign_up;
  pre a adult: s.age >= 18;
}
%%
client 0
subject ann
object wine
try ann buy wine
set s ann age 18
try ann buy wine
act ann sign_up wine
again 2
again 1
",
        status: 0,
        text: b"0 1 ok
0 2 ok
0 3 denied 1 adult
0 4 ok
0 5 waiting 2 sign
0 6 ok
0 7 permitted 2
0 7 not requesting
",
    },
    Example {
        name: "policy-language 5",
        form: "trial",
        document: b"attr o users : int 0..1000 = 0;
attr o most : int 0..1000 = 3;
right use {
  on a cap: o.users <= o.most;
  before o.users = o.users + 1;
  after_end o.users = o.users - 1;
  after_revoke o.users = o.users - 1;
}
%%
client 0
subject ann
subject bob
object hall
try ann use hall
try bob use hall
set o hall most 1
look 1
look 2
",
        status: 0,
        text: b"0 1 ok
0 2 ok
0 3 ok
0 4 permitted 1
0 5 permitted 2
0 6 ok revoked 1 cap
0 6 status 1 revoked
0 6 status 2 accessing
",
    },
    Example {
        name: "policy-language 6",
        form: "trial",
        document: b"attr s credit : int 0..10 = 10;
attr o plays : int 0..1000 = 0;
right play {
  pre a any: s.credit > 0;
  on a left: s.credit >= 0;
  before s.credit = s.credit - 4;
  during s.credit = s.credit - 20;
  after_end o.plays = o.plays + s.credit + 1;
}
%%
client 0
subject ann
object song
try ann play song
value s ann credit
beat 1
value s ann credit
end 1
value o song plays
",
        status: 0,
        text: b"0 1 ok
0 2 ok
0 3 permitted 1
0 3 value 6
0 4 ok
0 4 value 0
0 5 ended 1
0 5 value 1
",
    },
    Example {
        name: "policy-language 7",
        form: "trial",
        document: b"attr s n : int 0..1000 = 0;
attr s tags : set = {\"new\"};
right count {
  pre a few: size(s.tags) <= 2;
  before s.n = 2 + 3 * 4 - (1 - 2);
  before s.tags = s.tags + \"old\";
  before s.tags = s.tags - \"new\";
}
%%
client 0
subject ann
object song
try ann count song
value s ann n
value s ann tags
",
        status: 0,
        text: b"0 1 ok
0 2 ok
0 3 permitted 1
0 3 value 15
0 3 value {\"old\"}
",
    },
    Example {
        name: "policy-language 8",
        form: "trial",
        document: b"attr s role : text = \"guest\";
attr s tags : set = {};
attr o level : int 0..9 = 3;
right open {
  pre a allowed: not s.role = \"banned\" and [ s.role = \"owner\" or o.level < 2 or \"vip\" in s.tags ];
}
%%
client 0
subject ann
object door
try ann open door
set s ann tags {\"vip\"}
try ann open door
set s ann role \"banned\"
try ann open door
",
        status: 0,
        text: b"0 1 ok
0 2 ok
0 3 denied 1 allowed
0 4 ok
0 5 permitted 2
0 6 ok
0 7 denied 3 allowed
",
    },
    Example {
        name: "policy-language 9",
        form: "trial",
        document: b"right visit {
  pre b seen: within 5 check by \"guard\" on \"door\";
  on b here: every 30 click;
}
%%
client 0
subject ann
subject guard
object hall
object door
try ann visit hall
act guard check door
tick 5
again 1
act ann click hall
tick 35
tick 36
",
        status: 0,
        text: b"0 1 ok
0 2 ok
0 3 ok
0 4 ok
0 5 waiting 1 seen
0 6 ok
0 7 ok
0 8 permitted 1
0 9 ok
0 10 ok
0 11 ok revoked 1 here
",
    },
    Example {
        name: "policy-language 10",
        form: "trial",
        document: b"right visit { on c short: lasts 10; }
%%
client 0
subject ann
object hall
try ann visit hall
tick 10
tick 11
",
        status: 0,
        text: b"0 1 ok
0 2 ok
0 3 permitted 1
0 4 ok
0 5 ok revoked 1 short
",
    },
    Example {
        name: "policy-language 11",
        form: "trial",
        document: b"right r { pre c t: lasts 5; }
",
        status: 2,
        text: b"ucon: policy: wrong reader at item 2
",
    },
    Example {
        name: "policy-language 12",
        form: "trial",
        document: b"attr s n : int 0..9 = 0;
right r { pre c t: 1 = 1; before s.n = 1; }
",
        status: 2,
        text: b"ucon: policy: not core r
",
    },
    Example {
        name: "policy-language 13",
        form: "check",
        document: b"attr o users : int 0..1000 = 0;
right use {
  on a cap: o.users <= 3;
  on c short: lasts 100;
  before o.users = o.users + 1;
  after_end o.users = o.users - 1;
}
right look {}
",
        status: 0,
        text: b"right use onA1 onA3 onC0
right look
",
    },
    Example {
        name: "policy-language 14",
        form: "trial",
        document: b"attr s on : int 0..1 = 1;   # an attribute named on
right right { pre a a: s.on = 1; }
%%
# a comment of the script
client 0
subject s
object o
try s right o
",
        status: 0,
        text: b"0 1 ok
0 2 ok
0 3 permitted 1
",
    },
    Example {
        name: "policy-language 15",
        form: "trial",
        document: b"attr s credit : int 0..100 = 5;
attr o name : text = \"none\";
right read {
  on a paid: s.credit > 0;
}
%%
client 0
subject ann
object book
set o book name \"mine\"
try ann read book
amend attr s credit : int 0..100 = 9; attr s age : int 0..150 = 18; right read { on a adult: s.age >= 18; }
value s ann credit
value s ann age
value o book name
subject bob
value s bob credit
amend attr s credit : int 0..9 = 0;
amend right lend {}
try ann read book
",
        status: 0,
        text: b"0 1 ok
0 2 ok
0 3 ok
0 4 permitted 1
0 5 ok
0 5 value 5
0 5 value 18
0 5 no attribute
0 6 ok
0 6 value 9
0 6 kind changed
0 7 ok revoked 1 no_right
0 7 no right
",
    },
];
