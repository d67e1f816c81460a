//! The examples of the user's pages, as those pages print them. `.ci/examples` writes this file, and holds it against them.

use crate::Example;

/// The examples, in the order of the pages.
pub const GUIDE_EXAMPLES: &[Example] = &[
    Example {
        name: "commands 1",
        form: "trial",
        document: b"attr o seats : int 0..9 = 1;
attr o taken : int 0..9 = 0;
right sit {
  on a room: o.taken <= o.seats;
  before o.taken = o.taken + 1;
  after_end o.taken = o.taken - 1;
  after_revoke o.taken = o.taken - 1;
}
%%
client 0
subject ann
subject bob
object bench
client 1
try ann sit bench
client 2
try bob sit bench
client 1
look 1
client 2
end 2
value o bench taken
",
        status: 0,
        text: b"0 1 ok
0 2 ok
0 3 ok
1 4 permitted 1
2 5 permitted 2 revoked 1 room
1 5 status 1 revoked
2 6 ended 2
2 6 value 0
",
    },
    Example {
        name: "commands 2",
        form: "trial",
        document: b"attr s age : int 0..150 = 0;
env hour : int 0..23 = 9;
right buy { pre b sign: done sign_up; }
%%
client 1
subject ann
client 0
subject ann
subject ann
object wine
set s bob age 1
set s ann size 1
set s ann age 151
set o ann age 1
env minute 1
tick 5
tick 4
act bob sign_up wine
act ann sign_up beer
act ann dance wine
try ann sell wine
try bob buy wine
try ann buy beer
try ann buy wine
look 2
end 2
end 1
client 2
again 1
client 0
act ann sign_up wine
again 1
again 1
",
        status: 0,
        text: b"1 0 not admin
0 1 ok
0 1 already there
0 2 ok
0 2 no subject
0 2 no attribute
0 2 bad value
0 2 no object
0 2 no variable
0 3 ok
0 3 tick back
0 3 no subject
0 3 no object
0 3 no act
0 3 no right
0 3 no subject
0 3 no object
0 4 waiting 1 sign
0 4 no session
0 4 no session
0 4 not accessing
2 4 not yours
0 5 ok
0 6 permitted 1
0 6 not requesting
",
    },
    Example {
        name: "commands 3",
        form: "trial",
        document: b"right borrow { pre b sign: done sign_up; }
%%
client 0
subject ann
object book
client 1
try ann borrow book
client 0
amend right sell {}
client 1
again 1
client 0
amend right borrow { pre b sign: done sign_up; }
act ann sign_up book
client 1
again 1
amend right sell {}
client 0
amend right sell {}
",
        status: 0,
        text: b"0 1 ok
0 2 ok
1 3 waiting 1 sign
0 4 ok
1 4 no right
0 5 ok
0 6 ok
1 7 permitted 1
1 7 not admin
0 8 ok revoked 1 no_right
",
    },
    Example {
        name: "errors 1",
        form: "trial",
        document: b"right r {
",
        status: 2,
        text: b"ucon: policy: unexpected at 10
",
    },
    Example {
        name: "errors 2",
        form: "trial",
        document: b"right r { pre a t: 1 = 1; } ?
",
        status: 2,
        text: b"ucon: policy: unknown byte at 28
",
    },
    Example {
        name: "errors 3",
        form: "trial",
        document: b"right r { pre a t: \"a = \"b\"; }
",
        status: 2,
        text: b"ucon: policy: unexpected at 25
",
    },
    Example {
        name: "errors 4",
        form: "trial",
        document: b"right r { pre a a_name_of_more_than_thirty_two_bytes: 1 = 1; }
",
        status: 2,
        text: b"ucon: policy: too long at 16
",
    },
    Example {
        name: "errors 5",
        form: "trial",
        document: b"right r { pre a t: s.x = 1; }
",
        status: 2,
        text: b"ucon: policy: no name x at item 2
",
    },
    Example {
        name: "errors 6",
        form: "trial",
        document: b"attr s n : int 5..3 = 4;
",
        status: 2,
        text: b"ucon: policy: wrong kind at item 1
",
    },
    Example {
        name: "errors 7",
        form: "trial",
        document: b"right r { pre a t: 1 = 1; on a t: 2 = 2; }
",
        status: 2,
        text: b"ucon: policy: twice t at item 3
",
    },
    Example {
        name: "errors 8",
        form: "trial",
        document: b"%%
client 0
fly a
",
        status: 3,
        text: b"ucon: script: unknown word at line 3
",
    },
    Example {
        name: "errors 9",
        form: "trial",
        document: b"%%
client 64
",
        status: 3,
        text: b"ucon: script: too many clients at line 2
",
    },
    Example {
        name: "errors 10",
        form: "trial",
        document: b"%%
tick 1
",
        status: 3,
        text: b"ucon: script: bad heading at line 2
",
    },
    Example {
        name: "errors 11",
        form: "trial",
        document: b"%%
client 0
look
",
        status: 3,
        text: b"ucon: script: wrong count at line 3
",
    },
    Example {
        name: "errors 12",
        form: "trial",
        document: b"%%
client 0
tick 01
",
        status: 3,
        text: b"ucon: script: bad word at line 3
",
    },
    Example {
        name: "examples buying",
        form: "trial",
        document: b"# Who may buy: an obligation, a condition and an authorisation before the use.
attr s age : int 0..150 = 0;
env hour : int 0..23 = 9;
right buy {
  pre b sign: done sign_up;
  pre c late: env.hour >= 10;
  pre a adult: s.age >= 18;
}
%%
client 0
subject ann
object wine
set s ann age 16
try ann buy wine
",
        status: 0,
        text: b"0 1 ok
0 2 ok
0 3 ok
0 4 denied 1 late
",
    },
    Example {
        name: "examples data_room",
        form: "trial",
        document: b"# A shared data room.
#
# A reader who has signed the agreement may open a file of a matter that they are cleared for, in opening hours. At most two read
# one file at a time; when one more opens it, the reader who asked first is shown out. A reader whose clearance is withdrawn is shown
# out of every file of that matter in the same step.

attr s cleared : set = {};
attr o matter : text = \"none\";
attr o readers : int 0..1000 = 0;
attr o most : int 0..1000 = 2;
env hour : int 0..23 = 9;

right read {
  pre a known: o.matter in s.cleared;
  pre b signed: done sign on \"agreement\";
  pre c open: env.hour >= 8 and env.hour < 18;

  on a cleared: o.matter in s.cleared;
  on a seats: o.readers <= o.most;
  on c hours: env.hour >= 8 and env.hour < 18;

  before o.readers = o.readers + 1;
  after_end o.readers = o.readers - 1;
  after_revoke o.readers = o.readers - 1;
}

%%
client 0
subject ada
subject ben
subject cyd
object agreement
object offer
set o offer matter \"merger\"
set s ada cleared {\"merger\"}
set s ben cleared {\"audit\",\"merger\"}
set s cyd cleared {\"audit\",\"merger\"}

client 1
act ada sign agreement
try ada read offer
client 2
try ben read offer
act ben sign agreement
again 2
client 3
act cyd sign agreement

# The third reader takes the seat of the first.
try cyd read offer
value o offer readers

# Ben's clearance for the matter is withdrawn, and the room closes for the day.
client 0
set s ben cleared {\"audit\"}
env hour 18
value o offer readers
client 1
try ada read offer
",
        status: 0,
        text: b"0 1 ok
0 2 ok
0 3 ok
0 4 ok
0 5 ok
0 6 ok
0 7 ok
0 8 ok
0 9 ok
1 10 ok
1 11 permitted 1
2 12 waiting 2 signed
2 13 ok
2 14 permitted 2
3 15 ok
3 16 permitted 3 revoked 1 seats
3 16 value 2
0 17 ok revoked 2 cleared
0 18 ok revoked 3 hours
0 18 value 0
1 19 denied 4 open
",
    },
    Example {
        name: "examples first",
        form: "trial",
        document: b"attr s credit : int 0..100 = 0;
attr o price : int 0..100 = 5;
right play {
  pre a funds: s.credit >= o.price;
  on a left: s.credit > 0;
  before s.credit = s.credit - o.price;
}
%%
client 0
subject ann
object song
set s ann credit 5
try ann play song
value s ann credit
",
        status: 0,
        text: b"0 1 ok
0 2 ok
0 3 ok
0 4 permitted 1 revoked 1 left
0 4 value 0
",
    },
    Example {
        name: "examples music",
        form: "trial",
        document: b"# A pay-per-use music service.
#
# A listener pays the price of a song when a use begins, and one credit more at each beat. Nobody begins without having accepted the
# terms, and whoever listens has to click at an advertisement every 30 ticks.

attr s credit : int 0..1000000 = 0;
attr s member : text = \"none\";
attr o price : int 0..10000 = 5;
attr o plays : int 0..1000000 = 0;
env region : text = \"eu\";

right play {
  # Asked before a use: authorisations (a), obligations (b) and conditions (c).
  pre a funds: s.credit >= o.price;
  pre b terms: done accept;
  pre c area: env.region = \"eu\" or env.region = \"us\";

  # Asked again after each step while the use lasts.
  on a good: s.member != \"blocked\";
  on a left: s.credit > 0;
  on b ads: every 30 click;

  # What a use changes: before it, at each beat, and after it ends either way.
  before s.credit = s.credit - o.price;
  during s.credit = s.credit - 1;
  after_end o.plays = o.plays + 1;
  after_revoke o.plays = o.plays + 1;
}

%%
# Client 0 is the administrator.
client 0
subject ann
object song
set s ann credit 8

# Client 1 acts for ann. The terms are not accepted yet, so her try waits.
client 1
try ann play song
act ann accept song
again 1
beat 1
value s ann credit

# No click for 31 ticks: the usage is revoked.
client 0
tick 31
value o song plays

# What was paid is gone: the rest doesn't buy another use.
client 1
try ann play song
",
        status: 0,
        text: b"0 1 ok
0 2 ok
0 3 ok
1 4 waiting 1 terms
1 5 ok
1 6 permitted 1
1 7 ok
1 7 value 2
0 8 ok revoked 1 ads
0 8 value 1
1 9 denied 2 funds
",
    },
    Example {
        name: "examples rights",
        form: "trial",
        document: b"# A rights service for films.
#
# A licence is a number of plays of a film, and each play ends 180 ticks after it began. A household watches on so many devices at once.
# Whoever shares an account is asked for the code at least every 60 ticks, by the account's owner.

attr s plays : int 0..100 = 0;
attr s devices : int 0..20 = 0;
attr s most_devices : int 1..20 = 2;
attr o rating : int 0..18 = 0;
attr s age : int 0..150 = 0;

right watch {
  pre a licensed: s.plays > 0;
  pre a grown: s.age >= o.rating;
  on a devices: s.devices <= s.most_devices;
  on c evening: lasts 180;
  before s.plays = s.plays - 1;
  before s.devices = s.devices + 1;
  after_end s.devices = s.devices - 1;
  after_revoke s.devices = s.devices - 1;
}

right share {
  pre b invited: within 10 invite by \"owner\";
  on b code: every 60 enter_code by \"owner\";
}

%%
client 0
subject owner
subject guest
object film
set s owner plays 3
set s owner age 40
set o film rating 16

client 1
try owner watch film
try owner watch film
# A third device: the play that began first is ended.
try owner watch film
value s owner plays
try guest watch film

# The guest is invited by the owner, and may watch with them while the owner enters the code.
client 2
try guest share film
client 1
act owner invite film
client 2
again 5

client 0
tick 60
client 1
act owner enter_code film
client 0
tick 121

# The plays last 180 ticks.
tick 181
value s owner devices
",
        status: 0,
        text: b"0 1 ok
0 2 ok
0 3 ok
0 4 ok
0 5 ok
0 6 ok
1 7 permitted 1
1 8 permitted 2
1 9 permitted 3 revoked 1 devices
1 9 value 0
1 10 denied 4 licensed
2 11 waiting 5 invited
1 12 ok
2 13 permitted 5
0 14 ok
1 15 ok
0 16 ok revoked 5 code
0 17 ok revoked 2 evening revoked 3 evening
0 17 value 0
",
    },
];
