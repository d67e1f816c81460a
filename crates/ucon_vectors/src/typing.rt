//! Policies with what `check` tells of them.

/// Policies that are refused, with the line of the fault. They have each fault at its first and at a later item, two faults of one item and of
/// two, each forbidden reading, and each sum of each kind.
pub const TYPING_FAULTS: &[(&'static str, &'static str)] = &[
    // names that stand twice
    (
        "attr s a : int 0..1 = 0; attr s a : text = \"\";",
        "ucon: policy: twice a at item 2\n",
    ),
    (
        "attr o b : text = \"\"; attr s a : text = \"\"; attr o b : text = \"\";",
        "ucon: policy: twice b at item 3\n",
    ),
    (
        "attr s a : text = \"\"; env e : text = \"\"; env e : text = \"\";",
        "ucon: policy: twice e at item 3\n",
    ),
    ("right r {} right r {}", "ucon: policy: twice r at item 2\n"),
    (
        "right r { pre c a: 1 = 1; on c a: 1 = 1; }",
        "ucon: policy: twice a at item 3\n",
    ),
    (
        "right r { pre c no_right: 1 = 1; }",
        "ucon: policy: twice no_right at item 2\n",
    ),
    (
        "attr s n : int 0..9 = 0; right r { pre b a: done k; on b b: done k; before s.n = 1; } right r {}",
        "ucon: policy: twice r at item 6\n",
    ),
    // names that aren't declared
    (
        "right r { pre a a: s.x = 1; }",
        "ucon: policy: no name x at item 2\n",
    ),
    (
        "attr o x : int 0..9 = 0; right r { pre a a: s.x = 1; }",
        "ucon: policy: no name x at item 3\n",
    ),
    (
        "env x : int 0..9 = 0; right r { pre a a: s.x = 1; }",
        "ucon: policy: no name x at item 3\n",
    ),
    (
        "right r { pre c a: env.x = env.y; }",
        "ucon: policy: no name x at item 2\n",
    ),
    (
        "env x : int 0..9 = 0; right r { pre c a: env.x = 1 and env.z = env.y; }",
        "ucon: policy: no name z at item 3\n",
    ),
    (
        "attr s n : int 0..9 = 0; right r { pre b a: done k; before s.z = s.y; }",
        "ucon: policy: no name z at item 4\n",
    ),
    (
        "attr s n : int 0..9 = 0; right r { pre b a: done k; before s.n = 1; before s.n = o.y + 1; }",
        "ucon: policy: no name y at item 5\n",
    ),
    // readers
    (
        "env e : int 0..9 = 0; right r { pre a a: env.e = 1; }",
        "ucon: policy: wrong reader at item 3\n",
    ),
    (
        "env e : int 0..9 = 0; right r { on a a: env.e = 1; }",
        "ucon: policy: wrong reader at item 3\n",
    ),
    (
        "right r { pre a a: lasts 3; }",
        "ucon: policy: wrong reader at item 2\n",
    ),
    (
        "right r { on a a: not [ 1 = 1 or lasts 3 ]; }",
        "ucon: policy: wrong reader at item 2\n",
    ),
    (
        "attr s x : int 0..9 = 0; right r { pre c a: s.x = 1; }",
        "ucon: policy: wrong reader at item 3\n",
    ),
    (
        "attr o x : int 0..9 = 0; right r { on c a: o.x = 1; }",
        "ucon: policy: wrong reader at item 3\n",
    ),
    (
        "right r { pre c a: lasts 3; }",
        "ucon: policy: wrong reader at item 2\n",
    ),
    (
        "right r { pre b a: every 3 click; }",
        "ucon: policy: wrong reader at item 2\n",
    ),
    (
        "attr s x : int 0..9 = 0; env e : int 0..9 = 0; right r { pre b a: done k; before s.x = env.e; }",
        "ucon: policy: wrong reader at item 5\n",
    ),
    // declarations of a wrong kind
    (
        "attr s x : int 1..0 = 0;",
        "ucon: policy: wrong kind at item 1\n",
    ),
    (
        "attr s x : int 0..9 = 10;",
        "ucon: policy: wrong kind at item 1\n",
    ),
    (
        "attr s x : int 0..9 = \"a\";",
        "ucon: policy: wrong kind at item 1\n",
    ),
    (
        "attr s x : text = 1;",
        "ucon: policy: wrong kind at item 1\n",
    ),
    (
        "attr s x : set = \"a\";",
        "ucon: policy: wrong kind at item 1\n",
    ),
    (
        "attr s x : text = {};",
        "ucon: policy: wrong kind at item 1\n",
    ),
    (
        "attr s x : text = \"\"; env e : int 5..4 = 4;",
        "ucon: policy: wrong kind at item 2\n",
    ),
    (
        "env e : set = {\"a\"}; env f : text = {};",
        "ucon: policy: wrong kind at item 2\n",
    ),
    // comparisons
    (
        "right r { pre c a: 1 = \"a\"; }",
        "ucon: policy: wrong kind at item 2\n",
    ),
    (
        "right r { pre c a: {} != \"a\"; }",
        "ucon: policy: wrong kind at item 2\n",
    ),
    (
        "right r { pre c a: \"a\" < \"b\"; }",
        "ucon: policy: wrong kind at item 2\n",
    ),
    (
        "right r { pre c a: {} <= {}; }",
        "ucon: policy: wrong kind at item 2\n",
    ),
    (
        "right r { pre c a: 1 > \"a\"; }",
        "ucon: policy: wrong kind at item 2\n",
    ),
    (
        "right r { pre c a: \"a\" >= 1; }",
        "ucon: policy: wrong kind at item 2\n",
    ),
    (
        "right r { pre c a: 1 in {}; }",
        "ucon: policy: wrong kind at item 2\n",
    ),
    (
        "right r { pre c a: \"a\" in \"b\"; }",
        "ucon: policy: wrong kind at item 2\n",
    ),
    (
        "right r { pre c a: {} in {}; }",
        "ucon: policy: wrong kind at item 2\n",
    ),
    (
        "right r { pre c a: 1 = 1; pre c b: 1 = 1 or not 1 = \"a\"; }",
        "ucon: policy: wrong kind at item 3\n",
    ),
    // sums, products and sizes in predicates
    (
        "right r { pre c a: {} + \"a\" = {}; }",
        "ucon: policy: wrong kind at item 2\n",
    ),
    (
        "right r { pre c a: {} - \"a\" = {}; }",
        "ucon: policy: wrong kind at item 2\n",
    ),
    (
        "right r { pre c a: \"a\" + \"b\" = \"c\"; }",
        "ucon: policy: wrong kind at item 2\n",
    ),
    (
        "right r { pre c a: 1 + \"a\" = 1; }",
        "ucon: policy: wrong kind at item 2\n",
    ),
    (
        "right r { pre c a: {} * 2 = {}; }",
        "ucon: policy: wrong kind at item 2\n",
    ),
    (
        "right r { pre c a: size(\"a\") = 0; }",
        "ucon: policy: wrong kind at item 2\n",
    ),
    (
        "right r { pre c a: size(1) = 0; }",
        "ucon: policy: wrong kind at item 2\n",
    ),
    (
        "right r { pre c a: size({} + \"a\") = 1; }",
        "ucon: policy: wrong kind at item 2\n",
    ),
    // sums in updates
    (
        "attr s t : set = {}; right r { pre b a: done k; before s.t = \"a\" + s.t; }",
        "ucon: policy: wrong kind at item 4\n",
    ),
    (
        "attr s t : set = {}; right r { pre b a: done k; before s.t = s.t + s.t; }",
        "ucon: policy: wrong kind at item 4\n",
    ),
    (
        "attr s t : set = {}; right r { pre b a: done k; before s.t = s.t - 1; }",
        "ucon: policy: wrong kind at item 4\n",
    ),
    (
        "attr s t : set = {}; right r { pre b a: done k; before s.t = s.t * \"a\"; }",
        "ucon: policy: wrong kind at item 4\n",
    ),
    (
        "attr s t : set = {}; right r { pre b a: done k; before s.t = \"a\"; }",
        "ucon: policy: wrong kind at item 4\n",
    ),
    (
        "attr o n : int 0..9 = 0; right r { pre b a: done k; before o.n = \"a\"; }",
        "ucon: policy: wrong kind at item 4\n",
    ),
    (
        "attr o n : text = \"\"; right r { pre b a: done k; before o.n = \"a\" + \"b\"; }",
        "ucon: policy: wrong kind at item 4\n",
    ),
    // two faults of one item
    (
        "attr s a : text = \"\"; attr s a : int 0..9 = 10;",
        "ucon: policy: twice a at item 2\n",
    ),
    (
        "env a : text = \"\"; env a : int 1..0 = 0;",
        "ucon: policy: twice a at item 2\n",
    ),
    (
        "right r { pre c a: 1 = 1; on c a: env.x = 1; }",
        "ucon: policy: twice a at item 3\n",
    ),
    (
        "right r { pre a no_right: env.x = 1; }",
        "ucon: policy: twice no_right at item 2\n",
    ),
    (
        "right r { pre a a: env.x = \"a\"; }",
        "ucon: policy: no name x at item 2\n",
    ),
    (
        "right r { pre a a: lasts 3 and s.x = 1; }",
        "ucon: policy: no name x at item 2\n",
    ),
    (
        "env e : text = \"\"; right r { pre a a: env.e = 1; }",
        "ucon: policy: wrong reader at item 3\n",
    ),
    (
        "attr s n : int 0..9 = 0; env e : text = \"\"; right r { pre b a: done k; before s.n = env.e; }",
        "ucon: policy: wrong reader at item 5\n",
    ),
    (
        "attr s n : int 0..9 = 0; env e : text = \"\"; right r { pre b a: done k; before s.n = env.e + s.z; }",
        "ucon: policy: no name z at item 5\n",
    ),
    // faults of two items
    (
        "attr s a : int 1..0 = 0; attr s a : int 0..1 = 0;",
        "ucon: policy: wrong kind at item 1\n",
    ),
    (
        "right r { pre a a: s.x = 1; } right r {}",
        "ucon: policy: no name x at item 2\n",
    ),
    (
        "right r { pre c a: lasts 3; pre c a: 1 = 1; }",
        "ucon: policy: wrong reader at item 2\n",
    ),
    (
        "env e : text = 1; right r { pre a a: s.x = 1; }",
        "ucon: policy: wrong kind at item 1\n",
    ),
    // no core model
    (
        "attr s n : int 0..9 = 0; right r { before s.n = 1; }",
        "ucon: policy: not core r\n",
    ),
    (
        "attr s n : int 0..9 = 0; right r { pre c a: 1 = 1; before s.n = 1; }",
        "ucon: policy: not core r\n",
    ),
    (
        "attr s n : int 0..9 = 0; right r { pre a p: s.n = 0; on c a: 1 = 1; during s.n = 1; }",
        "ucon: policy: not core r\n",
    ),
    (
        "attr s n : int 0..9 = 0; right r { pre b p: done k; during s.n = 1; }",
        "ucon: policy: not core r\n",
    ),
    (
        "attr s n : int 0..9 = 0; right r { pre c a: 1 = 1; before s.n = \"a\"; }",
        "ucon: policy: wrong kind at item 4\n",
    ),
    (
        "attr s n : int 0..9 = 0; right r { before s.n = 1; } right r {}",
        "ucon: policy: not core r\n",
    ),
    (
        "attr s n : int 0..9 = 0; right q {} right r { pre c a: 1 = 1; after_end s.n = 1; }",
        "ucon: policy: not core r\n",
    ),
];

/// Well typed policies, with their rights' core models.
pub const WELL_TYPED_POLICIES: &[(&'static str, &'static str)] = &[
    // an empty policy
    ("", ""),
    // names that stand twice
    (
        "attr s a : int 0..1 = 0; attr o a : int 0..1 = 0; env a : int 0..1 = 0; right a {}",
        "right a\n",
    ),
    (
        "right r { pre c a: 1 = 1; } right q { pre c a: 1 = 1; }",
        "right r preC0\nright q preC0\n",
    ),
    ("right no_right {}", "right no_right\n"),
    // names that aren't declared
    (
        "right r { pre b a: done k by \"x\" on \"y\"; }",
        "right r preB0\n",
    ),
    // readers
    ("right r { on c a: lasts 3; }", "right r onC0\n"),
    (
        "right r { on b a: every 3 click; pre b b: within 3 click; }",
        "right r preB0 onB0\n",
    ),
    // declarations of a wrong kind
    ("attr s x : int 0..9 = 9;", ""),
    // comparisons
    (
        "right r { pre c a: \"a\" in {\"a\"} and {} != {\"a\"} or \"a\" = \"b\" and 1 <= 2; }",
        "right r preC0\n",
    ),
    // sums, products and sizes in predicates
    ("right r { pre c a: 1 + 2 - 3 * 4 = 5; }", "right r preC0\n"),
    ("right r { pre c a: size({}) = 0; }", "right r preC0\n"),
    // sums in updates
    (
        "attr s t : set = {}; right r { pre b a: done k; before s.t = s.t + \"a\" - \"b\"; }",
        "right r preB1\n",
    ),
    (
        "attr s t : set = {}; attr s n : int 0..9 = 0; right r { pre b a: done k; after_end s.n = size(s.t + \"a\"); }",
        "right r preB3\n",
    ),
    (
        "attr s n : int 0..9 = 0; right r { pre b a: done k; before s.n = 1000; }",
        "right r preB1\n",
    ),
    // no core model
    (
        "attr s n : int 0..9 = 0; right r { on b p: done k; during s.n = 1; }",
        "right r onB2\n",
    ),
    (
        "attr s n : int 0..9 = 0; right r { on a p: s.n = 0; during s.n = 1; }",
        "right r onA2\n",
    ),
    (
        "attr s n : int 0..9 = 0; right r { pre a p: s.n = 0; after_end s.n = 1; after_revoke s.n = 1; }",
        "right r preA3\n",
    ),
    (
        "attr s n : int 0..9 = 0; right r { on b p: done k; before s.n = 1; }",
        "right r onB1\n",
    ),
    (
        "right r { pre c a: 1 = 1; on c b: lasts 3; }",
        "right r preC0 onC0\n",
    ),
    // core models
    (
        "attr s credit : int 0..1000000 = 0;
attr s member : text = \"none\";
attr s bought : set = {};
attr o price : int 0..10000 = 5;
attr o plays : int 0..1000000 = 0;
env region : text = \"eu\";
right play {
  pre a funds: s.credit >= o.price;
  pre b terms: done accept;
  pre c area: env.region = \"eu\";
  on a good: s.member != \"blocked\";
  on b ads: every 30 click;
  before s.credit = s.credit - o.price;
  during s.credit = s.credit - 1;
  after_end o.plays = o.plays + 1;
  after_revoke o.plays = o.plays + 1;
}
",
        "right play preA1 preA3 onA1 onA2 onA3 preB1 preB3 onB1 onB2 onB3 preC0\n",
    ),
    (
        "attr o users : int 0..1000 = 0; attr o most : int 0..1000 = 3; right use { on a cap: o.users <= o.most; before o.users = o.users + 1; after_end o.users = o.users - 1; after_revoke o.users = o.users - 1; }",
        "right use onA1 onA3\n",
    ),
    ("right r {}", "right r\n"),
    (
        "right r { pre a a: 1 = 1; pre b b: done k; on c c: lasts 3; } right q { on b b: done k; pre c c: 1 = 1; }",
        "right r preA0 preB0 onC0\nright q onB0 preC0\n",
    ),
    (
        "attr s n : int 0..9 = 0; right r { pre a a: s.n = 0; on b b: done k; during s.n = 1; }",
        "right r preA0 onB2\n",
    ),
    (
        "attr s n : int 0..9 = 0; right r { on a a: s.n = 0; after_end s.n = 1; }",
        "right r onA3\n",
    ),
    (
        "attr s n : int 0..9 = 0; right r { on a a: s.n = 0; after_revoke s.n = 1; }",
        "right r onA3\n",
    ),
    (
        "attr s n : int 0..9 = 0; attr o n : int 0..9 = 0; env n : int 0..9 = 0; right r { on c b: env.n = env.n; on a a: o.n = s.n + o.n; pre a p: s.n = 0; on c d: env.n = 1 and lasts 3; }",
        "right r preA0 onA0 onC0\n",
    ),
];
