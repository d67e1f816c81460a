//! Policies, what is wrong with them first, and their limits.

use std::alloc::{AllocError, Global};
use std::test::Fail;
use ucon_syntax::SyntaxFault::{TooDeep, TooLong, TooMany, Unexpected, UnknownByte};
use ucon_syntax::{SyntaxFault, read_policy};
use ucon_vectors::repeated;

/// Policies, and what is wrong with them first.
const FAULTS: &[(&[u8], Option<SyntaxFault>)] = &[
    (b"", None),
    (b"?", Some(UnknownByte(0))),
    (b"x", Some(Unexpected(0))),
    (b"_a", Some(UnknownByte(0))),
    (b"\r", Some(UnknownByte(0))),
    (b"# \xff\r\n", None),
    (b"aaaaaaaaaaaaaaaaaaaaaaaaaaaaaaaaa", Some(TooLong(0))),
    (
        b"right r {} aaaaaaaaaaaaaaaaaaaaaaaaaaaaaaaaa",
        Some(TooLong(11)),
    ),
    (b"attr s a : int 5A", Some(UnknownByte(16))),
    (
        b"attr s a : int 0..01000000000000001 = 0;",
        Some(TooLong(18)),
    ),
    (
        b"attr s a : int 5aaaaaaaaaaaaaaaaaaaaaaaaaaaaaaaaa",
        Some(TooLong(16)),
    ),
    (b"attr s a : int x", Some(Unexpected(15))),
    (b"right r { pre b d: within 5done; }", Some(Unexpected(27))),
    (b"attr x", Some(Unexpected(5))),
    (b"attr", Some(Unexpected(4))),
    (b"right r {", Some(Unexpected(9))),
    (b"right r {} ?", Some(UnknownByte(11))),
    (b"right r {} r", Some(Unexpected(11))),
    (b"attr s a : text = \"a\x01\";", Some(UnknownByte(20))),
    (b"attr s a : text = \"abc", Some(Unexpected(22))),
    (b"attr \"ab", Some(Unexpected(8))),
    (
        b"attr s a : text = \"aaaaaaaaaaaaaaaaaaaaaaaaaaaaaaaaaaaaaaaaaaaaaaaaaaaaaaaaaaaaaaaaa",
        Some(TooLong(18)),
    ),
    (
        b"attr s a : text = \"aaaaaaaaaaaaaaaaaaaaaaaaaaaaaaaaaaaaaaaaaaaaaaaaaaaaaaaaaaaaaaaa",
        Some(Unexpected(83)),
    ),
    (
        b"attr s a : text = \"aaaaaaaaaaaaaaaaaaaaaaaaaaaaaaaaaaaaaaaaaaaaaaaaaaaaaaaaaaaaaaaa\";",
        None,
    ),
    (b"attr s a : int 0 . 1 = 1;", Some(Unexpected(17))),
    (b"attr s a : int 0..01 = 1;", Some(Unexpected(18))),
    (
        b"attr s a : int - 1000000000000000..1000000000000000 = - 0;",
        None,
    ),
    (
        b"attr s a : int 0..1000000000000001 = 0;",
        Some(TooLong(18)),
    ),
    (b"attr s a : int 0..1 = 1_x;", Some(UnknownByte(23))),
    (
        b"attr s aaaaaaaaaaaaaaaaaaaaaaaaaaaaaaaa : int 0..1 = 1;",
        None,
    ),
    (
        b"attr s aaaaaaaaaaaaaaaaaaaaaaaaaaaaaaaaa : int 0..1 = 1;",
        Some(TooLong(7)),
    ),
    (b"attr s a : set = {\"a\", \"b\"}; env e : set = {};", None),
    (b"attr s a : set = {\"b\", \"a\"};", Some(Unexpected(23))),
    (b"attr s a : set = {\"a\", \"a\"};", Some(Unexpected(23))),
    (b"attr s a : set = {\"a\",};", Some(Unexpected(22))),
    (b"right r { pre a f: 1x = 1; }", Some(Unexpected(20))),
    (b"right r { pre a f: s..x = 1; }", Some(Unexpected(20))),
    (b"right r { pre a f: 1 < = 1; }", Some(Unexpected(23))),
    (b"right r { pre a f: 1 <= 1; }", None),
    (b"right r { pre a f: 1 ! 1; }", Some(UnknownByte(21))),
    (b"right r {} # end", None),
    (b"right r { pre c f: lasts x; }", Some(Unexpected(25))),
    (b"right r { pre a f: x = 1; }", Some(Unexpected(19))),
    (
        b"right r { on b f: every 5 go by \"ann\" on \"x\"; pre b g: done by; pre b h: within 0 on on \"on\"; }",
        None,
    ),
    (
        b"right r { pre b d: done go by \"Ab\"; }",
        Some(Unexpected(30)),
    ),
    (
        b"right r { pre b d: done go on \"\"; }",
        Some(Unexpected(30)),
    ),
    (b"right r { pre b d: within - 1 go; }", Some(Unexpected(26))),
    (
        b"right r { pre a f: 1 = 1; before s.a = 1; pre a g: 1 = 1; }",
        Some(Unexpected(42)),
    ),
    (
        b"right r { pre a f: not [ size(s.a) in {\"x\"} or lasts 3 ]; after_revoke o.b = (s.b - - 5) * 2; }",
        None,
    ),
    (b"right r { pre a f: - - 5 = 1; }", Some(Unexpected(21))),
    (b"right r { pre a f: 1 = 1 }", Some(Unexpected(25))),
];

#[test]
fn faults_stand_at_their_places(rt: HostRuntime) {
    for &(text, want) in FAULTS {
        assert!(rt;
            read_policy(rt.alloc(), text).err() == want,
            "{}",
            text.escape_ascii()
        );
    }
}

/// A text's front, the part that it repeats, how often, its back, and what is wrong with it first.
type Limit = (
    &'static [u8],
    &'static [u8],
    u32,
    &'static [u8],
    Option<SyntaxFault>,
);

const LIMITS: &[Limit] = &[
    (
        b"right r { pre a f: ",
        b"(",
        32,
        b"1)))))))))))))))))))))))))))))))) = 1; }",
        None,
    ),
    (b"right r { pre a f: ", b"(", 33, b"1", Some(TooDeep(51))),
    (
        b"right r { pre a f: ",
        b"[",
        32,
        b"1 = 1]]]]]]]]]]]]]]]]]]]]]]]]]]]]]]]]; }",
        None,
    ),
    (b"right r { pre a f: ", b"[", 33, b"1", Some(TooDeep(51))),
    (b"right r { pre a f: ", b"not ", 32, b"1 = 1; }", None),
    (
        b"right r { pre a f: ",
        b"not ",
        33,
        b"1 = 1; }",
        Some(TooDeep(147)),
    ),
    (
        b"right r { pre a f: ",
        b"not ",
        32,
        b"(1) = 1; }",
        Some(TooDeep(147)),
    ),
    (
        b"right r { pre a f: ",
        b"size(",
        33,
        b"1",
        Some(TooDeep(179)),
    ),
    (b"right r { pre a f: ", b"(", 33, b"", Some(TooDeep(51))),
    (b"right r { before s.a = ", b"(", 33, b"", Some(TooDeep(55))),
    (b"right r { pre a f: 1", b" - 1", 31, b" = 1; }", None),
    (b"right r { pre a f: 1", b" * 1", 31, b" = 1; }", None),
    (
        b"",
        b"attr s a : text = \"\"; ",
        16,
        b"attr s",
        Some(TooMany(357)),
    ),
    (
        b"right r { pre a f: 1",
        b" - 1",
        32,
        b" = 1; }",
        Some(TooMany(145)),
    ),
    (
        b"right r { pre a f: 1",
        b" * 1",
        32,
        b" = 1; }",
        Some(TooMany(145)),
    ),
    (
        b"right r { pre a f: lasts 1",
        b" and lasts 1",
        31,
        b"; }",
        None,
    ),
    (
        b"right r { pre a f: lasts 1",
        b" and lasts 1",
        32,
        b"; }",
        Some(TooMany(399)),
    ),
    (
        b"right r { pre a f: lasts 1",
        b" or lasts 1",
        32,
        b"; }",
        Some(TooMany(368)),
    ),
    (
        b"right r { pre a f: lasts 1",
        b" and lasts 1",
        31,
        b"and lasts 1; }",
        Some(TooMany(398)),
    ),
    (
        b"right r { pre a f: lasts 1",
        b" and lasts 1",
        30,
        b"and lasts 1; }",
        Some(Unexpected(386)),
    ),
    (
        b"",
        b"attr s a : text = \"\"; ",
        16,
        b"attr o a : text = \"\"; attr o a : text = \"\"; attr o a : text = \"\"; attr o a : text = \"\"; attr o a : text = \"\"; attr o a : text = \"\"; attr o a : text = \"\"; attr o a : text = \"\"; attr o a : text = \"\"; attr o a : text = \"\"; attr o a : text = \"\"; attr o a : text = \"\"; attr o a : text = \"\"; attr o a : text = \"\"; attr o a : text = \"\"; attr o a : text = \"\"; ",
        None,
    ),
    (
        b"",
        b"attr s a : text = \"\"; ",
        17,
        b"",
        Some(TooMany(357)),
    ),
    (
        b"attr s a : text = \"\"; attr s a : text = \"\"; attr s a : text = \"\"; attr s a : text = \"\"; attr s a : text = \"\"; attr s a : text = \"\"; attr s a : text = \"\"; attr s a : text = \"\"; attr s a : text = \"\"; attr s a : text = \"\"; attr s a : text = \"\"; attr s a : text = \"\"; attr s a : text = \"\"; attr s a : text = \"\"; attr s a : text = \"\"; attr s a : text = \"\"; ",
        b"attr o a : text = \"\"; ",
        17,
        b"",
        Some(TooMany(709)),
    ),
    (b"", b"env a : text = \"\"; ", 32, b"", None),
    (b"", b"env a : text = \"\"; ", 33, b"", Some(TooMany(608))),
    (b"", b"right r {} ", 64, b"", None),
    (b"", b"right r {} ", 65, b"", Some(TooMany(704))),
    (
        b"right r { ",
        b"pre a f: 1 = 1; ",
        16,
        b"on c f: 1 = 1; on c f: 1 = 1; }",
        None,
    ),
    (
        b"right r { ",
        b"pre a f: 1 = 1; ",
        17,
        b"}",
        Some(TooMany(266)),
    ),
    (
        b"right r { pre a f: 1 = 1; pre a f: 1 = 1; pre a f: 1 = 1; pre a f: 1 = 1; pre a f: 1 = 1; pre a f: 1 = 1; pre a f: 1 = 1; pre a f: 1 = 1; pre a f: 1 = 1; pre a f: 1 = 1; pre a f: 1 = 1; pre a f: 1 = 1; pre a f: 1 = 1; pre a f: 1 = 1; pre a f: 1 = 1; pre a f: 1 = 1; ",
        b"on c f: 1 = 1; ",
        17,
        b"}",
        Some(TooMany(506)),
    ),
    (b"right r { ", b"after_end s.a = 1; ", 16, b"}", None),
    (
        b"right r { ",
        b"after_end s.a = 1; ",
        17,
        b"}",
        Some(TooMany(314)),
    ),
    (b"", b" ", 65536, b"", None),
    (b"?", b" ", 65536, b"", Some(TooLong(65536))),
];

#[test]
fn limits_are_met_exactly(rt: HostRuntime) -> Result<(), Fail> {
    for &(front, part, times, back, want) in LIMITS {
        let text = repeated(rt.alloc(), front, part, times, back)?;
        assert!(rt;
            read_policy(rt.alloc(), &text).err() == want,
            "{} {} {times}",
            front.escape_ascii(),
            part.escape_ascii()
        );
    }
    Ok(())
}

/// A set of this many texts: `"a"`, `"aa"` and so on.
fn set_of(alloc: Global, texts: u32, back: &[u8]) -> Result<Vec<u8>, AllocError> {
    let mut text = Vec::from_slice(alloc, b"attr s a : set = {")?;
    for i in 0..texts {
        text.push(b'"')?;
        for _ in 0..i + 1 {
            text.push(b'a')?;
        }
        text.extend_from_slice(b"\",")?;
    }
    text.extend_from_slice(back)?;
    Ok(text)
}

/// How many texts a set has, what stands behind them, and what is wrong with it.
const SETS: &[(u32, &[u8], Option<SyntaxFault>)] = &[
    (63, b"\"b\"};", None),
    (64, b"\"b\"};", Some(TooMany(2290))),
    (64, b"\"a\"};", Some(TooMany(2290))),
];

#[test]
fn a_set_has_at_most_64_texts(rt: HostRuntime) -> Result<(), Fail> {
    for &(texts, back, want) in SETS {
        let text = set_of(rt.alloc(), texts, back)?;
        assert!(rt;
            read_policy(rt.alloc(), &text).err() == want,
            "{texts} {}",
            back.escape_ascii()
        );
    }
    Ok(())
}
