//! Policies, as they are written and as they are printed.

use std::alloc::{AllocError, Global};
use std::test::Fail;
use ucon_print::policy_text;
use ucon_syntax::read_policy;

fn is_printed(alloc: Global, written: &[u8], wanted: &[u8]) -> bool {
    match read_policy(alloc, written) {
        Ok(policy) => {
            matches!(policy_text(alloc, &policy), Ok(text) if text.as_slice() == wanted)
        }
        Err(_) => false,
    }
}

/// A right without items has two lines, and a difference on the right has brackets.
const RIGHTS: &[(&[u8], &[u8])] = &[
    (b"right r {}", b"right r {\n}\n"),
    (
        b"right r { before s.credit = s.credit - (2 - -3); }",
        b"right r {\n  before s.credit = s.credit - (2 - -3);\n}\n",
    ),
];

#[test]
fn rights_are_printed(rt: HostRuntime) {
    for &(written, wanted) in RIGHTS {
        assert!(rt;
            is_printed(rt.alloc(), written, wanted),
            "{}",
            wanted.escape_ascii()
        );
    }
}

/// A condition, as it is written and as it is printed.
const CONDITIONS: &[(&str, &str)] = &[
    ("1 - 2 - 3 = 0", "1 - 2 - 3 = 0"),
    ("1 - (2 - 3) = 0", "1 - (2 - 3) = 0"),
    ("(1 - 2) - 3 = 0", "1 - 2 - 3 = 0"),
    ("1 - (2 + 3) = 0", "1 - (2 + 3) = 0"),
    ("2 * (3 * 4) = 0", "2 * (3 * 4) = 0"),
    ("(2 * 3) * 4 = 0", "2 * 3 * 4 = 0"),
    ("(1 + 2) * 3 = 0", "(1 + 2) * 3 = 0"),
    ("1 + (2 * 3) = 0", "1 + 2 * 3 = 0"),
    ("size((({}))) <= - 3", "size({}) <= -3"),
    ("not [ 1 = 1 ]", "not 1 = 1"),
    ("not not 1 = 1", "not not 1 = 1"),
    ("not [ 1 = 1 and 2 = 2 ]", "not [ 1 = 1 and 2 = 2 ]"),
    ("[ 1 = 1 and 2 = 2 ] or 3 = 3", "1 = 1 and 2 = 2 or 3 = 3"),
    (
        "1 = 1 and [ 2 = 2 or lasts 3 ]",
        "1 = 1 and [ 2 = 2 or lasts 3 ]",
    ),
    ("1 = 1 or [ 2 = 2 or 3 = 3 ]", "1 = 1 or [ 2 = 2 or 3 = 3 ]"),
    ("\"a\" in { \"a\" , \"b\" }", "\"a\" in {\"a\", \"b\"}"),
];

fn right_with(alloc: Global, condition: &str) -> Result<Vec<u8>, AllocError> {
    let mut text = Vec::from_slice(alloc, b"right r {\n  on c p: ")?;
    text.extend_from_slice(condition.as_bytes())?;
    text.extend_from_slice(b";\n}\n")?;
    Ok(text)
}

/// What is printed is printed again as it is.
#[test]
fn printings_are_read_and_printed_again(rt: HostRuntime) -> Result<(), Fail> {
    let alloc = rt.alloc();
    for &(written, wanted) in CONDITIONS {
        let text = right_with(alloc, wanted)?;
        assert!(rt;
            is_printed(alloc, &right_with(alloc, written)?, &text),
            "{written}"
        );
        assert!(rt; is_printed(alloc, &text, &text), "{wanted}");
    }
    Ok(())
}
