//! The limits of names, texts, integers and values, and rows and steps.

use std::alloc::Global;
use std::test::Fail;
use ucon_base::{
    Int, Kind, Name, NameFault, Rows, Steps, Text, TextFault, TextSet, Value, ValueFault,
    put_spelling,
};

/// Names, and what is wrong with each.
const NAMES: &[(&[u8], Option<NameFault>)] = &[
    (b"sign_up2", None),
    (b"", Some(NameFault::Empty)),
    (
        b"0123456789abcdef0123456789ABCDEF0",
        Some(NameFault::TooLong(33)),
    ),
    (b"1st", Some(NameFault::BadByte(0))),
    (b"a-b", Some(NameFault::BadByte(1))),
];

/// Texts, and what is wrong with each.
const TEXTS: &[(&[u8], Option<TextFault>)] = &[
    (b"", None),
    (b"say \"a\"", Some(TextFault::BadByte(4))),
    (&[b'a'; 65], Some(TextFault::TooLong(65))),
];

#[test]
fn names_and_texts_are_read(rt: HostRuntime) -> Result<(), Fail> {
    for &(bytes, fault) in NAMES {
        assert!(rt;
            Name::read(bytes).err() == fault,
            "{}",
            bytes.escape_ascii()
        );
    }
    for &(bytes, fault) in TEXTS {
        assert!(rt;
            Text::read(bytes).err() == fault,
            "{}",
            bytes.escape_ascii()
        );
    }
    let (name, text) = (Name::read(b"ann")?, Text::read(b"ann")?);
    assert!(rt; name.bytes() == text.bytes());
    Ok(())
}

/// A limit isn't passed by sums, differences and products with a smaller integer.
#[test]
fn integers_are_clamped(rt: HostRuntime) -> Result<(), Fail> {
    assert!(rt; Int::new(1_000_000_000_000_001).is_none());
    let limit = Int::new(1_000_000_000_000_000).ok_or("in range")?;
    let minus = Int::new(-7).ok_or("in range")?;
    let product = limit.add(limit).sub(minus).mul(minus);
    assert!(rt; product.get() == -1_000_000_000_000_000);
    assert!(rt; minus.is_below(limit) && minus.is_at_most(minus));
    Ok(())
}

/// Zero is admitted among the integers that are zero, and no text is.
#[test]
fn kinds_admit_their_values(rt: HostRuntime) -> Result<(), Fail> {
    let zero = Int::zero();
    let kind = Kind::Int {
        low: zero,
        high: zero,
    };
    assert!(rt; kind.admits(&Value::Int(zero)));
    assert!(rt; !kind.admits(&Value::Text(Text::read(b"a")?)));
    assert!(rt; Kind::Set.admits(&Value::Set(TextSet::empty(rt.alloc()))));
    Ok(())
}

/// Rows are there once they are made of their list again.
#[test]
fn rows_and_steps(rt: HostRuntime) -> Result<(), Fail> {
    let mut rows = Rows::new(rt.alloc());
    rows.push(1)?;
    rows.reserve(2)?;
    assert!(rt; rows.len() == 1 && rows.at(0) == Some(&1) && rows.at(1).is_none());
    assert!(rt; Rows::from(rows.into_vec()).slice() == [1].as_slice());
    let mut steps = Steps::new();
    steps.tick();
    assert!(rt; steps.count() == 1);
    Ok(())
}

/// An empty set, one with a text, and one without it again.
#[test]
fn sets_grow_and_shrink(rt: HostRuntime) -> Result<(), Fail> {
    let (alloc, a) = (rt.alloc(), Text::read(b"a")?);
    let none = TextSet::empty(alloc);
    assert!(rt; none.size() == 0 && none.at(0).is_none() && !none.has(&a));
    let one = none.with(alloc, &a)?;
    assert!(rt; one.size() == 1 && one.at(0) == Some(&a));
    assert!(rt; one.copy(alloc)?.has(&a));
    assert!(rt; one.without(alloc, &a)?.size() == 0);
    Ok(())
}

/// Values as they are spelled.
const SPELLED: &[&[u8]] = &[
    b"0",
    b"-5",
    b"1000000000000000",
    b"\"a b\"",
    b"{}",
    b"{\"a\",\"ab\",\"b\"}",
];

/// Whether a copy of what is read of these bytes is spelled by them.
fn is_spelled_back(alloc: Global, bytes: &[u8]) -> bool {
    let Ok(value) = Value::read(alloc, bytes) else {
        return false;
    };
    let Ok(copy) = value.copy(alloc) else {
        return false;
    };
    let mut out = Vec::new(alloc);
    put_spelling(alloc, &mut out, &copy).is_ok() && out.as_slice() == bytes
}

/// A set of one text that is a byte too long.
const LONG_TEXT: &[u8] = b"{\"aaaaaaaaaaaaaaaaaaaaaaaaaaaaaaaaaaaaaaaaaaaaaaaaaaaaaaaaaaaaaaaaa\"}";

/// A set of one text too many.
const MANY_TEXTS: &[u8] =
    b"{\"#\",\"$\",\"%\",\"&\",\"'\",\"(\",\")\",\"*\",\"+\",\",\",\"-\",\".\",\"/\",\"0\",\"1\",\"2\",\"3\",\"4\",\
\"5\",\"6\",\"7\",\"8\",\"9\",\":\",\";\",\"<\",\"=\",\">\",\"?\",\"@\",\"A\",\"B\",\"C\",\"D\",\"E\",\"F\",\
\"G\",\"H\",\"I\",\"J\",\"K\",\"L\",\"M\",\"N\",\"O\",\"P\",\"Q\",\"R\",\"S\",\"T\",\"U\",\"V\",\"W\",\"X\",\
\"Y\",\"Z\",\"[\",\"\\\",\"]\",\"^\",\"_\",\"`\",\"a\",\"b\",\"c\"}";

/// Bytes that spell no value, and why.
const REFUSED: &[(&[u8], ValueFault)] = &[
    (b"", ValueFault::BadSpelling(0)),
    (b"-0", ValueFault::BadSpelling(1)),
    (b"12x", ValueFault::BadSpelling(2)),
    (b"\"a\"\"", ValueFault::BadSpelling(3)),
    (b"{\"a\",", ValueFault::BadSpelling(5)),
    (b"{\"b\",\"a\"}", ValueFault::BadSpelling(5)),
    (b"{\"b\",\"a", ValueFault::BadSpelling(5)),
    (b"{\"b\",\"b\"}", ValueFault::BadSpelling(5)),
    (b"{\"b\",\"b", ValueFault::BadSpelling(7)),
    (b"1000000000000001", ValueFault::OutOfRange),
    (LONG_TEXT, ValueFault::TooLong(1)),
    (MANY_TEXTS, ValueFault::TooMany(65)),
];

#[test]
fn values_are_read_and_written(rt: HostRuntime) {
    for &bytes in SPELLED {
        assert!(rt;
            is_spelled_back(rt.alloc(), bytes),
            "{}",
            bytes.escape_ascii()
        );
    }
    for &(bytes, fault) in REFUSED {
        let refused = Value::read(rt.alloc(), bytes).err();
        assert!(rt; refused == Some(fault), "{}", bytes.escape_ascii());
    }
}
