//! Lines of small and large pieces, and lines that are skipped.
ghost use Rattle.std.specs.Prelude.{◌≤◌};

use std::alloc::Global;
use std::test::Fail;
use ucon_flow::{LineReader, MemSource, ReadFault};

fn source(alloc: Global, bytes: &[u8], piece: usize, faults: &[u64]) -> Result<MemSource, Fail>
    requires { 1 ≤ piece }
{
    let bytes = Vec::from_slice(alloc, bytes)?;
    Ok(MemSource::new(bytes, piece, Vec::from_slice(alloc, faults)?))
}

/// How many bytes a read gives at the most.
const PIECES: &[usize] = &[1, 2, 4096];

const LINES: &[&[u8]] = &[b"a\n", b"bc\n", b"\n", b"d"];

#[test]
fn lines_are_given_one_by_one(rt: HostRuntime) -> Result<(), Fail> {
    let alloc = rt.alloc();
    for &piece in PIECES {
        let mut source = source(alloc, b"a\nbc\n\nd", piece.max(1), &[])?;
        let mut reader = LineReader::new(alloc, 3);
        for &wanted in LINES {
            let line = reader.next(alloc, &mut source)?.ok_or("a line")?;
            assert!(rt; line.as_slice() == wanted, "{wanted:?} of {piece}");
        }
        assert!(rt;
            reader.next(alloc, &mut source)?.is_none(),
            "the end of {piece}"
        );
    }
    Ok(())
}

#[test]
fn a_line_that_is_too_long_is_skipped(rt: HostRuntime) -> Result<(), Fail> {
    let alloc = rt.alloc();
    for &piece in PIECES {
        let mut source = source(alloc, b"abcde\nf\nghijk", piece.max(1), &[])?;
        let mut reader = LineReader::new(alloc, 3);
        assert!(rt;
            reader.next(alloc, &mut source) == Err(ReadFault::TooLong),
            "{piece}"
        );
        assert!(rt;
            reader.next(alloc, &mut source) == Err(ReadFault::TooLong),
            "{piece}"
        );
        assert!(rt; reader.skip(&mut source)?, "{piece}");
        let line = reader.next(alloc, &mut source)?.ok_or("a line")?;
        assert!(rt; line.as_slice() == b"f\n".as_slice(), "{piece}");
        assert!(rt;
            reader.next(alloc, &mut source) == Err(ReadFault::TooLong),
            "{piece}"
        );
        assert!(rt; !reader.skip(&mut source)?, "{piece}");
        assert!(rt; reader.next(alloc, &mut source)?.is_none(), "{piece}");
    }
    Ok(())
}

#[test]
fn a_line_is_given_before_the_next_piece_is_read(rt: HostRuntime) -> Result<(), Fail> {
    let alloc = rt.alloc();
    // The second read fails, and the third gives what comes next.
    let mut source = source(alloc, b"a\nb\nc", 2, &[1])?;
    let mut reader = LineReader::new(alloc, 2);
    let line = reader.next(alloc, &mut source)?.ok_or("a line")?;
    assert!(rt; line.as_slice() == b"a\n".as_slice() && !reader.has_line());
    assert!(rt; reader.next(alloc, &mut source) == Err(ReadFault::SourceFault));
    let line = reader.next(alloc, &mut source)?.ok_or("a line")?;
    assert!(rt; line.as_slice() == b"b\n".as_slice());
    Ok(())
}

const LIMIT: usize = 4_194_304;

/// The length of a line, and what is read of it: as many bytes, or why it is refused.
const LONG: &[(usize, Option<usize>, Option<ReadFault>)] = &[
    (LIMIT, Some(LIMIT), None),
    (LIMIT + 1, None, Some(ReadFault::TooLong)),
];

#[test]
fn a_line_may_be_as_long_as_the_limit(rt: HostRuntime) -> Result<(), Fail> {
    let alloc = rt.alloc();
    for &(len, wanted, refused) in LONG {
        let bytes = vec![in alloc; b'a'; len]?;
        let mut source = MemSource::new(bytes, 4096, Vec::new(alloc));
        let (read, fault) = match LineReader::new(alloc, LIMIT).next(alloc, &mut source) {
            Ok(line) => (line.map(|l| l.len()), None),
            Err(fault) => (None, Some(fault)),
        };
        assert!(rt; read == wanted && fault == refused, "{len}");
    }
    Ok(())
}
