//! A disk that stops after each of its calls, and what is found in the files that a crash may leave then.

use crate::runs::{End, over, place_before, played, stopping};
use std::alloc::Global;
use std::process::Abort;
use std::str;
use std::sync::Wait;
use std::test::Fail;
use std::thread::Threads;
use ucon_client::OpenGate;
use ucon_disk::MemDisk;
use ucon_top::Outcome;
use ucon_vectors::{
    Bytes, CAPPED, LOOKING, PLAYED_ROWS, SUBJECTS_B_AND_C, WITH_A, WITH_A_AND_POINT, document,
    repeated,
};

/// The number of entries that are found in a file: the place of a reply that changes nothing.
fn entries_found<R: Threads + Wait + Sync>(
    rt: &R,
    alloc: Global,
    file: &[u8],
) -> Result<u64, Fail> {
    let end = played(rt, alloc, LOOKING, file, None)?;
    place_before(&end.output, " no session\n")
}

/// How many entries may be found behind so many and the steps that were answered: all of these, and if a step met a disk fault perhaps
/// that one, too.
fn may_be_found(before: u64, output: &[u8]) -> Result<(u64, u64), Fail> {
    let text = str::from_utf8(output).map_err(|_| "text")?;
    let steps = text.lines().filter(|line| line.ends_with(" ok")).count();
    let least = before.saturating_add(steps as u64);
    let one_more = text.lines().any(|line| line.ends_with("- disk fault"));
    Ok((
        least,
        if one_more {
            least.saturating_add(1)
        } else {
            least
        },
    ))
}

/// What a file's open places are filled with.
const FILLS: &[u8] = &[0, 1, 255];

/// The length of the longest file of these tests, which holds one entry and two checkpoints: no crash leaves more.
const LONGEST: u64 = 148;

/// How many images there are with this in their open places, and the length of the first in which neither number of entries is found. No more
/// than that number is compared.
fn opened_images<R: Threads + Wait + Sync>(
    rt: &R,
    alloc: Global,
    disk: &MemDisk,
    fill: u8,
    may_be: (u64, u64),
) -> Result<(u64, Option<u64>), Fail> {
    let (mut opened, mut other) = (0u64, None);
    let mut fills = Vec::new(alloc);
    fills.resize(LONGEST as usize, fill)?;
    for len in 0..=LONGEST {
        if let Some(image) = disk.image(len, &fills)? {
            opened = opened.saturating_add(1);
            let found = entries_found(rt, alloc, &image)?;
            if found != may_be.0 && found != may_be.1 {
                other = other.or(Some(len));
            }
        }
    }
    Ok((opened, other))
}

/// A run over a file on a disk that stops after so many calls: whatever a crash leaves then, each step that was answered is found. The images of
/// each length are opened, of which there is one at least.
fn hold_images<R: Abort + Threads + Wait + Sync>(
    rt: &R,
    alloc: Global,
    name: &str,
    form: &str,
    file: Bytes,
    document: &[u8],
    calls: u64,
) -> Result<(), Fail> {
    let file = file.concat(alloc)?;
    let before = entries_found(rt, alloc, &file)?;
    let disk = stopping(alloc, &file, Some(calls))?;
    let end = over(rt, alloc, form, document, disk, &OpenGate)?;
    let may_be = may_be_found(before, &end.output)?;
    let is_longer = end.disk.image(LONGEST + 1, b"")?.is_some();
    for &fill in FILLS {
        let (opened, other) = opened_images(rt, alloc, &end.disk, fill, may_be)?;
        assert!(rt;
            opened > 0 && other.is_none() && !is_longer,
            "{name}: stopped after {calls} calls, {opened} images, {other:?} bytes, filled with {fill}"
        );
    }
    Ok(())
}

/// A journal that is made, one whose torn end is mended, and steps over one that is whole.
#[test]
fn crashes_leave_what_was_answered(rt: HostRuntime) -> Result<(), Fail> {
    for calls in 0..32u64 {
        hold_images(
            &rt,
            rt.alloc(),
            "two steps",
            "play",
            WITH_A,
            SUBJECTS_B_AND_C,
            calls,
        )?;
        for row in PLAYED_ROWS {
            if let [form, ..] = row.words
                && row.status == 0
            {
                hold_images(
                    &rt,
                    rt.alloc(),
                    row.name,
                    *form,
                    row.file,
                    row.document,
                    calls,
                )?;
            }
        }
    }
    Ok(())
}

const FILES: &[(&str, Bytes)] = &[
    ("without a checkpoint", WITH_A),
    ("with one", WITH_A_AND_POINT),
];

/// A checkpoint under way changes nothing of what is found.
#[test]
fn crashes_of_a_checkpoint_leave_the_history(rt: HostRuntime) -> Result<(), Fail> {
    for calls in 0..32u64 {
        for &(name, file) in FILES {
            hold_images(&rt, rt.alloc(), name, "point", file, LOOKING, calls)?;
        }
    }
    Ok(())
}

/// A journal in which 1,000 uses of one object go on.
fn thousand_uses<R: Threads + Wait + Sync>(rt: &R, alloc: Global) -> Result<Vec<u8>, Fail> {
    let made = b"client 0\nsubject a\nobject x\nset o x most 1000\n";
    let script = repeated(alloc, made, b"try a use x\n", 1000, b"")?;
    let uses = document(alloc, CAPPED, &script)?;
    let end = played(rt, alloc, &uses, b"", None)?;
    Ok(Vec::from_slice(alloc, end.disk.contents())?)
}

/// With how many calls of its disk a file is opened, which are fewer than 16,384: with one less there is a disk fault.
fn calls_of_opening<R: Threads + Wait + Sync>(
    rt: &R,
    alloc: Global,
    file: &[u8],
) -> Result<u64, Fail> {
    let asking = document(alloc, CAPPED, ASKING)?;
    let (mut low, mut high) = (0u64, 16_384u64);
    for _ in 0..14u32 {
        let calls = low.saturating_add(high) / 2;
        match played(rt, alloc, &asking, file, Some(calls))?.outcome {
            Outcome::Done => high = calls,
            _ => low = calls,
        }
    }
    Ok(high)
}

/// The number of entries that are found in a file of many uses, behind which the first use goes on or is revoked.
fn uses_found<R: Threads + Wait + Sync>(rt: &R, alloc: Global, file: &[u8]) -> Result<u64, Fail> {
    let asking = document(alloc, CAPPED, ASKING)?;
    let end = played(rt, alloc, &asking, file, None)?;
    if end.output.as_slice() == b"0 1003 status 1 accessing\n".as_slice() {
        Ok(1003)
    } else if end.output.as_slice() == b"0 1004 status 1 revoked\n".as_slice() {
        Ok(1004)
    } else {
        Err("another history".into())
    }
}

const REVOKING: &[u8] = b"client 0\nset o x most 0\n";

const ASKING: &[u8] = b"client 0\nlook 1\n";

/// How many images of the lengths that are tried there are with this in their open places, and the length of the first in which the step isn't
/// found. Each is of a history with the step or without.
fn opened_uses<R: Threads + Wait + Sync>(
    rt: &R,
    alloc: Global,
    disk: &MemDisk,
    fill: u8,
    least: u64,
    greatest: u64,
) -> Result<(u64, Option<u64>), Fail> {
    let (mut opened, mut lost) = (0u64, None);
    let mut fills = Vec::new(alloc);
    fills.resize(greatest as usize, fill)?;
    for len in [least, least.saturating_add(greatest) / 2, greatest] {
        if let Some(image) = disk.image(len, &fills)? {
            opened = opened.saturating_add(1);
            if uses_found(rt, alloc, &image)? != 1004 {
                lost = lost.or(Some(len));
            }
        }
    }
    Ok((opened, lost))
}

/// What a crash leaves of the step that revokes 1,000 uses, on a disk that stops after so many calls. It is all of it or nothing, and all of it if
/// it was answered. The output tells whether it was.
fn hold_cascade<R: Abort + Threads + Wait + Sync>(
    rt: &R,
    alloc: Global,
    before: &[u8],
    whole: &End,
    calls: u64,
    is_answered: bool,
) -> Result<(), Fail> {
    let step = document(alloc, CAPPED, REVOKING)?;
    let end = played(rt, alloc, &step, before, Some(calls))?;
    let (least, greatest) = (before.len() as u64, whole.disk.contents().len() as u64);
    let is_told = (end.output == whole.output) == is_answered;
    for &fill in FILLS {
        let (opened, lost) = opened_uses(rt, alloc, &end.disk, fill, least, greatest)?;
        assert!(rt;
            is_told && opened > 0 && (lost.is_none() || !is_answered),
            "stopped after {calls} calls, {opened} images, {lost:?} bytes, filled with {fill}"
        );
    }
    Ok(())
}

/// The answer to the step: all 1,000 uses are revoked, in the order of their numbers.
fn all_revoked(alloc: Global) -> Result<String, Fail> {
    let mut text = String::from_str(alloc, "0 1004 ok")?;
    for number in 1..=1000u32 {
        text.push_str(format!(in alloc; " revoked {number} cap")?.as_str())?;
    }
    text.push_str("\n")?;
    Ok(text)
}

/// The calls of a step: its record and a sync, and its gate and a sync.
const CALLS_OF_A_STEP: u64 = 4;

/// On a disk that stops after each of the step's calls. Only behind the last of them the step is answered.
#[test]
fn a_large_cascade_is_found_whole_or_not_at_all(rt: HostRuntime) -> Result<(), Fail> {
    let alloc = rt.alloc();
    let before = thousand_uses(&rt, alloc)?;
    let step = document(alloc, CAPPED, REVOKING)?;
    let whole = played(&rt, alloc, &step, &before, None)?;
    let answer = all_revoked(alloc)?;
    assert!(rt; whole.output.as_slice() == answer.as_bytes());
    let opening = calls_of_opening(&rt, alloc, &before)?;
    for calls in 0..=CALLS_OF_A_STEP {
        let stop = opening.saturating_add(calls);
        let is_last = calls == CALLS_OF_A_STEP;
        hold_cascade(&rt, alloc, &before, &whole, stop, is_last)?;
    }
    Ok(())
}
