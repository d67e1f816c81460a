//! Runs of the top call over a journal.

use std::alloc::Global;
use std::str;
use std::sync::Wait;
use std::test::Fail;
use std::thread::Threads;
use ucon_client::{Gate, OpenGate};
use ucon_disk::MemDisk;
use ucon_flow::{MemSink, MemSource};
use ucon_top::{Outcome, run};

/// How a run ended.
#[derive(Drop)]
pub struct End {
    pub outcome: Outcome,
    /// What went out.
    pub output: Vec<u8>,
    pub disk: MemDisk,
}

/// How a form ends over a document and a journal.
pub fn over<R: Threads + Wait + Sync, G: Gate + Sync>(
    rt: &R,
    alloc: Global,
    form: &str,
    document: &[u8],
    disk: MemDisk,
    gate: &G,
) -> Result<End, Fail> {
    let words = [
        String::from_str(alloc, form)?,
        String::from_str(alloc, "j")?,
    ];
    let mut source = MemSource::new(Vec::from_slice(alloc, document)?, 4096, Vec::new(alloc));
    let mut sink = MemSink::new(alloc, 4096, Vec::new(alloc));
    let ended = run(rt, alloc, &words, &mut source, &mut sink, disk, gate);
    Ok(End {
        outcome: ended.outcome,
        output: Vec::from_slice(alloc, sink.bytes())?,
        disk: ended.disk,
    })
}

/// A disk that holds this file, and stops after so many calls.
pub fn stopping(alloc: Global, file: &[u8], calls: Option<u64>) -> Result<MemDisk, Fail> {
    let file = Vec::from_slice(alloc, file)?;
    Ok(MemDisk::new(alloc, file, Vec::new(alloc), calls))
}

/// How `play` ends over a document and a file, on a disk that stops after so many calls.
pub fn played<R: Threads + Wait + Sync>(
    rt: &R,
    alloc: Global,
    document: &[u8],
    file: &[u8],
    calls: Option<u64>,
) -> Result<End, Fail> {
    let disk = stopping(alloc, file, calls)?;
    over(rt, alloc, "play", document, disk, &OpenGate)
}

/// The place of the only answer that went out, which is client 0's and ends with this.
pub fn place_before(output: &[u8], reply: &str) -> Result<u64, Fail> {
    let text = str::from_utf8(output).map_err(|_| "text")?;
    let place = text.strip_prefix("0 ").ok_or("client")?;
    let place = place.strip_suffix(reply).ok_or("reply")?;
    Ok(place.parse::<u64>().map_err(|_| "place")?)
}
