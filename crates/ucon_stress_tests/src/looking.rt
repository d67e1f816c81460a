//! Looks that are read off a board, without a turn.

use crate::moments::Moment;
use crate::runs::{End, over, played};
use std::alloc::Global;
use std::sync::Wait;
use std::test::Fail;
use std::thread::Threads;
use ucon_client::{Gate, OpenGate};
use ucon_disk::{Disk, Failed};
use ucon_flow::{MemSink, MemSource};
use ucon_top::{Outcome, run};
use ucon_vectors::{CAPPED, document};

/// What client 0 makes for the others, and client 1's use.
const MADE: &[u8] = b"client 0\nsubject a\nobject x\nclient 1\ntry a use x\n";

/// A client's looks follow its steps, whether it reads them off a board or asks in its turn.
#[test]
fn looks_follow_steps(rt: HostRuntime) -> Result<(), Fail> {
    let alloc = rt.alloc();
    let made = document(alloc, CAPPED, b"client 0\nsubject a\nobject x\n")?;
    let lines = document(
        alloc,
        CAPPED,
        b"client 1\ntry a use x\nlook 1\nend 1\nlook 1\nlook 2\n",
    )?;
    for form in ["serve", "board"].as_slice() {
        let first = played(&rt, alloc, &made, b"", None)?;
        let end = over(&rt, alloc, form, &lines, first.disk, &OpenGate)?;
        assert!(rt;
            end.output.as_slice()
                == b"1 3 permitted 1\n1 3 status 1 accessing\n1 4 ended 1\n1 4 status 1 ended\n1 4 no session\n".as_slice()
        );
    }
    Ok(())
}

/// Each of 64 clients looks at a session that is there, and at one that isn't.
#[test]
fn sixty_four_clients_look(rt: HostRuntime) -> Result<(), Fail> {
    let alloc = rt.alloc();
    let (mut script, mut wanted) = (String::new(alloc), String::new(alloc));
    for client in 0..64u8 {
        script.push_str(&format!(in alloc; "client {client}\nlook 1\nlook 2\n")?)?;
        wanted.push_str(&format!(in alloc;
            "{client} 3 status 1 accessing\n{client} 3 no session\n"
        )?)?;
    }
    let first = played(&rt, alloc, &document(alloc, CAPPED, MADE)?, b"", None)?;
    let lines = document(alloc, CAPPED, script.as_bytes())?;
    let end = over(&rt, alloc, "board", &lines, first.disk, &OpenGate)?;
    assert!(rt; end.output.as_slice() == wanted.as_bytes());
    Ok(())
}

/// Client 2 looks only while client 1's step waits for the disk, in its turn. The disk waits until client 2 was answered.
#[derive(Drop)]
struct LookGate {
    begins: Moment,
    waits: Moment,
    looked: Moment,
    missed: Moment,
}

impl LookGate {
    fn new() -> LookGate {
        LookGate {
            begins: Moment::new(),
            waits: Moment::new(),
            looked: Moment::new(),
            missed: Moment::new(),
        }
    }

    fn meet(&self, moment: &Moment) {
        if !moment.is_met() {
            self.missed.comes();
        }
    }
}

impl Gate for LookGate {
    fn before(&self, client: u8, _line: u32) {
        if client == 1 {
            self.begins.comes();
        } else {
            self.meet(&self.waits);
        }
    }

    fn after(&self, client: u8, _line: u32) {
        if client == 2 {
            self.looked.comes();
        }
    }
}

/// A disk on which each sync of a step waits at a gate.
#[derive(Drop)]
struct GatedDisk<'a, D: Disk> {
    disk: D,
    gate: &'a LookGate,
}

impl<D: Disk> Disk for GatedDisk<'_, D> {
    ghost seen = { λ d. D.seen d.disk };

    ghost as_read = { λ d. D.as_read d.disk };

    ghost counts_now = { λ d. D.counts_now d.disk };

    ghost only_now = { λ d. D.only_now d.disk };

    ghost since_earlier = { λ d. D.since_earlier d.disk };

    fn len(&mut self) -> Result<u64, Failed> {
        self.disk.len()
    }

    fn read_at(&mut self, at: u64, buf: &mut [u8]) -> Result<usize, Failed> {
        self.disk.read_at(at, buf)
    }

    fn write_at(&mut self, at: u64, bytes: &[u8]) -> Result<(), Failed> {
        self.disk.write_at(at, bytes)
    }

    fn cut(&mut self, len: u64) -> Result<(), Failed> {
        self.disk.cut(len)
    }

    fn sync(&mut self) -> Result<(), Failed> {
        if self.gate.begins.came() {
            self.gate.waits.comes();
            self.gate.meet(&self.gate.looked);
        }
        self.disk.sync()
    }
}

/// A client that always asks in its turn would wait for the step, which waits for it.
#[test]
fn a_look_returns_while_a_step_holds_the_turn(rt: HostRuntime) -> Result<(), Fail> {
    let alloc = rt.alloc();
    let first = played(&rt, alloc, &document(alloc, CAPPED, MADE)?, b"", None)?;
    let lines = document(alloc, CAPPED, b"client 1\nend 1\nclient 2\nlook 1\n")?;
    let words = [
        String::from_str(alloc, "board")?,
        String::from_str(alloc, "j")?,
    ];
    let mut source = MemSource::new(lines, 4096, Vec::new(alloc));
    let mut sink = MemSink::new(alloc, 4096, Vec::new(alloc));
    let gate = LookGate::new();
    let disk = GatedDisk {
        disk: first.disk,
        gate: &gate,
    };
    let ended = run(&rt, alloc, &words, &mut source, &mut sink, disk, &gate);
    assert!(rt; matches!(ended.outcome, Outcome::Done));
    assert!(rt; !gate.missed.came());
    assert!(rt; sink.bytes() == b"1 4 ended 1\n2 3 status 1 accessing\n".as_slice());
    Ok(())
}
