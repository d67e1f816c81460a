//! The lines of an input, one by one.

ghost use Rattle.std.specs.Prelude.{◌≡◌, ◌≢◌, ◌<◌, [], false, true, length, IfOk, OnErr, IsErrOf};
ghost use Rattle.ucon_flow.specs.Causes.{raised};
ghost use Rattle.ucon_flow.specs.Lines.{HasNewline, IsBare, first_line};
ghost use Rattle.ucon_script.specs.Coming.{ComesLine, HoldsMore};

use crate::part::first_place;
use std::alloc::Global;
use std::marker::Model;
use ucon_flow::{LineReader, ReadFault, Source};

/// The lines of an input that is still being written, of a limited length in all. Each is given out once it is there.
#[derive(Drop)]
pub struct ComingLines {
    lines: LineReader,
    /// How many bytes may still be given out.
    room: usize,
    /// Whether the last line was given out.
    over: bool,
}

impl Model for ComingLines {
    ghost use Rattle.std.specs.Prelude.{◌≡◌, true, []};
    ghost use Rattle.ucon_script.specs.Coming.{Coming};

    ghost Value = { Coming };

    ghost view = { λ c. record { room = c.room; held = c.lines.held; over = c.over } };

    ghost invariant = { λ c. c.room ≡ c.lines.limit };
}

impl ComingLines {
    /// The lines of an input of at most `room` bytes. It takes no memory yet.
    pub fn new(alloc: Global, room: usize) -> ComingLines
        ensures { result ≡ record { room = room; held = []; over = false } }
    {
        ComingLines {
            lines: LineReader::new(alloc, room),
            room,
            over: false,
        }
    }

    /// Whether the last line was given out.
    pub fn is_over(&self) -> bool
        ensures { result ≡ self.now.over }
    {
        self.over
    }

    /// The next line, with the newline that ends it. The last one has none, and may be empty.
    pub fn next<S: Source>(&mut self, alloc: Global, source: &mut S) -> Result<Vec<u8>, ReadFault>
        requires { self.old.over ≡ false }
        ensures line { IfOk result (λ line. ComesLine S.seen self.old self.new source.old source.new line.items) }
        ensures err { OnErr result (HoldsMore S.seen self.old self.new source.old source.new) }
        ensures too_long { IsErrOf result ReadFault.TooLong → self.new.room < length (first_line self.new.held) }
        ensures bare { IsErrOf result ReadFault.SourceFault → IsBare self.new.held }
        ensures failed { IsErrOf result ReadFault.SourceFault → (S.seen source.new).faults ≡ raised (S.seen source.old).faults }
        ensures unfailed { result ≢ Err ReadFault.SourceFault → (S.seen source.new).faults ≡ (S.seen source.old).faults }
    {
        match self.lines.next(alloc, source)? {
            Some(line) => {
                self.room -= line.len();
                self.lines.limit_to(self.room);
                self.over = is_bare(&line);
                Ok(line)
            }
            None => {
                self.over = true;
                Ok(Vec::new(alloc))
            }
        }
    }
}

/// Whether no newline stands among these bytes.
fn is_bare(bytes: &[u8]) -> bool
    ensures bare { result ≡ true → IsBare bytes.now }
    ensures not_bare { result ≡ false → HasNewline bytes.now }
{
    match first_place(bytes, b'\n') {
        Some(_) => false,
        None => true,
    }
}
