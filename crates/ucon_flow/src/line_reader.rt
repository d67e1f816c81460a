//! Lines of a source, one by one.

ghost use Rattle.std.specs.Prelude.{◌≡◌, ◌≢◌, ◌⊎◌, ◌+◌, ◌≤◌, ◌<◌, ◌==◌, ◌↔◌, [], length, drop, max, position, nat_lt, false, true, IfOk, OnErr, OnOk, IfSome, IsErrOf, IsTrue};
ghost use Rattle.std.specs.Io.KnownBytes.{IsAtEnd};
ghost use Rattle.ucon_flow.specs.Causes.{raised};
ghost use Rattle.ucon_flow.specs.Lines.{newline, HasNewline, IsBare, first_line, Holds, GivesLine, IsNoLine, Skips, IsLeftAlone};
ghost use Rattle.ucon_flow.specs.Pieces.{Asks};

use crate::{ReadFault, Source};
use std::alloc::{AllocError, Global};
use std::marker::Model;

/// The most bytes that are read at once: all that a pipe holds.
const PIECE: usize = 65536;

/// The lines of a source, each given out once it is there: the source is read only while no whole line is held. At most `limit` bytes and a piece
/// of 65,536 are held. The limit is a line's, with its newline. To limit a whole source, add up the lengths of the lines that were given. None is
/// longer than the limit, so what is held stays as small as that.
#[derive(Drop)]
pub struct LineReader {
    limit: usize,
    seen: Vec<u8>,
    /// How many of the bytes that are kept were given out.
    gone: usize,
    /// Where a piece is read into; empty until the first one.
    piece: Vec<u8>,
}

impl Model for LineReader {
    ghost use Rattle.std.specs.Prelude.{◌≤◌, length, drop};
    ghost use Rattle.ucon_flow.specs.Lines.{Reading};

    ghost Value = { Reading };

    ghost view = { λ r. record { limit = r.limit; held = drop r.gone r.seen.items } };

    ghost invariant = { λ r. r.gone ≤ length r.seen.items };
}

impl LineReader {
    /// Gives lines of at most `limit` bytes. It takes no memory yet.
    pub fn new(alloc: Global, limit: usize) -> LineReader
        ensures { result ≡ record { limit = limit; held = [] } }
    {
        LineReader {
            limit,
            seen: Vec::new(alloc),
            gone: 0,
            piece: Vec::new(alloc),
        }
    }

    /// The most bytes of a line, with its newline.
    pub fn limit(&self) -> usize
        ensures { result ≡ self.now.limit }
    {
        self.limit
    }

    /// From now on a line may have so many bytes.
    pub fn limit_to(&mut self, limit: usize)
        ensures { self.new ≡ record self.old { limit = limit } }
    {
        self.limit = limit;
    }

    /// Whether a whole line is held: then the next call of [`LineReader::next`] or [`LineReader::skip`] doesn't read the source. So all the lines
    /// that have arrived can be taken before the source is waited for.
    pub fn has_line(&self) -> bool
        ensures { IsTrue result ↔ HasNewline self.now.held }
    {
        first_line(self.held()).1
    }

    /// Reads until a whole line is held. False if the source ends before, and then no newline is held. All lines that have arrived with the first one
    /// are held then too ([`LineReader::held`]), and can be taken at once ([`LineReader::give_out`]). Behind `TooLong` the next line has more bytes than
    /// the limit, now and at each further call, until it is skipped.
    pub fn await_line<S: Source>(&mut self, source: &mut S) -> Result<bool, ReadFault>
        ensures read { Holds S.seen self.old self.new source.old source.new }
        ensures line { result ≡ Ok true → HasNewline self.new.held × (length (first_line self.new.held) ≤ self.new.limit) }
        ensures none { result ≡ Ok false → IsBare self.new.held × IsAtEnd (S.seen source.new).left }

        // The cause of each fault. If the source fails no whole line is held back.
        ensures too_long { IsErrOf result ReadFault.TooLong → self.new.limit < length (first_line self.new.held) }
        ensures failed { IsErrOf result ReadFault.SourceFault → (S.seen source.new).faults ≡ raised (S.seen source.old).faults }
        ensures unfailed { result ≢ Err ReadFault.SourceFault → (S.seen source.new).faults ≡ (S.seen source.old).faults }
        ensures bare { IsErrOf result ReadFault.SourceFault → IsBare self.new.held }

        // At most one read for each byte within the limit, and one more; none if a whole line is held.
        ensures reads { (S.seen source.new).reads ≤ (S.seen source.old).reads + self.old.limit + 1 }
        ensures untouched { HasNewline self.old.held → source.new ≡ source.old }
        ensures bounded { length self.new.held ≤ max (length self.old.held) (self.old.limit + 65536) }
    {
        let len = self.read_line(source)?;
        if len > self.limit {
            return Err(ReadFault::TooLong);
        }
        Ok(self.has_line())
    }

    /// Gives out so many bytes of what is held.
    pub fn give_out(&mut self, len: usize)
        requires { len ≤ length self.old.held }
        ensures { self.new ≡ record self.old { held = drop len self.old.held } }
    {
        self.gone += len;
    }

    /// What was read and not given out.
    pub fn held(&self) -> &[u8]
        ensures { result.now ≡ self.now.held }
    {
        &self.seen[self.gone..]
    }

    /// The next line, with the newline that ends it, which the input's last line may lack; None exactly at the input's end. After a
    /// refusal nothing is lost: what was read is held, and the call may be made again. Behind `TooLong` the next line has more bytes than
    /// the limit, now and at each further call, until it is skipped.
    pub fn next<S: Source>(
        &mut self,
        alloc: Global,
        source: &mut S,
    ) -> Result<Option<Vec<u8>>, ReadFault>
        ensures line { IfOk result (λ r. IfSome r (λ line. GivesLine S.seen self.old self.new source.old source.new line.items)) }
        ensures none { result ≡ Ok None → IsNoLine S.seen self.old self.new source.old source.new }
        ensures err { OnErr result (Holds S.seen self.old self.new source.old source.new) }

        // The cause of each fault. If the source fails no whole line is held back.
        ensures too_long { IsErrOf result ReadFault.TooLong → self.new.limit < length (first_line self.new.held) }
        ensures failed { IsErrOf result ReadFault.SourceFault → (S.seen source.new).faults ≡ raised (S.seen source.old).faults }
        ensures unfailed { result ≢ Err ReadFault.SourceFault → (S.seen source.new).faults ≡ (S.seen source.old).faults }
        ensures bare { IsErrOf result ReadFault.SourceFault → IsBare self.new.held }

        // At most one read for each byte within the limit, and one more; none if a whole line is held.
        ensures reads { (S.seen source.new).reads ≤ (S.seen source.old).reads + self.old.limit + 1 }
        ensures untouched { HasNewline self.old.held → source.new ≡ source.old }
        ensures bounded { length self.new.held ≤ max (length self.old.held) (self.old.limit + 65536) }
    {
        let len = self.read_line(source)?;
        if len > self.limit {
            return Err(ReadFault::TooLong);
        }
        if len == 0 {
            return Ok(None);
        }
        let line = Vec::from_slice(alloc, &self.held()[..len])?;
        self.gone += len;
        Ok(Some(line))
    }

    /// Drops the next line, or what is left of it, up to its newline and with it, however long it is; false at the input's end, where no newline
    /// came. No more than a piece is held of it. After a refusal its beginning is gone, and the call may be made again for the rest; the refusal is
    /// `TooLong` only behind 2^64 - 1 bytes.
    pub fn skip<S: Source>(&mut self, source: &mut S) -> Result<bool, ReadFault>
        ensures skips { Skips S.seen result self.old self.new source.old source.new }
        ensures failed { IsErrOf result ReadFault.SourceFault → (S.seen source.new).faults ≡ raised (S.seen source.old).faults }
        ensures unfailed { result ≢ Err ReadFault.SourceFault → (S.seen source.new).faults ≡ (S.seen source.old).faults }
        ensures untouched { HasNewline self.old.held → source.new ≡ source.old }
        ensures bounded { length self.new.held ≤ max (length self.old.held) 65536 }
    {
        for _piece in 0..u64::MAX {
            let (len, whole) = first_line(self.held());
            if whole {
                self.gone += len;
                return Ok(true);
            }
            self.forget();
            if self.read_piece(source)? == 0 {
                return Ok(false);
            }
        }
        Err(ReadFault::TooLong)
    }

    /// Drops all that is held.
    fn forget(&mut self)
        ensures { self.new ≡ record self.old { held = [] } }
    {
        self.seen.clear();
        self.gone = 0;
    }

    /// How many bytes the next line has, as far as it was read: until it is whole, longer than the limit, or the source's last.
    fn read_line<S: Source>(&mut self, source: &mut S) -> Result<usize, ReadFault>
        ensures read { Holds S.seen self.old self.new source.old source.new }
        ensures len { IfOk result (λ n. n ≡ length (first_line self.new.held)) }
        ensures whole { IfOk result (λ n. HasNewline self.new.held ⊎ (self.new.limit < n)
            ⊎ (IsBare self.new.held × IsAtEnd (S.seen source.new).left)) }
        ensures long { result ≢ Err ReadFault.TooLong }
        ensures failed { IsErrOf result ReadFault.SourceFault → (S.seen source.new).faults ≡ raised (S.seen source.old).faults }
        ensures unfailed { result ≢ Err ReadFault.SourceFault → (S.seen source.new).faults ≡ (S.seen source.old).faults }
        ensures bare { OnErr result (IsBare self.new.held) }
        ensures reads { (S.seen source.new).reads ≤ (S.seen source.old).reads + self.old.limit + 1 }
        ensures untouched { HasNewline self.old.held → source.new ≡ source.old }
        ensures bounded { length self.new.held ≤ max (length self.old.held) (self.old.limit + 65536) }
    {
        let (mut len, mut whole) = first_line(self.held());
        while !whole && len <= self.limit {
            if self.read_piece(source)? == 0 {
                break;
            }
            let (more, ended) = first_line(&self.held()[len..]);
            len += more;
            whole = ended;
        }
        Ok(len)
    }

    /// Reads one piece, and tells how many bytes it has, none at the input's end. Room is made first, so that what was read is never lost.
    fn read_piece<S: Source>(&mut self, source: &mut S) -> Result<usize, ReadFault>
        ensures asked { Asks S.seen self.old self.new source.old source.new }
        ensures count { IfOk result (λ n. (length self.new.held ≡ length self.old.held + n) × (n ≤ 65536)) }
        ensures same { OnErr result (self.new ≡ self.old) }
        ensures end { result ≡ Ok 0 → IsAtEnd (S.seen source.new).left }
        ensures long { result ≢ Err ReadFault.TooLong }
        ensures failed { IsErrOf result ReadFault.SourceFault → (S.seen source.new).faults ≡ raised (S.seen source.old).faults }
        ensures unfailed { result ≢ Err ReadFault.SourceFault → (S.seen source.new).faults ≡ (S.seen source.old).faults }
        ensures reads { (S.seen source.new).reads ≤ (S.seen source.old).reads + 1 }
    {
        self.close_up();
        self.seen.reserve(PIECE)?;
        make_room(&mut self.piece)?;
        let n = source.read(&mut self.piece)?;
        if self.seen.extend_from_slice(&self.piece[..n]).is_err() {
            unreachable!()
        }
        Ok(n)
    }

    /// Drops what was given out.
    fn close_up(&mut self)
        ensures { self.new ≡ self.old }
    {
        if self.gone > 0 {
            let len = self.seen.len() - self.gone;
            self.seen.rotate_left(self.gone);
            self.seen.truncate(len);
            self.gone = 0;
        }
    }
}

/// Makes a piece's bytes, if they aren't there yet.
fn make_room(piece: &mut Vec<u8>) -> Result<(), AllocError>
    ensures { OnOk result (length piece.new.items ≡ 65536) }
{
    if piece.len() != PIECE {
        piece.resize(PIECE, 0)?;
    }
    Ok(())
}

/// How many bytes the first line has, with its newline, and whether it has one.
fn first_line(bytes: &[u8]) -> (usize, bool)
    ensures len { result.0 ≡ length (first_line bytes.now) }
    ensures whole { result.1 ≡ nat_lt (newline bytes.now) (length bytes.now) }
{
    match first_newline(bytes) {
        Some(at) => (at + 1, true),
        None => (bytes.len(), false),
    }
}

fn first_newline(bytes: &[u8]) -> Option<usize>
    ensures place { result ≡ position (λ b. b == 10) bytes.now }
    ensures within { IfSome result (λ at. at + 1 ≤ length bytes.now) }
{
    bytes.iter().position(|b| *b == b'\n')
}
