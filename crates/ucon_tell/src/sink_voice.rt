//! A voice over a sink, for what is outside.

ghost use Rattle.std.specs.Prelude.{◌≡◌, [], ⊤, IfOk};
ghost use Rattle.ucon_flow.specs.Causes.{HasCause};

use crate::dated::Notes;
use crate::{Keeper, Voice};
use ucon_flow::{Failed, Sink};

/// A voice over a sink, which hands on what it takes. By which moment the sink held what stands in proofs alone.
#[derive(Drop)]
pub struct SinkVoice<W: Sink> {
    sink: W,
    notes: Notes,
}

impl<W: Sink> SinkVoice<W> {
    /// Hands all bytes on to this sink, of which nothing was told before.
    pub fn new(sink: W) -> SinkVoice<W>
        ensures sink { result.sink ≡ sink }
        ensures notes { result.notes ≡ [] }
    {
        SinkVoice {
            sink,
            notes: Notes::new(),
        }
    }

    /// The sink.
    pub fn into_sink(self) -> W
        ensures { result ≡ self.sink }
    {
        let SinkVoice { sink, notes: _ } = self;
        sink
    }
}

impl<K: Keeper, W: Sink> Voice<K> for SinkVoice<W> {
    ghost use Rattle.ucon_tell.specs.Dated.{IsTold};

    ghost seen = { λ v. record { contents = (W.seen v.sink).contents; faults = (W.seen v.sink).faults; told = IsTold v.notes } };

    fn write(&mut self, bytes: &[u8], keeper: &K) -> Result<usize, Failed> {
        let taken = self.sink.write(bytes)?;
        self.notes.push(&self.sink, keeper);
        Ok(taken)
    }
}
