//! Who is told the answers of a run.

ghost use Rattle.std.specs.Prelude.{List, Some, None, OnOk};
ghost use Rattle.ucon_model.specs.Summary.{LineReply};
ghost use Rattle.ucon_model.specs.Views.{reply_of};
ghost use Rattle.ucon_trial.specs.Hearing.{HearsMore, replied};
ghost use Rattle.ucon_trial.specs.OneAnswer.{entry_of};

use std::alloc::Global;
use ucon_base::NoMemory;
use ucon_model::Reply;
use ucon_script::LineText;

/// Who is told the answers of a run, one after the other.
pub trait Hearer: Drop {
    /// What was heard are the answers to these lines, and no others.
    ghost hears: { Self → List LineReply → Type 0 };

    /// Hears the reply to a line, and the reply's place.
    fn reply(
        &mut self,
        alloc: Global,
        line: &LineText<'_>,
        place: u64,
        reply: &Reply,
    ) -> Result<(), NoMemory>
        ensures { OnOk result (HearsMore hears self.old self.new (replied (entry_of line.now) (Some (place, reply_of reply.now)))) };

    /// Hears that there was no memory for a line.
    fn no_memory(&mut self, line: &LineText<'_>) -> Result<(), NoMemory>
        ensures { OnOk result (HearsMore hears self.old self.new (replied (entry_of line.now) None)) };
}
