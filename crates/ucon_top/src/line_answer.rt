//! The output of answered lines.

ghost use Rattle.std.specs.Prelude.{◌≡◌, ◌<◌, ◌++◌, ◌∷◌, [], map, OnOk, IfOk};
ghost use Rattle.std.specs.Fmt.{decimal};
ghost use Rattle.ucon_base.specs.Elements.{Each};
ghost use Rattle.ucon_model.specs.Output.{FitsLine, answer_spelling, output};
ghost use Rattle.ucon_client.specs.Answers.{answer_of};
ghost use Rattle.ucon_top.specs.Stepping.{told_line};

use std::alloc::Global;
use ucon_base::NoMemory;
use ucon_client::Answer;
use ucon_model::Caller;
use ucon_script::LineText;
use ucon_trial::{put_reply, put_unplaced};

/// A command line with its answer.
#[derive(Drop)]
pub struct AnsweredLine<'a> {
    pub line: LineText<'a>,
    pub answer: Answer,
}

/// One line for each answer.
pub fn output_text(alloc: Global, answered: &[AnsweredLine<'_>]) -> Result<Vec<u8>, NoMemory>
    ensures text { IfOk result (λ text. text.items ≡ output (map told_line answered.now)) }
    ensures fits { OnOk result (Each (λ t. FitsLine t.answer) (map told_line answered.now)) }
    ensures clients { OnOk result (Each (λ t. t.line.caller.0 < 256) (map told_line answered.now)) }
{
    let mut text = Vec::new(alloc);
    for one in answered {
        put_answer(alloc, &mut text, one.line.caller, &one.answer)?;
    }
    Ok(text)
}

/// Adds the line of an answer to a client.
pub fn put_answer(
    alloc: Global,
    out: &mut Vec<u8>,
    caller: Caller,
    answer: &Answer,
) -> Result<(), NoMemory>
    ensures text { OnOk result (out.new.items ≡ out.old.items ++ (decimal caller.0 ++ 32 ∷ answer_spelling (answer_of answer.now) ++ 10 ∷ [])) }
    ensures fits { OnOk result (FitsLine (answer_of answer.now)) }
    ensures client { OnOk result (caller.0 < 256) }
{
    match answer {
        Answer::Placed(placed) => put_reply(alloc, out, caller, placed.place, &placed.reply),
        Answer::NoMemory => put_unplaced(out, caller, b"- no memory"),
        Answer::DiskFault => put_unplaced(out, caller, b"- disk fault"),
        Answer::Stopped => put_unplaced(out, caller, b"- stopped"),
    }
}
