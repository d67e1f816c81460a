//! The output of clients that were served.

ghost use Rattle.std.specs.Prelude.{◌≡◌, ◌++◌, IfOk, OnOk};
ghost use Rattle.ucon_base.specs.Elements.{Each};
ghost use Rattle.ucon_model.specs.Output.{FitsLine, output};
ghost use Rattle.ucon_client.specs.Answers.{IsAnswered, told_in, told_of};

use crate::line_answer::put_answer;
use std::alloc::Global;
use ucon_base::NoMemory;
use ucon_client::Part;

/// One line for each answer, part by part.
pub fn parts_text(alloc: Global, parts: &[Part]) -> Result<Vec<u8>, NoMemory>
    requires { Each IsAnswered parts.now }
    ensures text { IfOk result (λ text. text.items ≡ output (told_in parts.now)) }
    ensures fits { OnOk result (Each (λ t. FitsLine t.answer) (told_in parts.now)) }
{
    let mut text = Vec::new(alloc);
    for part in parts {
        put_part(alloc, &mut text, part)?;
    }
    Ok(text)
}

/// Adds one line for each answer of a part.
fn put_part(alloc: Global, out: &mut Vec<u8>, part: &Part) -> Result<(), NoMemory>
    requires { IsAnswered part.now }
    ensures text { OnOk result (out.new.items ≡ out.old.items ++ output (told_of part.now)) }
    ensures fits { OnOk result (Each (λ t. FitsLine t.answer) (told_of part.now)) }
{
    let lines = part.lines.slice();
    let answers = part.answers.slice();
    for place in 0..answers.len() {
        put_answer(alloc, out, lines[place].caller, &answers[place])?;
    }
    Ok(())
}
