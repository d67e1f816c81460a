//! Laws of runs. A law is a function without parameters that does nothing: its contract is what is proved.

ghost use Rattle.std.specs.Prelude.{◌≡◌, ◌<◌, Bool, List, Option, ◌++◌, map, None, Some};
ghost use Rattle.ucon_base.specs.Elements.{Each};
ghost use Rattle.ucon_model.specs.declared.command.Caller.{Caller};
ghost use Rattle.ucon_model.specs.declared.command.Entry.{Entry};
ghost use Rattle.ucon_model.specs.History.{History};
ghost use Rattle.ucon_model.specs.LegalRun.{Answered, IsLegalRun, IsSerialRun, history_made, in_text_order};
ghost use Rattle.ucon_model.specs.Output.{FitsLine, answers_read, output};
ghost use Rattle.ucon_model.specs.Plain.{PlainPolicy};
ghost use Rattle.ucon_model.specs.StoredRun.{LeadsTo, failed_line};

use crate::texts_lack_bytes;

/// A serial run after a history is a legal run after it, in the order of its text.
pub fn serial_runs_are_legal()
    ensures { (P : PlainPolicy) (G : History) (told : List Answered) → IsSerialRun P G told → IsLegalRun P in_text_order G told }
{}

/// A run in text order over a store is a legal run. The history that is made is the one that it leads to, and the line that met a disk fault
/// is the one with which it broke off.
pub fn runs_over_a_store_are_legal()
    ensures legal { (P : PlainPolicy) (G : History) (told : List Answered) (H : History) (failed : Option Entry) → LeadsTo P G told H failed
        → IsLegalRun P in_text_order G told }
    ensures made { (P : PlainPolicy) (G : History) (told : List Answered) (H : History) (failed : Option Entry) → LeadsTo P G told H failed
        → history_made G told ≡ H }
    ensures failed { (P : PlainPolicy) (G : History) (told : List Answered) (H : History) (failed : Option Entry) → LeadsTo P G told H failed
        → failed_line told ≡ failed }
{}

/// A legal run in which no line met a disk fault, and a legal run behind the history that it made, are one legal run, whoever saw whose
/// answers. It makes the history that the second one makes, and a disk fault in it is the second one's. So to stop and to go on is as if it
/// had never stopped.
pub fn legal_runs_go_on()
    ensures legal { (P : PlainPolicy) (sees : Caller → Caller → Bool) (G : History) (told more : List Answered) → failed_line told ≡ None
        → IsLegalRun P sees G told → IsLegalRun P sees (history_made G told) more → IsLegalRun P sees G (told ++ more) }
    ensures made { (P : PlainPolicy) (sees : Caller → Caller → Bool) (G : History) (told more : List Answered) → failed_line told ≡ None
        → IsLegalRun P sees G told → IsLegalRun P sees (history_made G told) more
        → history_made G (told ++ more) ≡ history_made (history_made G told) more }
    ensures failed { (told more : List Answered) → failed_line told ≡ None → failed_line (told ++ more) ≡ failed_line more }
{}

/// An output whose answers fit their lines is read back as the answers that it was written from.
pub fn outputs_are_read_back()
    ensures { (told : List Answered) → Each (λ t. FitsLine t.answer) told → Each (λ t. t.line.caller.0 < 256) told
        → answers_read (map (λ t. t.line) told) (output told) ≡ Some told }
{
    texts_lack_bytes();
}
