//! Laws of the readings. A law is a function without parameters that does nothing: its contract is what is proved.

ghost use Rattle.std.specs.Prelude.{◌≡◌, ◌<◌, length, Some};
ghost use Rattle.ucon_command.specs.Requests.{IsAskedBy};
ghost use Rattle.ucon_converse.specs.declared.reading.Reading.{Reading};
ghost use Rattle.ucon_converse.specs.ReadingLines.{reading_read};
ghost use Rattle.ucon_converse.specs.Readings.{IsInForm, IsReadingOf, reading_spelling};
ghost use Rattle.ucon_model.specs.declared.command.Caller.{Caller};
ghost use Rattle.ucon_model.specs.Plain.{Bytes};

use ucon_model::texts_lack_bytes;
use ucon_reply::words_are_read_back;

/// Each reading's text is read as the reading, and a line that is read as one is its text.
pub fn readings_are_read_back()
    ensures written { (reading : Reading) → IsInForm reading → reading_read (reading_spelling reading) ≡ Some reading }
    ensures read { (line : Bytes) (reading : Reading) → reading_read line ≡ Some reading → IsReadingOf line reading }
{
    words_are_read_back();
    texts_lack_bytes();
}

/// A reading is no client's line, so it asks for no step.
pub fn readings_are_no_requests()
    ensures { (line : Bytes) (reading : Reading) (caller : Caller) (text : Bytes) → IsReadingOf line reading → IsAskedBy line caller text → ⊥ }
{}
