//! Documents: the policy part, and the command lines of the script behind it.
//!
//! Each form that reads a document reads it here. A `Script` has its lines lent from the document's bytes, 32 bytes a line, each judged once. A
//! `Document` has commands of its own. A `ComingDocument` is read from a source while it is still being written: its policy part first, and then
//! line by line. `draws.rt` makes the documents of `gen`.
//!
//! **Always.** A `LineText` holds bytes that spell a command.
//!
//! **Free.** How lines are found. The order of refusals is defined.
//!
//! **Before a change.** A line is judged by the nearest heading above it, so the definition has no state. Kept as a command, each line would take
//! the room of the longest. What lines say as they come is what the document says, whatever comes behind them: `laws.rt`. Begin at `read.rt`.
#![tactic(auto)]

mod coming_document;
mod coming_lines;
mod coming_script;
mod doc_fault;
mod document;
mod draws;
mod heading;
mod laws;
mod line_text;
mod number;
mod part;
mod read;
mod script_reader;
mod script_stop;

pub use coming_document::{ComingDocument, read_coming};
pub use coming_lines::ComingLines;
pub use coming_script::ComingScript;
pub use doc_fault::DocFault;
pub use document::{Document, Line};
pub use draws::generate;
pub use laws::{
    coming_documents_are_read_line_by_line, documents_are_read_line_by_line,
    generated_documents_are_read, scripts_are_judged_on,
};
pub use line_text::{LineText, Script};
pub use number::number_spelled;
pub use part::policy_part;
pub use read::{read_document, read_script};
pub use script_reader::ScriptReader;
pub use script_stop::ScriptStop;
