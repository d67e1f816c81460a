//! Command lines, the payloads of steps, and requests: the one text of each, both ways.
//!
//! A script's lines, a journal's records and a conversation's lines are read here. A `CommandLine` keeps only where the words of its line stand
//! (`cuts.rt`), with the fact that they give the command. A journal's payloads are done both ways by `payload.rt`; a line of a conversation is read
//! by `request.rt`.
//!
//! **Always.** Bytes are read as a command or a payload exactly if they are its one text.
//!
//! **Free.** How words are cut and told apart. The order of refusals is defined.
//!
//! **Before a change.** A command has one spelling, so that no two lines say one command. A journal is read against these spellings byte by byte,
//! so old journals need each of them. Begin at `command_line.rt`.
#![tactic(auto)]

mod amendment;
mod command_line;
mod commands;
mod cuts;
mod cutting;
mod forms;
mod judging;
mod kinds;
mod laws;
mod line_fault;
mod lines;
mod payload;
mod payload_fault;
mod request;

pub use amendment::read_accepted;
pub use command_line::CommandLine;
pub use commands::{command_text, put_command};
pub use cuts::Cuts;
pub use laws::{
    commands_are_read_back, histories_are_found, payloads_are_read_back,
    proper_histories_are_found, steps_are_taken_as_spelled,
};
pub use line_fault::LineFault;
pub use lines::read_command;
pub use payload::{put_payload, read_entry, read_payload, tells_reply};
pub use payload_fault::PayloadFault;
pub use request::{Request, RequestFault, read_request};
