//! The text of replies, both ways, and the words that lines are made of.
//!
//! The output and the journal both write a reply as its one text, so it can be read back from either.
//!
//! **Always.** Bytes are read as a reply exactly if they are its one text.
//!
//! **Free.** How words are cut and told apart.
//!
//! **Before a change.** Commands are cut into words here, too, so a word has one meaning. A reply's text has no newline, and its length has a
//! bound that lines and records count on. Begin at `replies.rt`, then `line_words.rt`.
#![tactic(auto)]

mod kinds;
mod laws;
mod line_words;
mod placing;
mod reading;
mod replies;
mod reply_fault;
mod spelling;

pub use kinds::{digits_in, is_name, name_in, number_in, side_in, value_in};
pub use laws::{replies_are_read_back, values_fit_lines, words_are_read_back};
pub use line_words::{Word, last_word, name_then, next_word, word_between, word_count, words};
pub use placing::{SetPlaces, ThreeWords, env_places, only_word, set_places, three_words};
pub use reading::read_reply;
pub use replies::{put_reply, put_spelling, reply_text};
pub use reply_fault::ReplyFault;
pub use spelling::{put_name, put_session, put_value};
