//! Checkpoints as text, written and read: their rows, both ways, and which may come after which.
//!
//! An opening takes up the last checkpoint in place of the entries before it. What is there has one text, and bytes are read exactly if they are
//! such a text. So is each row's line. Reading gives a state that an engine can take up.
//!
//! **Always.** While rows are read, the state has the tables that the rows so far make (`ArePut`). Only the row that the order awaits may come
//! next (`specs/Order.antt`).
//!
//! **Free.** How a text is walked through. The place of the first bad line is defined.
//!
//! **Before a change.** What an engine can take up is said in `ucon_state`, so this crate needs no engine. Lines of rows stand in stored
//! journals, so a change of one needs another version of the format. Begin at `specs/PointText.antt`, then `writing.rt`, `reading.rt`, `row.rt`
//! and `order.rt`.
#![tactic(auto)]

mod fault;
mod header;
mod laws;
mod lines;
mod order;
mod point;
mod putting;
mod reading;
mod row;
mod row_laws;
mod rows;
mod words;
mod writing;

pub use fault::PointFault;
pub use laws::{
    histories_are_in_order, points_are_read_back, rows_make_what_they_say, texts_are_of_rows,
    what_is_in_order_can_be_put,
};
pub use order::{Reached, Stage};
pub use point::Point;
pub use reading::read_point;
pub use row::Row;
pub use row_laws::{numbers_are_read_back, rows_are_read_back};
pub use words::cut_at;
pub use writing::point_text;
