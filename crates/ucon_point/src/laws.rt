//! Laws of the text of checkpoints. A law is a function without parameters that does nothing: its contract is what is proved.

ghost use Rattle.std.specs.Prelude.{◌≡◌, ◌<◌, ◌^◌, ℕ, Ok, Some, true};
ghost use Rattle.ucon_model.specs.History.{AreCommands, History, trace};
ghost use Rattle.ucon_model.specs.Plain.{Bytes, PlainPolicy};
ghost use Rattle.ucon_model.specs.Readings.{in_force, tick_of};
ghost use Rattle.ucon_model.specs.Typing.{IsTyped};
ghost use Rattle.ucon_point.specs.HeldRows.{point_held, rows_held};
ghost use Rattle.ucon_base.specs.Elements.{Each};
ghost use Rattle.ucon_base.specs.declared.value.Value.TheVariants.{Int};
ghost use Rattle.ucon_syntax.specs.Policies.{accepted};
ghost use Rattle.ucon_point.specs.Orderly.{IsOrderly};
ghost use Rattle.ucon_point.specs.RowText.{IsRow, IsSpelled};
ghost use Rattle.ucon_point.specs.PointText.{point_text};
ghost use Rattle.ucon_point.specs.Standing.{Standing, put_all, start};
ghost use Rattle.ucon_state.specs.Following.{IsFollowing};
ghost use Rattle.ucon_state.specs.Held.{Held, held_after, held_in};
ghost use Rattle.ucon_state.specs.Shown.{Shown};
ghost use Rattle.ucon_point.specs.PointRead.{IsPoint, Said, is_whole, point_read, point_spelling};

use crate::row_laws::{numbers_are_read_back, rows_are_read_back};
use ucon_model::{texts_lack_bytes, usages_are_few};
use ucon_state::{
    each_action_is_followed, states_hold_what_they_follow, tables_keep_the_trace,
    tables_keep_what_is_followed, traces_of_histories_are_legal, what_is_put_is_followed,
};

/// The text of each checkpoint is read as the checkpoint, and bytes that are read are the text of the checkpoint read. So a text is that of
/// one checkpoint, and bytes that aren't read are the text of none.
pub fn points_are_read_back()
    ensures written { (p : Said) → IsPoint p → point_read (point_spelling p) ≡ Ok p }
    ensures read { (bytes : Bytes) (p : Said) → point_read bytes ≡ Ok p → IsPoint p × (point_spelling p ≡ bytes) }
{
    rows_are_read_back();
    numbers_are_read_back();
    texts_lack_bytes();
}

/// The text of what is there is the text of its rows. So if these are the rows of a checkpoint, it is read back as them.
pub fn texts_are_of_rows()
    ensures text { (entries : ℕ) (text : Bytes) (h : Held) → point_text entries text h ≡ point_spelling (point_held entries text h) }
    ensures read { (entries : ℕ) (text : Bytes) (h : Held) → IsPoint (point_held entries text h)
        → point_read (point_text entries text h) ≡ Ok (point_held entries text h) }
{
    points_are_read_back();
}

/// What the rows of a checkpoint make is what they say: their tables, listed, are these rows, and what they list is in order; and a state with
/// these tables follows some trace.
pub fn rows_make_what_they_say()
    ensures held { (p : Said) (end : Standing) → IsPoint p → put_all p.policy (start p.policy p.tick) p.rows ≡ Some end
        → point_held p.entries p.text (held_in p.policy end.tables) ≡ p }
    ensures followed { (p : Said) (end : Standing) → IsPoint p → put_all p.policy (start p.policy p.tick) p.rows ≡ Some end
        → (s : Shown) → s.policy ≡ p.policy → s.tables ≡ end.tables → IsFollowing s }
    ensures order { (p : Said) (end : Standing) → IsPoint p → put_all p.policy (start p.policy p.tick) p.rows ≡ Some end
        → IsOrderly (held_in p.policy end.tables) }
{
    each_action_is_followed();
    tables_keep_what_is_followed();
    states_hold_what_they_follow();
    what_is_put_is_followed();
}

/// What is there in order can be put, row after row, if names, values and numbers have their texts. Its rows are those of a checkpoint, whose text
/// is so read back.
pub fn what_is_in_order_can_be_put()
    ensures { (entries : ℕ) (text : Bytes) (h : Held) → entries < 2 ^ 64 → accepted text ≡ Some h.policy → IsSpelled (Int h.tick)
        → is_whole h.tick ≡ true → Each IsRow (rows_held h) → IsOrderly h → IsPoint (point_held entries text h) }
{}

/// What is there after a history of commands under a well typed policy is in order. So, if names, values and numbers have their texts, its
/// rows are those of a checkpoint, whose text is read back.
pub fn histories_are_in_order()
    ensures order { (P : PlainPolicy) (H : History) → IsTyped P → AreCommands H → IsOrderly (held_after P (trace P H)) }
    ensures point { (entries : ℕ) (text : Bytes) (P : PlainPolicy) (H : History) → IsTyped P → AreCommands H → entries < 2 ^ 64
        → accepted text ≡ Some (in_force P (trace P H)) → IsSpelled (Int (tick_of (trace P H))) → Each IsRow (rows_held (held_after P (trace P H)))
        → IsPoint (point_held entries text (held_after P (trace P H))) }
{
    what_is_in_order_can_be_put();
    each_action_is_followed();
    tables_keep_the_trace();
    traces_of_histories_are_legal();
    usages_are_few();
    tables_keep_what_is_followed();
    states_hold_what_they_follow();
    what_is_put_is_followed();
}
