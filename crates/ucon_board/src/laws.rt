//! Laws of what replies tell, and of boards that show it. A law is a function without parameters that does nothing: its contract is what is
//! proved.

ghost use Rattle.std.specs.Prelude.{◌≡◌, ℕ, Bool, true, false, ◌++◌, ◌∷◌, [], not};
ghost use Rattle.std.specs.Option.{option_or};
ghost use Rattle.ucon_model.specs.declared.command.Caller.{Caller};
ghost use Rattle.ucon_model.specs.declared.command.Command.{Command};
ghost use Rattle.ucon_model.specs.declared.command.Command.TheVariants.{Look};
ghost use Rattle.ucon_model.specs.declared.command.Entry.{Entry};
ghost use Rattle.ucon_model.specs.Action.{Trace};
ghost use Rattle.ucon_model.specs.Block.{after, reply};
ghost use Rattle.ucon_model.specs.History.{History, trace_from};
ghost use Rattle.ucon_model.specs.Plain.{PlainPolicy, PlainReply};
ghost use Rattle.ucon_board.specs.Board.{Board, GoesOn, all_namings, last_state, namings};
ghost use Rattle.ucon_board.specs.States.{IsPosted, IsTrueOf, ShowsFirst, look_reply, replies_behind, state_after};

use ucon_model::{actions_are_done_in_order, writes_leave_sessions};

/// The state of a session after a command is what its reply says last of it, and else as before; so it is after entries, by all their
/// replies. A look tells the state.
pub fn replies_tell_states()
    ensures one { (P : PlainPolicy) (T : Trace) (caller : Caller) (c : Command) (n : ℕ)
        → option_or (last_state (namings (reply P T caller c)) n) (state_after T n) ≡ state_after (after P T caller c) n }
    ensures all { (P : PlainPolicy) (T : Trace) (H : History) (n : ℕ)
        → option_or (last_state (all_namings (replies_behind P T H)) n) (state_after T n) ≡ state_after (trace_from P T H) n }
    ensures look { (P : PlainPolicy) (T : Trace) (caller : Caller) (n : ℕ) → reply P T caller (Look n) ≡ look_reply n (state_after T n) }
{
    actions_are_done_in_order();
    writes_leave_sessions();
}

/// Where a board shows the first of some entries, what was ever read off it, or off what it goes on from, is true of them. It still does with one
/// entry more: where its reply isn't published the board is behind from then on, and where it is, a board that showed all entries shows this
/// one too.
pub fn boards_show_entries()
    ensures true_of { (P : PlainPolicy) (T : Trace) (H : History) (b w : Board) (behind : Bool) → ShowsFirst P T H w behind → GoesOn b w
        → IsTrueOf P T H b }
    ensures unpublished { (P : PlainPolicy) (T : Trace) (H : History) (w : Board) (behind : Bool) (e : Entry) → ShowsFirst P T H w behind
        → ShowsFirst P T (H ++ e ∷ []) w true }
    ensures published { (P : PlainPolicy) (T : Trace) (H : History) (w new : Board) (e : Entry) (r : PlainReply) (done : Bool)
        → ShowsFirst P T H w false → r ≡ reply P (trace_from P T H) e.caller e.command → IsPosted done r w new
        → ShowsFirst P T (H ++ e ∷ []) new (not done) }
{
    replies_tell_states();
}
