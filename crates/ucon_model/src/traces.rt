//! Laws of traces, of what they give to read, and of the turns of a settling. A law is a function without parameters that does nothing: its
//! contract is what is proved.

ghost use Rattle.std.specs.Prelude.{◌≡◌, ◌+◌, ◌≤◌, ℕ, [], ◌∷◌, ◌++◌, List, None, Some};
ghost use Rattle.ucon_model.specs.declared.policy.When.{When};
ghost use Rattle.ucon_model.specs.declared.session.SessionRow.{SessionRow};
ghost use Rattle.ucon_model.specs.Action.{Action, Trace, extended};
ghost use Rattle.ucon_model.specs.History.{Agree};
ghost use Rattle.ucon_model.specs.Plain.{Bytes, PlainPolicy, PlainUpdate};
ghost use Rattle.ucon_model.specs.Readings.{accessing, session};
ghost use Rattle.ucon_model.specs.Settle.{least_failing, revocation, revoked_in, settle_within, settled_to};
ghost use Rattle.ucon_model.specs.Truth.{Readings};
ghost use Rattle.ucon_model.specs.Updates.{session_writes, writes};

/// Actions are done in their order: first these, and then those behind them.
pub fn actions_are_done_in_order()
    ensures { (T : Trace) (first later : List Action) → extended T (first ++ later) ≡ extended (extended T first) later }
{}

/// Readings that agree point by point are one.
pub fn readings_that_agree_are_one()
    ensures { (R S : Readings) → Agree R S → R ≡ S }
{}

/// The writes of updates leave each session, and so how many are accessing.
pub fn writes_leave_sessions()
    ensures sessions { (P : PlainPolicy) (row : SessionRow) (when : When) (us : List PlainUpdate) (n : ℕ) (T : Trace)
        → session (extended T (writes P row when us T)) n ≡ session T n }
    ensures accessing { (P : PlainPolicy) (m : ℕ) (when : When) (T : Trace)
        → accessing (extended T (session_writes P m when T)) ≡ accessing T }
{}

/// So many turns of a settling, and one more: it revokes the least session that fails then. If none fails, no further turn does
/// anything.
pub fn turns_follow_each_other()
    ensures more { (k : ℕ) (P : PlainPolicy) (T : Trace) (f : ℕ × Bytes) → least_failing P (settled_to k P T) ≡ Some f
        → settle_within (k + 1) P T ≡ settle_within k P T ++ revocation P (settled_to k P T) f }
    ensures trace { (k : ℕ) (P : PlainPolicy) (T : Trace) (f : ℕ × Bytes) → least_failing P (settled_to k P T) ≡ Some f
        → settled_to (k + 1) P T ≡ extended (settled_to k P T) (revocation P (settled_to k P T) f) }
    ensures revokes { (k : ℕ) (P : PlainPolicy) (T : Trace) (f : ℕ × Bytes) → least_failing P (settled_to k P T) ≡ Some f
        → revoked_in (settle_within (k + 1) P T) ≡ revoked_in (settle_within k P T) ++ record { session = f.0; label = f.1 } ∷ [] }
    ensures done { (i k : ℕ) (P : PlainPolicy) (T : Trace) → i ≤ k → least_failing P (settled_to i P T) ≡ None
        → settle_within k P T ≡ settle_within i P T }
{}
