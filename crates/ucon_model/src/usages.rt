//! Laws of usages: which actions begin one, which end it, and whom own actions concern. A law is a function without parameters that does nothing:
//! its contract is what is proved.

ghost use Rattle.std.specs.Prelude.{◌≡◌, ◌≢◌, ℕ, List, None};
ghost use Rattle.ucon_model.specs.declared.command.Caller.{Caller};
ghost use Rattle.ucon_model.specs.declared.command.Command.{Command};
ghost use Rattle.ucon_model.specs.declared.policy.When.TheVariants.{AfterRevoke};
ghost use Rattle.ucon_model.specs.declared.reply.Head.{Head};
ghost use Rattle.ucon_model.specs.Action.{Action, Trace, extended};
ghost use Rattle.ucon_model.specs.OwnActions.{make, own};
ghost use Rattle.ucon_model.specs.Plain.{Bytes, PlainPolicy};
ghost use Rattle.ucon_model.specs.Readings.{session};
ghost use Rattle.ucon_model.specs.Afterwards.{work_afterwards};
ghost use Rattle.ucon_model.specs.Reach.{readers, session_targets};
ghost use Rattle.ucon_model.specs.Settle.{revocation};
ghost use Rattle.ucon_model.specs.Sound.{IsGrounded, IsNumbered, IsTimely};
ghost use Rattle.ucon_model.specs.Usages.{IsUsageTold, going_on};
ghost use Rattle.ucon_model.specs.Work.{Covers, NobodyFails, Work, joined, only};

/// The head of a command's reply tells whose usage its own actions begin or end. A revocation ends that of its session, and leaves every
/// other session.
pub fn heads_tell_whose_usage_begins_or_ends()
    ensures own { (P : PlainPolicy) (T : Trace) (caller : Caller) (c : Command) (head : Head) (actions : List Action) (n : ℕ) → IsNumbered T
        → own P T caller c ≡ make head actions → IsUsageTold head n (session T n) (session (extended T actions) n) }
    ensures revoked { (P : PlainPolicy) (T : Trace) (f : ℕ × Bytes) → going_on (session (extended T (revocation P T f)) f.0) ≡ None }
    ensures others { (P : PlainPolicy) (T : Trace) (f : ℕ × Bytes) (n : ℕ) → n ≢ f.0
        → session (extended T (revocation P T f)) n ≡ session T n }
{}

/// Work that covers can be read off the trace after actions. After a command's own actions, if nobody failed before them, it is who is permitted
/// and who reads where they wrote. It is also those over whom the tick decides if it moved, and everybody if the policy was replaced. After a
/// revocation it is the rest of the work before it, and who reads where its updates wrote.
pub fn work_is_read_off_afterwards()
    ensures own { (P : PlainPolicy) (T : Trace) (caller : Caller) (c : Command) (head : Head) (actions : List Action) → IsNumbered T
        → ((n : ℕ) → IsGrounded T (session T n)) → IsTimely T → NobodyFails P T → own P T caller c ≡ make head actions
        → Covers P (extended T actions) (work_afterwards P (extended T actions) c head) }
    ensures revocation { (P : PlainPolicy) (T : Trace) (work : Work) (f : ℕ × Bytes) → Covers P T (joined (only f.0) work)
        → Covers P (extended T (revocation P T f))
        (joined work (readers P (extended T (revocation P T f)) (session_targets P (extended T (revocation P T f)) f.0 AfterRevoke))) }
{}
