//! Laws of the cascade by a list of work: who has to be rechecked, that nobody else has, and what it costs. A law is a function without
//! parameters that does nothing: its contract is what is proved.

ghost use Rattle.std.specs.List.{list_any};
ghost use Rattle.std.specs.Prelude.{Bool, ◌≡◌, ◌+◌, ◌≤◌, ◌≤ℤ◌, ℕ, ℤ, [], ◌∷◌, ◌++◌, List, length, true, false, Some, None};
ghost use Rattle.ucon_model.specs.declared.command.Caller.{Caller};
ghost use Rattle.ucon_model.specs.declared.command.Command.{Command};
ghost use Rattle.ucon_model.specs.declared.policy.When.{When};
ghost use Rattle.ucon_model.specs.declared.policy.When.TheVariants.{AfterRevoke};
ghost use Rattle.ucon_model.specs.declared.reply.Head.{Head};
ghost use Rattle.ucon_model.specs.declared.session.SessionRow.{SessionRow};
ghost use Rattle.ucon_model.specs.Action.{Action, Trace, act, extended, tick};
ghost use Rattle.ucon_model.specs.Block.{block, reply};
ghost use Rattle.ucon_model.specs.Deadlines.{is_due, limit_of, passes};
ghost use Rattle.ucon_model.specs.Decision.{failing, failing_of};
ghost use Rattle.ucon_model.specs.Groups.{AreLike, FirstsCover, IsExact, IsLed, IsNextWork, IsUnderway, JudgedAlike};
ghost use Rattle.ucon_model.specs.History.{History, trace};
ghost use Rattle.ucon_model.specs.OwnActions.{make, own};
ghost use Rattle.ucon_model.specs.Plain.{Bytes, PlainPolicy, made};
ghost use Rattle.ucon_model.specs.Reach.{HoldTheSame, Location, ReadAlike, Timed, kept_at, places_of, reads_at, readers, same_location};
ghost use Rattle.ucon_model.specs.Reach.{session_targets, timed_of, timed_truth};
ghost use Rattle.ucon_model.specs.Reach.{alters, moves, names, permits, reached, reaches, replaces};
ghost use Rattle.ucon_model.specs.Readings.{accessing, in_force, is_accessing, session, tick_of};
ghost use Rattle.ucon_model.specs.Settle.{fails_at, least_failing, revocation, revoked_in, settle};
ghost use Rattle.ucon_model.specs.Sound.{IsGrounded, IsNumbered, IsTimely};
ghost use Rattle.ucon_model.specs.Touches.{IsPaid, IsThrifty, sum_to, touches_by};
ghost use Rattle.ucon_model.specs.Truth.{Readings, readings};
ghost use Rattle.ucon_model.specs.Updates.{session_writes};
ghost use Rattle.ucon_model.specs.Work.{Covers, IsBounded, IsEmpty, IsLeastOf, IsWithin, NobodyFails, Work, WorksOff, concerned, joined, own_work};
ghost use Rattle.ucon_model.specs.Work.{without, work_after};

/// A decision during the usage reads the places of its right and its timed parts, and nothing else. Under one policy, sessions that read alike
/// fail alike, and so does one session at two times. If the right has no timed part, the places are enough.
pub fn decisions_read_their_places()
    ensures rows { (Q : PlainPolicy) (R : Readings) (row : SessionRow) (S : Readings) (other : SessionRow) → ReadAlike Q R row S other
        → failing_of Q R row ≡ failing_of Q S other }
    ensures untimed { (Q : PlainPolicy) (R : Readings) (row : SessionRow) (S : Readings) (other : SessionRow) → row.right ≡ other.right
        → HoldTheSame R row S other (places_of Q row) → timed_of Q row ≡ [] → failing_of Q R row ≡ failing_of Q S other }
    ensures numbers { (Q : PlainPolicy) (R : Readings) (n : ℕ) (row : SessionRow) (S : Readings) (m : ℕ) (other : SessionRow)
        → R.row n ≡ Some row → S.row m ≡ Some other → ReadAlike Q R row S other → failing Q R n ≡ failing Q S m }
{}

/// The updates of a session write at their targets alone: what is kept elsewhere, the policy in force and each session stay.
pub fn updates_write_their_targets()
    ensures values { (P : PlainPolicy) (m : ℕ) (when : When) (T : Trace) (location : Location)
        → list_any (same_location location) (session_targets P T m when) ≡ false
        → kept_at P (extended T (session_writes P m when T)) location ≡ kept_at P T location }
    ensures policy { (P : PlainPolicy) (m : ℕ) (when : When) (T : Trace)
        → in_force P (extended T (session_writes P m when T)) ≡ in_force P T }
    ensures sessions { (P : PlainPolicy) (m : ℕ) (when : When) (T : Trace) (n : ℕ)
        → session (extended T (session_writes P m when T)) n ≡ session T n }
{}

/// An action leaves the rest. The policy in force stays if the action doesn't replace it, and a kept value if the action alters nothing there. A
/// timed part stays if the action doesn't move it, and a session if it doesn't name it.
pub fn actions_leave_the_rest()
    ensures policy { (P : PlainPolicy) (T : Trace) (a : Action) → replaces a ≡ false → in_force P (a ∷ T) ≡ in_force P T }
    ensures values { (P : PlainPolicy) (T : Trace) (a : Action) (location : Location) → alters a location ≡ false
        → kept_at P (a ∷ T) location ≡ kept_at P T location }
    ensures timed { (P : PlainPolicy) (T : Trace) (a : Action) (row : SessionRow) (part : Timed) → moves row a part ≡ false
        → timed_truth (readings P (a ∷ T)) row part ≡ timed_truth (readings P T) row part }
    ensures sessions { (T : Trace) (a : Action) (n : ℕ) → names n a ≡ false → session (a ∷ T) n ≡ session T n }
{}

/// A session that none of these actions names or reaches fails after them as before; and one that fails after them, and that they neither
/// permit nor reach, failed before them.
pub fn unreached_sessions_fail_as_before()
    ensures same { (P : PlainPolicy) (T : Trace) (actions : List Action) (n : ℕ) → list_any (names n) actions ≡ false
        → reached P T actions n ≡ false → fails_at P (extended T actions) n ≡ fails_at P T n }
    ensures failed { (P : PlainPolicy) (T : Trace) (actions : List Action) (n : ℕ) (label : Bytes) → list_any (permits n) actions ≡ false
        → reached P T actions n ≡ false → fails_at P (extended T actions) n ≡ Some label → fails_at P T n ≡ Some label }
{}

/// Settling goes turn by turn: the least that fails is revoked, and what is left is settled; if nobody is found it is over.
pub fn settling_goes_turn_by_turn()
    ensures over { (P : PlainPolicy) (T : Trace) → least_failing P T ≡ None → settle P T ≡ [] }
    ensures turn { (P : PlainPolicy) (T : Trace) (f : ℕ × Bytes) → least_failing P T ≡ Some f
        → settle P T ≡ revocation P T f ++ settle P (extended T (revocation P T f)) }
{}

/// If sessions are numbered, nobody fails after settling; and settling revokes no more than were accessing.
pub fn nobody_fails_after_settling()
    ensures nobody { (P : PlainPolicy) (T : Trace) (n : ℕ) → IsNumbered T → fails_at P (extended T (settle P T)) n ≡ None }
    ensures revoked { (P : PlainPolicy) (T : Trace) → length (revoked_in (settle P T)) ≤ accessing T }
{}

/// Work that covers stays so: with more in it; without one that doesn't fail; after actions with those whom they concern; and after a
/// revocation without the one that is revoked, and with those who read what its updates wrote.
pub fn work_goes_on_covering()
    ensures wider { (P : PlainPolicy) (T : Trace) (work more : Work) → Covers P T work → IsWithin T work more → Covers P T more }
    ensures holds { (P : PlainPolicy) (T : Trace) (work : Work) (n : ℕ) → Covers P T work → fails_at P T n ≡ None
        → Covers P T (without n work) }
    ensures actions { (P : PlainPolicy) (T : Trace) (work : Work) (actions : List Action) → Covers P T work
        → Covers P (extended T actions) (joined work (concerned P T actions)) }
    ensures fails { (P : PlainPolicy) (T : Trace) (work : Work) (f : ℕ × Bytes) → Covers P T work
        → Covers P (extended T (revocation P T f)) (work_after P T work f.0) }
{}

/// If nobody fails, those whom actions concern are all the work after them.
pub fn work_begins_with_the_concerned()
    ensures { (P : PlainPolicy) (T : Trace) (actions : List Action) → NobodyFails P T
        → Covers P (extended T actions) (concerned P T actions) }
{}

/// Of work that covers, the least member, if it fails, is the least session that fails; and if there is no work, none fails.
pub fn covering_work_has_the_least()
    ensures least { (P : PlainPolicy) (T : Trace) (work : Work) (f : ℕ × Bytes) → IsNumbered T → Covers P T work → IsLeastOf work f.0
        → fails_at P T f.0 ≡ Some f.1 → least_failing P T ≡ Some f }
    ensures empty { (P : PlainPolicy) (T : Trace) (work : Work) → Covers P T work → IsEmpty work → least_failing P T ≡ None }
{}

/// Working off work that covers is settling; and it ends, if the work is bounded.
pub fn working_off_is_settling()
    ensures settles { (P : PlainPolicy) (T : Trace) (work : Work) (actions : List Action) → WorksOff P T work actions → IsNumbered T
        → Covers P T work → actions ≡ settle P T }
    ensures ends { (P : PlainPolicy) (T : Trace) (work : Work) (bound : ℕ) → IsNumbered T → Covers P T work → IsBounded work bound
        → WorksOff P T work (settle P T) }
{}

/// The writes of a session's updates reach, under any policy, who reads where they write; and whom a revocation concerns are those alone.
pub fn writes_reach_their_readers()
    ensures writes { (P Q : PlainPolicy) (row : SessionRow) (m : ℕ) (when : When) (T : Trace)
        → list_any (reaches Q row) (session_writes P m when T) ≡ list_any (reads_at Q row) (session_targets P T m when) }
    ensures revocation { (P : PlainPolicy) (T : Trace) (f : ℕ × Bytes) (n : ℕ)
        → concerned P T (revocation P T f) n ≡ readers P T (session_targets P T f.0 AfterRevoke) n }
{}

/// If nobody fails, the work after a command's own actions is read off the command and the reply's head.
pub fn own_work_is_read_off()
    ensures { (P : PlainPolicy) (T : Trace) (caller : Caller) (c : Command) (head : Head) (actions : List Action)
        → ((n : ℕ) → IsGrounded T (session T n)) → IsTimely T → NobodyFails P T → own P T caller c ≡ make head actions
        → Covers P (extended T actions) (own_work P T caller c head) }
{}

/// After every history no act was done after the tick; and if that is so, an act makes no session fail.
pub fn acts_make_nobody_fail()
    ensures timely { (P : PlainPolicy) (H : History) → IsTimely (trace P H) }
    ensures none { (P : PlainPolicy) (T : Trace) (s a o : Bytes) (n : ℕ) → IsTimely T → fails_at P T n ≡ None
        → fails_at P (act s a o ∷ T) n ≡ None }
{}

/// A tick changes a timed part only if it passes its limit, and so whether a session fails only if it passes one of its limits.
pub fn ticks_change_at_limits()
    ensures parts { (P : PlainPolicy) (T : Trace) (t : ℤ) (row : SessionRow) (part : Timed) → tick_of T ≤ℤ t
        → passes (tick_of T) t (limit_of (readings P T) row part) ≡ false
        → timed_truth (readings P (tick t ∷ T)) row part ≡ timed_truth (readings P T) row part }
    ensures sessions { (P : PlainPolicy) (T : Trace) (t : ℤ) (n : ℕ) → tick_of T ≤ℤ t → is_due P T t n ≡ false
        → fails_at P (tick t ∷ T) n ≡ fails_at P T n }
{}

/// Sessions under one right without timed parts, and with one entity on each side of which it reads, fail alike after every trace under
/// the policy, and read the same.
pub fn one_judgement_serves_all_alike()
    ensures fails { (P : PlainPolicy) (T : Trace) (m n : ℕ) → AreLike P T m n
        → failing (in_force P T) (readings P T) m ≡ failing (in_force P T) (readings P T) n }
    ensures reads { (Q : PlainPolicy) (row other : SessionRow) (location : Location) → JudgedAlike Q row other
        → reads_at Q row location ≡ reads_at Q other location }
{}

/// If the index is exact, an accessing session reads at one of these locations exactly if the leader of its list stands at one.
pub fn the_index_names_the_readers()
    ensures { (P : PlainPolicy) (T : Trace) (leader : ℕ → ℕ) (stands : ℕ → Location → Bool) (locations : List Location) (n : ℕ)
        → IsExact P T leader stands → is_accessing (session T n) ≡ true
        → readers P T locations n ≡ list_any (stands (leader n)) locations }
{}

/// The firsts of lists of sessions that are judged alike go on covering, as all sessions do.
pub fn firsts_go_on_covering()
    ensures begins { (P : PlainPolicy) (T : Trace) (first : ℕ → ℕ) (work next : Work) → Covers P T work → IsLed P T first
        → ((n : ℕ) → is_accessing (session T n) ≡ true → work (first n) ≡ true → next (first n) ≡ true) → FirstsCover P T first next }
    ensures holds { (P : PlainPolicy) (T : Trace) (first : ℕ → ℕ) (work : Work) (n : ℕ) → IsLed P T first → FirstsCover P T first work
        → fails_at P T n ≡ None → FirstsCover P T first (without n work) }
    ensures fails { (P : PlainPolicy) (T : Trace) (f : ℕ × Bytes) (first : ℕ → ℕ) (work : Work) (new_first : ℕ → ℕ) (next : Work)
        → FirstsCover P T first work → IsNextWork P T f first work new_first next
        → FirstsCover P (extended T (revocation P T f)) new_first next }
{}

/// If the firsts of lists cover, the least of the work, if it fails, is the least session that fails; and if there is no work,
/// none fails.
pub fn firsts_have_the_least()
    ensures least { (P : PlainPolicy) (T : Trace) (first : ℕ → ℕ) (work : Work) (f : ℕ × Bytes) → IsNumbered T → IsLed P T first
        → FirstsCover P T first work → IsLeastOf work f.0 → fails_at P T f.0 ≡ Some f.1 → least_failing P T ≡ Some f }
    ensures empty { (P : PlainPolicy) (T : Trace) (first : ℕ → ℕ) (work : Work) → IsLed P T first → FirstsCover P T first work
        → IsEmpty work → least_failing P T ≡ None }
{}

/// The loop over the firsts comes to the settling. It begins with work that covers. A first that holds is left out, and one that fails is revoked.
/// If there is no work left, what was made is the settling.
pub fn working_off_firsts_is_settling()
    ensures begins { (P : PlainPolicy) (T : Trace) (first : ℕ → ℕ) (work : Work) → IsNumbered T → IsLed P T first
        → FirstsCover P T first work → IsUnderway P T [] T first work }
    ensures holds { (P : PlainPolicy) (T : Trace) (cascade : List Action) (U : Trace) (first : ℕ → ℕ) (work : Work) (n : ℕ)
        → IsUnderway P T cascade U first work → fails_at P U n ≡ None → IsUnderway P T cascade U first (without n work) }
    ensures fails { (P : PlainPolicy) (T : Trace) (cascade : List Action) (U : Trace) (first : ℕ → ℕ) (work : Work) (f : ℕ × Bytes)
        (new_first : ℕ → ℕ) (next : Work) → IsUnderway P T cascade U first work → IsLeastOf work f.0 → fails_at P U f.0 ≡ Some f.1
        → IsNextWork P U f first work new_first next
        → IsUnderway P T (cascade ++ revocation P U f) (extended U (revocation P U f)) new_first next }
    ensures revokes { (P : PlainPolicy) (cascade : List Action) (U : Trace) (f : ℕ × Bytes)
        → revoked_in (cascade ++ revocation P U f) ≡ revoked_in cascade ++ record { session = f.0; label = f.1 } ∷ [] }
    ensures ends { (P : PlainPolicy) (T : Trace) (cascade : List Action) (U : Trace) (first : ℕ → ℕ) (work : Work)
        → IsUnderway P T cascade U first work → IsEmpty work → settle P T ≡ cascade }
{}

/// What a cascade costs: each judgement is paid for by a touch, and so are those that the own actions of a command make necessary.
pub fn judgements_are_paid_for()
    ensures own { (P : PlainPolicy) (T : Trace) (caller : Caller) (c : Command) (head : Head) (actions : List Action) (n : ℕ)
        → own P T caller c ≡ make head actions → is_accessing (session (extended T actions) n) ≡ true
        → own_work P T caller c head n ≡ true → 1 ≤ touches_by P T actions n }
    ensures begins { (P : PlainPolicy) (T : Trace) (actions : List Action) (first : ℕ → ℕ) (work : Work) (k : ℕ)
        → ((n : ℕ) → is_accessing (session (extended T actions) n) ≡ true → work (first n) ≡ true → 1 ≤ touches_by P T actions n)
        → IsPaid P T actions first work 0 k }
    ensures holds { (P : PlainPolicy) (T : Trace) (actions : List Action) (first : ℕ → ℕ) (work : Work) (steps k n : ℕ)
        → IsPaid P T actions first work steps k → 1 ≤ n → n ≤ k → is_accessing (session (extended T actions) n) ≡ true → first n ≡ n
        → work n ≡ true → IsPaid P T actions first (without n work) (steps + 1) k }
    ensures fails { (P : PlainPolicy) (T : Trace) (actions : List Action) (first : ℕ → ℕ) (work : Work) (steps k : ℕ) (f : ℕ × Bytes)
        (new_first : ℕ → ℕ) (next : Work) → IsPaid P T actions first work steps k → 1 ≤ f.0 → f.0 ≤ k
        → is_accessing (session (extended T actions) f.0) ≡ true → first f.0 ≡ f.0 → work f.0 ≡ true
        → IsThrifty P (extended T actions) f first work new_first next
        → IsPaid P T (actions ++ revocation P (extended T actions) f) new_first next (steps + 1) k }
{}

/// A command's own actions and the cascade after them are its block, with the reply that names who was revoked; and where the judgements
/// are paid for, they are no more than the touches of the block.
pub fn drafts_are_blocks()
    ensures block { (P : PlainPolicy) (T : Trace) (caller : Caller) (c : Command) (head : Head) (actions cascade : List Action)
        → own P T caller c ≡ make head actions → settle P (extended T actions) ≡ cascade → block P T caller c ≡ actions ++ cascade }
    ensures reply { (P : PlainPolicy) (T : Trace) (caller : Caller) (c : Command) (head : Head) (actions cascade : List Action)
        → own P T caller c ≡ make head actions → settle P (extended T actions) ≡ cascade
        → reply P T caller c ≡ made head (revoked_in cascade) }
    ensures cost { (P : PlainPolicy) (T : Trace) (caller : Caller) (c : Command) (head : Head) (actions cascade : List Action)
        (first : ℕ → ℕ) (work : Work) (steps k : ℕ) → own P T caller c ≡ make head actions → settle P (extended T actions) ≡ cascade
        → IsPaid P T (actions ++ cascade) first work steps k → steps ≤ sum_to (touches_by P T (block P T caller c)) k }
{}
