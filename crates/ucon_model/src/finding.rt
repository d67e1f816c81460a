//! Laws of what is found in a journal's payloads. A law is a function without parameters that does nothing: its contract is what is proved.

ghost use Rattle.std.specs.Prelude.{◌≡◌, ◌++◌, [], ◌∷◌, ℕ, Some, List, Option, length};
ghost use Rattle.ucon_model.specs.declared.command.Entry.{Entry};
ghost use Rattle.ucon_model.specs.Found.{Takes, found_in, found_on, gate_behind, holds, only_steps, payloads_behind, TakesSteps};
ghost use Rattle.ucon_model.specs.History.{History, changes, grown, said, serial};
ghost use Rattle.ucon_model.specs.Payload.{payload_spelling, told};
ghost use Rattle.ucon_model.specs.Plain.{Bytes, PlainPolicy, PlainReply};
ghost use Rattle.ucon_model.specs.ReplyText.{tells_change};
ghost use Rattle.ucon_model.specs.Spelling.{reply_spelling};
ghost use Rattle.ucon_model.specs.Batches.{AreTaken, changing, grown_all};

/// What is found in payloads is what is found in the first of them, and then in the others.
pub fn payloads_are_found_one_by_one()
    ensures { (reads : Bytes → Option PlainPolicy) (takes : Takes) (front rest : List Bytes)
        → found_in reads takes (front ++ rest) ≡ found_on reads takes (found_in reads takes front) (length front) rest }
{}

/// A reply's text tells whether the reply changes something.
pub fn texts_tell_changes()
    ensures { (r : PlainReply) → tells_change (reply_spelling r) ≡ changes r }
{}

/// Payloads that are taken one after the other are found together behind those before them. One more that is taken behind them is taken with
/// them. Payloads that tell steps are taken wherever steps are.
pub fn payloads_are_found_together()
    ensures found { (reads : Bytes → Option PlainPolicy) (takes : Takes) (front rest : List Bytes) (text : Bytes) (P : PlainPolicy)
        (H later : History) (gate : ℕ) → found_in reads takes front ≡ holds text P H gate → AreTaken takes text P H rest later
        → found_in reads takes (front ++ rest) ≡ holds text P later (gate_behind gate rest) }
    ensures more { (takes : Takes) (text : Bytes) (P : PlainPolicy) (H mid later : History) (payloads : List Bytes) (payload : Bytes)
        → AreTaken takes text P H payloads mid → takes text P mid payload ≡ Some later → AreTaken takes text P H (payloads ++ payload ∷ []) later }
    ensures steps { (reads : Bytes → Option PlainPolicy) (takes : Takes) (text : Bytes) (P : PlainPolicy) (H later : History) (payloads : List Bytes)
        → TakesSteps reads takes → AreTaken (only_steps reads) text P H payloads later → AreTaken takes text P H payloads later }
{}

/// A serial run goes on line by line, and its history is the one before with the lines whose replies change something; their payloads go on entry
/// by entry.
pub fn runs_are_serial_line_by_line()
    ensures replies { (P : PlainPolicy) (H : History) (lines : List Entry) (e : Entry) → serial P H (lines ++ e ∷ [])
        ≡ serial P H lines ++ (length (grown P (grown_all P H lines) e), said P (grown_all P H lines) e.caller e.command) ∷ [] }
    ensures history { (P : PlainPolicy) (H : History) (lines : List Entry) (e : Entry)
        → grown_all P H (lines ++ e ∷ []) ≡ grown P (grown_all P H lines) e }
    ensures changing { (P : PlainPolicy) (H : History) (lines : List Entry) → grown_all P H lines ≡ H ++ changing P H lines }
    ensures payloads { (P : PlainPolicy) (H entries : History) (e : Entry) → payloads_behind P H (entries ++ e ∷ [])
        ≡ payloads_behind P H entries ++ payload_spelling (told e (said P (H ++ entries) e.caller e.command)) ∷ [] }
{}
