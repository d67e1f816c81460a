//! Laws of the grammar. A law is a function without parameters that does nothing: its contract is what is proved.

ghost use Rattle.std.specs.Prelude.{◌≡◌, ◌⊎◌, ◌↔◌, ℕ, Ok, Err, Some};
ghost use Rattle.ucon_model.specs.Limits.{IsWithin};
ghost use Rattle.ucon_model.specs.Plain.{Bytes, PlainPolicy};
ghost use Rattle.ucon_model.specs.Spells.{Spells, TextFault, IsTextFault};
ghost use Rattle.ucon_model.specs.Typing.{IsTyped};
ghost use Rattle.ucon_syntax.specs.Policies.{accepted, reading_of};
ghost use Rattle.ucon_syntax.specs.Refusals.{IsSyntaxFault};
ghost use Rattle.ucon_syntax.specs.declared.read.SyntaxFault.{SyntaxFault};

/// No two policies are spelled by one text.
pub fn texts_spell_one_policy()
    ensures { (text : Bytes) (p q : PlainPolicy) → Spells text p → Spells text q → p ≡ q }
{}

/// The first fault of a text is the only one.
pub fn texts_have_one_fault()
    ensures { (text : Bytes) (f g : TextFault) (m n : ℕ) → IsTextFault text f m → IsTextFault text g n → (f ≡ g) × (m ≡ n) }
{}

/// A text with a fault spells no policy.
pub fn refused_texts_spell_nothing()
    ensures { (text : Bytes) (f : TextFault) (n : ℕ) (p : PlainPolicy) → IsTextFault text f n → Spells text p → ⊥ }
{}

/// Each text spells a policy, or has a first fault.
pub fn each_text_spells_or_is_refused()
    ensures { (text : Bytes) → ((p : PlainPolicy) × Spells text p) ⊎ ((f : TextFault) × (n : ℕ) × IsTextFault text f n) }
{}

/// The reading of a text is the policy that it spells, or its first fault.
pub fn readings_are_what_texts_spell()
    ensures policy { (text : Bytes) (p : PlainPolicy) → (reading_of text ≡ Ok p) ↔ Spells text p }
    ensures fault { (text : Bytes) (f : SyntaxFault) → (reading_of text ≡ Err f) ↔ IsSyntaxFault text f }
{}

/// A text is accepted as a policy exactly if it spells that policy and the policy is well typed.
pub fn accepted_texts_spell_typed_policies()
    ensures { (text : Bytes) (p : PlainPolicy) → (accepted text ≡ Some p) ↔ (Spells text p × IsTyped p) }
{}

/// A policy that a text spells keeps the limits.
pub fn spelled_policies_keep_the_limits()
    ensures { (text : Bytes) (p : PlainPolicy) → Spells text p → IsWithin p }
{}
