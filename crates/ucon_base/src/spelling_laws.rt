//! Laws of the definitions. A law is a function without parameters that does nothing: its contract is what is proved.

ghost use Rattle.std.specs.Prelude.{◌≡◌, ◌≢◌, ◌≤◌, ◌↔◌, ℕ, List, length, take, Ok, Err};
ghost use Rattle.ucon_base.specs.Reading.{value_read};
ghost use Rattle.ucon_base.specs.Spelling.{IsValue, value_spelling};
ghost use Rattle.ucon_base.specs.declared.value.Value.{Value};
ghost use Rattle.ucon_base.specs.declared.value_fault.ValueFault.TheVariants.{BadSpelling};
ghost use Rattle.ucon_base.specs.Spellings.{IsSpelling, Begins, FallsAt, IsBadPlace};

use crate::values_are_read_back;

/// Bytes are refused for their spelling, at some place, exactly if they are no spelling of any length. A value's spelling is one.
pub fn spellings_are_what_is_not_bad()
    ensures spelled { (bytes : List ℕ) (p : ℕ) → IsSpelling bytes → value_read bytes ≢ Err (BadSpelling p) }
    ensures read { (bytes : List ℕ) (v : Value) → value_read bytes ≡ Ok v → IsSpelling bytes }
    ensures written { (v : Value) → IsValue v → IsSpelling (value_spelling v) }
    ensures refused { (bytes : List ℕ) → ¬ IsSpelling bytes → (p : ℕ) × (value_read bytes ≡ Err (BadSpelling p)) }
{
    values_are_read_back();
}

/// The place of a bad spelling is the opening `"` of a set's text that doesn't rise; if there is none, it is the first place where the
/// bytes stop being the beginning of a spelling, or their length if they end too soon.
pub fn bad_places_are_those_of_the_reader()
    ensures place { (bytes : List ℕ) (p : ℕ) → (value_read bytes ≡ Err (BadSpelling p)) ↔ IsBadPlace bytes p }
    ensures within { (bytes : List ℕ) (p : ℕ) → value_read bytes ≡ Err (BadSpelling p) → p ≤ length bytes }
    ensures begun { (bytes : List ℕ) (p : ℕ) → value_read bytes ≡ Err (BadSpelling p) → Begins (take p bytes) }
    ensures short { (bytes : List ℕ) → (value_read bytes ≡ Err (BadSpelling (length bytes))) ↔ (Begins bytes × (¬ IsSpelling bytes)) }
    ensures falling { (bytes : List ℕ) (p : ℕ) → FallsAt bytes p → ¬ Begins bytes }
{}
