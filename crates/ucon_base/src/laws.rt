//! Laws of the definitions. A law is a function without parameters that does nothing: its contract is what is proved.

ghost use Rattle.std.specs.Prelude.{◌≡◌, ℕ, List, Ok};
ghost use Rattle.ucon_base.specs.declared.value.Value.{Value};
ghost use Rattle.ucon_base.specs.Reading.{value_read};
ghost use Rattle.ucon_base.specs.Spelling.{IsValue, value_spelling};

/// Each value's spelling is read as the value, and bytes that are read are the spelling of the value read.
pub fn values_are_read_back()
    ensures written { (v : Value) → IsValue v → value_read (value_spelling v) ≡ Ok v }
    ensures read { (bytes : List ℕ) (v : Value) → value_read bytes ≡ Ok v → value_spelling v ≡ bytes }
{}
