//! Laws of the definitions. A law is a function without parameters that does nothing: its contract is what is proved.

ghost use Rattle.std.specs.Prelude.{◌≡◌, ◌<◌, ◌≤◌, ◌^◌, ℕ, ℤ, List, length, Some};
ghost use Rattle.std.specs.Fmt.{decimal, signed_decimal};
ghost use Rattle.ucon_base.specs.declared.value.Value.{Value};
ghost use Rattle.ucon_base.specs.Numbers.{InRange};
ghost use Rattle.ucon_base.specs.Spelling.{IsValue, value_spelling};
ghost use Rattle.ucon_model.specs.CommandLine.{integer_in, number_in, value_in};
ghost use Rattle.ucon_model.specs.Output.{Lacks};
ghost use Rattle.ucon_model.specs.Plain.{PlainReply};
ghost use Rattle.ucon_model.specs.ReplyText.{IsReply, reply_read};
ghost use Rattle.ucon_model.specs.Spelling.{reply_spelling};
ghost use Rattle.ucon_reply.specs.Replies.{most_reply};

use ucon_base::values_are_read_back;
use ucon_model::texts_lack_bytes;

/// The spelling of each value, integer and session's number is read as that, and bytes that are read are the spelling of what is read.
pub fn words_are_read_back()
    ensures values_written { (v : Value) → IsValue v → value_in (value_spelling v) ≡ Some v }
    ensures values_read { (bytes : List ℕ) (v : Value) → value_in bytes ≡ Some v → value_spelling v ≡ bytes }
    ensures integers_written { (n : ℤ) → InRange n → integer_in (signed_decimal n) ≡ Some n }
    ensures integers_read { (bytes : List ℕ) (n : ℤ) → integer_in bytes ≡ Some n → signed_decimal n ≡ bytes }
    ensures numbers_written { (n : ℕ) → n < 2 ^ 32 → number_in (decimal n) ≡ Some n }
    ensures numbers_read { (bytes : List ℕ) (n : ℕ) → number_in bytes ≡ Some n → decimal n ≡ bytes }
{
    values_are_read_back();
}

/// Each value's spelling has at most 4300 bytes, and no newline.
pub fn values_fit_lines()
    ensures short { (v : Value) → IsValue v → length (value_spelling v) ≤ 4300 }
    ensures one_line { (v : Value) → IsValue v → Lacks 10 (value_spelling v) }
{
    texts_lack_bytes();
}

/// Each reply's text is read as the reply, and bytes that are read are the text of the reply read. No text of a reply has a newline, and none
/// is longer than its revocations let it be.
pub fn replies_are_read_back()
    ensures written { (r : PlainReply) → IsReply r → reply_read (reply_spelling r) ≡ Some r }
    ensures read { (bytes : List ℕ) (r : PlainReply) → reply_read bytes ≡ Some r → reply_spelling r ≡ bytes }
    ensures short { (r : PlainReply) → IsReply r → length (reply_spelling r) ≤ most_reply r }
    ensures one_line { (r : PlainReply) → IsReply r → Lacks 10 (reply_spelling r) }
{
    values_are_read_back();
    texts_lack_bytes();
}
