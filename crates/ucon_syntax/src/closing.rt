//! How what was read is closed.

ghost use Rattle.std.specs.Prelude.{◌≡◌, if◌then◌else◌, IfOk};
ghost use Rattle.ucon_token.specs.declared.stop.Cause.TheVariants.{TooMany};
ghost use Rattle.ucon_token.specs.declared.stop.Stop.TheVariants.{At};
ghost use Rattle.ucon_token.specs.Reading.{Gives, expect};
ghost use Rattle.ucon_token.specs.Seen.{symbol_of};

use ucon_token::{Cause, Reader, Stop, Symbol};

/// What was read, once the reader is past this symbol behind it.
pub fn closed<T: Drop>(reader: &mut Reader, item: T, symbol: Symbol) -> Result<T, Stop>
    ensures read { Gives (λ _. reader.new.tokens) result reader.new.tokens (expect (symbol_of symbol) reader.old.tokens) }
    ensures item { IfOk result (λ x. x ≡ item) }
    ensures text { reader.new.text ≡ reader.old.text }
{
    reader.expect(symbol)?;
    Ok(item)
}

/// What was read, if not even more follows.
pub fn ended<T: Drop>(item: T, goes_on: bool) -> Result<T, Stop>
    ensures { result ≡ (if goes_on then Err (At TooMany) else Ok item) }
{
    if goes_on {
        return Err(Stop::At(Cause::TooMany));
    }
    Ok(item)
}
