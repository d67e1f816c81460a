//! Lists of items, read one after the other.

ghost use Rattle.std.specs.Prelude.{◌≡◌, Bool, map};
ghost use Rattle.ucon_base.specs.Tokens.{Token as PlainToken};
ghost use Rattle.ucon_token.specs.Reading.{Gives, Reads};
ghost use Rattle.ucon_token.specs.Seen.{token_of};
ghost use Rattle.ucon_syntax.specs.Items.{all_at};

use crate::closing::ended;
use crate::room::Room;
use ucon_base::Rows;
use ucon_token::{Reader, Stop, Token};

/// What stands in a list.
pub trait Item: Drop {
    ghost use Rattle.ucon_syntax.specs.declared.room.Room.{Room};

    /// What an item is in definitions.
    ghost Plain: { Type 0 };

    /// The item that one is.
    ghost plain: { Self → Plain };

    /// Whether an item begins with a token.
    ghost starts: { PlainToken → Bool };

    /// What the tokens say at the front, with so much room for it, and what room is then left.
    ghost item_at: { Room → Reads (Plain × Room) };

    /// Whether one begins with this token.
    fn begins(token: &Token) -> bool
        ensures { result ≡ starts (token_of token.now) };

    /// One more, and what room is then left.
    fn read(reader: &mut Reader, room: Room) -> Result<(Self, Room), Stop>
        ensures read { Gives (λ x. ((plain x.0, x.1), reader.new.tokens)) result reader.new.tokens (item_at room reader.old.tokens) }
        ensures text { reader.new.text ≡ reader.old.text };
}

/// All items that stand here, of which there may be so many.
pub fn items<T: Item>(reader: &mut Reader, most: usize) -> Result<Rows<T>, Stop>
    ensures read { Gives (λ r. (map T.plain r.items, reader.new.tokens)) result reader.new.tokens (all_at T.starts T.item_at most reader.old.tokens) }
    ensures text { reader.new.text ≡ reader.old.text }
{
    let mut rows = Rows::new(reader.alloc);
    let mut room = Room::full();
    for _ in 0..most {
        if !T::begins(reader.first()) {
            return Ok(rows);
        }
        let (next, left) = T::read(reader, room)?;
        room = left;
        rows.push(next)?;
    }
    ended(rows, T::begins(reader.first()))
}
