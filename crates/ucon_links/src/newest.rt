//! The node that a table of lists hid last.

ghost use Rattle.std.specs.Prelude.{◌≡◌};
ghost use Rattle.ucon_links.specs.Lists.{nodes_of, unhide, IsDistinct};
ghost use Rattle.ucon_links.specs.Tables.{newest_owner, CanUnhideNewest};

use crate::links::Links;

/// The owner of the node that was hidden last.
pub fn last_hidden(links: &Links) -> Option<u32>
    ensures { result ≡ newest_owner links.now.hidden }
{
    let node = links.newest_hidden()?;
    Some(links.owner(node))
}

/// Puts the node that was hidden last back where it was.
pub fn unhide_newest(links: &mut Links)
    requires { CanUnhideNewest links.old.lists links.old.hidden }
    ensures back { links.new ≡ unhide links.old }
    ensures distinct { IsDistinct (nodes_of links.old) }
{
    let Some(node) = links.newest_hidden() else {
        unreachable!();
    };
    links.unhide(node);
}
