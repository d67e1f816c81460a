//! Where two texts differ.

ghost use Rattle.std.specs.Prelude.{◌≡◌};
ghost use Rattle.ucon_store.specs.Opening.{first_difference};

/// The place of the first byte that differs, or the length of the shorter text where it begins the other.
pub(crate) fn first_difference(one: &[u8], other: &[u8]) -> Option<u64>
    ensures { result ≡ first_difference one.now other.now }
{
    let shorter = one.len().min(other.len());
    'places: for i in 0..shorter {
        if one[i] != other[i] {
            return Some(i as u64);
        }
    }
    if one.len() == other.len() {
        None
    } else {
        Some(shorter as u64)
    }
}
