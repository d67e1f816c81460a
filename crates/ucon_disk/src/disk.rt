//! The trait of disks.

ghost use Rattle.std.specs.Prelude.{◌≡◌, ◌+◌, ◌^◌, ◌<◌, ◌≤◌, ⊤, Bool, List, ℕ, Option, length, take, is_some, is_ok, IfOk, IfSome, OnOk};
ghost use Rattle.std.specs.Option.{option_map};
ghost use Rattle.ucon_disk.specs.Causes.{HasCause};
ghost use Rattle.ucon_disk.specs.Image.{Change, looked, wrote, cut_to, synced_all};
ghost use Rattle.ucon_disk.specs.Seen.{DiskSeen};
ghost use Rattle.ucon_disk.specs.Disk.{overwritten, HasPlace, Reads, Torn, Shortened, Follows, Reaches, SameImages, NoneNew, Only, Elapses};

/// A call failed, and the disk has counted it.
#[derive(Clone, Copy)]
pub struct Failed;

/// A file on a disk. Places and lengths are in bytes, places from 0.
pub trait Disk {
    /// What can be said of the disk at this moment.
    ghost seen: { Self → DiskSeen };

    /// What more the disk says of a call: what it did to the disk, whether it succeeded, and which call it was.
    ghost makes: { Self → Self → Bool → (Bool → Change) → Type 0 } = { λ _ _ _ _. ⊤ };

    /// The file's length.
    fn len(&mut self) -> Result<u64, Failed>
        ensures small { IfOk result (λ n. n < 2 ^ 63) }
        ensures length { IfOk result (λ n. IfSome (seen self.old).contents (λ file. n ≡ length file)) }
        ensures contents { (seen self.new).contents ≡ (seen self.old).contents }
        ensures images { SameImages (seen self.old).images (seen self.new).images }
        ensures time { Elapses (seen self.old).moment (seen self.new).moment
            (seen self.old).images_since (seen self.new).images_since (seen self.new).images }
        ensures cause { HasCause (seen self.old).faults (seen self.new).faults result }
        ensures made { makes self.old self.new (is_ok result) (λ _. looked) };

    /// Puts the bytes from a place on into the front of the buffer, and tells how many: none at the file's end.
    fn read_at(&mut self, at: u64, buf: &mut [u8]) -> Result<usize, Failed>
        ensures bound { IfOk result (λ n. n ≤ length buf.new) }
        ensures reads { IfOk result (λ n. IfSome (seen self.old).contents (λ file. Reads file at n buf.new)) }
        ensures contents { (seen self.new).contents ≡ (seen self.old).contents }
        ensures images { SameImages (seen self.old).images (seen self.new).images }
        ensures time { Elapses (seen self.old).moment (seen self.new).moment
            (seen self.old).images_since (seen self.new).images_since (seen self.new).images }
        ensures cause { HasCause (seen self.old).faults (seen self.new).faults result }
        ensures made { makes self.old self.new (is_ok result) (λ _. looked) };

    /// Writes over what is there, and past the end. Until a sync, a crash may leave any bytes in the range.
    /// A write that fails has touched its range too.
    fn write_at(&mut self, at: u64, bytes: &[u8]) -> Result<(), Failed>
        requires { HasPlace (seen self.old).contents at (length bytes.now) }
        ensures small { OnOk result (at + length bytes.now < 2 ^ 63) }
        ensures written { OnOk result ((seen self.new).contents ≡ option_map (overwritten at bytes.now) (seen self.old).contents) }
        ensures tells { is_some (seen self.new).contents ≡ is_some (seen self.old).contents }
        ensures images { Follows (Torn at (length bytes.now)) (seen self.old).images (seen self.new).images }
        ensures all_images { OnOk result (Reaches (Torn at (length bytes.now)) (seen self.old).images (seen self.new).images) }
        ensures time { Elapses (seen self.old).moment (seen self.new).moment
            (seen self.old).images_since (seen self.new).images_since (seen self.new).images }
        ensures cause { HasCause (seen self.old).faults (seen self.new).faults result }
        ensures made { makes self.old self.new (is_ok result) (wrote at bytes.now) };

    /// Cuts the file to a length. Until a sync, a crash may leave any length between.
    fn cut(&mut self, len: u64) -> Result<(), Failed>
        requires { IfSome (seen self.old).contents (λ file. len ≤ length file) }
        ensures cut { OnOk result ((seen self.new).contents ≡ option_map (take len) (seen self.old).contents) }
        ensures tells { is_some (seen self.new).contents ≡ is_some (seen self.old).contents }
        ensures images { Follows (Shortened len) (seen self.old).images (seen self.new).images }
        ensures all_images { OnOk result (Reaches (Shortened len) (seen self.old).images (seen self.new).images) }
        ensures time { Elapses (seen self.old).moment (seen self.new).moment
            (seen self.old).images_since (seen self.new).images_since (seen self.new).images }
        ensures cause { HasCause (seen self.old).faults (seen self.new).faults result }
        ensures made { makes self.old self.new (is_ok result) (cut_to len) };

    /// Puts all that is read on the disk: after it, a crash leaves that and nothing else.
    fn sync(&mut self) -> Result<(), Failed>
        ensures only { OnOk result (Only (seen self.old).contents (seen self.new).images) }
        ensures contents { OnOk result ((seen self.new).contents ≡ (seen self.old).contents) }
        ensures tells { is_some (seen self.new).contents ≡ is_some (seen self.old).contents }
        ensures images { NoneNew (seen self.old).images (seen self.new).images }
        ensures time { Elapses (seen self.old).moment (seen self.new).moment
            (seen self.old).images_since (seen self.new).images_since (seen self.new).images }
        ensures cause { HasCause (seen self.old).faults (seen self.new).faults result }
        ensures made { makes self.old self.new (is_ok result) synced_all };

    /// A crash may always leave what reads give.
    ghost as_read: { (disk : Self) → IfSome (seen disk).contents (seen disk).images };

    /// The images of this moment are among those since an earlier one.
    ghost counts_now: { (disk : Self) (t : ℕ) (c : List ℕ) → t ≤ (seen disk).moment → (seen disk).images c → (seen disk).images_since t c };

    /// Since this moment there are no others.
    ghost only_now: { (disk : Self) (c : List ℕ) → (seen disk).images_since (seen disk).moment c → (seen disk).images c };

    /// The images since a moment are among those since an earlier one.
    ghost since_earlier: { (disk : Self) (t u : ℕ) (c : List ℕ) → t ≤ u → u ≤ (seen disk).moment
        → (seen disk).images_since u c → (seen disk).images_since t c };
}
