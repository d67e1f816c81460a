//! A disk as the layers above see it, and which bytes a crash may leave on it.
//!
//! Each promise about crashes rests on the model in `specs/Image.antt`. A disk has one ghost member: what reads give, which files a crash may
//! leave now, and which since a moment. `MemDisk` records its calls, and replays them to give any image.
//!
//! **Always.** What a `MemDisk` holds is what replaying its calls gives.
//!
//! **Free.** How a `MemDisk` keeps its calls.
//!
//! **Before a change.** `FileDisk` is a trusted edge: no proof shows that a real file keeps to the model. Its loops over parts are proved over any
//! file that tells its bytes. A failed sync promises only that what is read is an image. Of a disk that tells nothing, the clauses about crashes
//! say nothing. Begin at `specs/Image.antt`, then `disk.rt`.
#![tactic(auto)]

mod disk;
mod file;
mod log;
mod memory;
mod parts;
mod plan;
mod replay;

pub use disk::{Disk, Failed};
pub use file::FileDisk;
pub use memory::MemDisk;
