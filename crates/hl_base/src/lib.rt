//! What every crate of the product stands on: owned texts, bytes and lists, the cut of a journal's text into
//! items, the objects of the outside with their memory forms, and the counters of steps.
#![tactic(auto)]

pub mod ascii;
pub mod bytes;
mod change;
pub mod clock;
pub mod disk;
mod disk_record;
pub mod door;
pub mod fault;
pub mod items;
pub mod limits;
pub mod line;
pub mod link;
pub mod list;
mod mem_disk;
mod mem_door;
mod mem_link;
mod mem_shelf;
mod memory_forms;
pub mod outside;
pub mod shelf;
mod short;
pub mod steps;
mod surface;
pub mod text;
pub mod transfer;
pub mod white;

pub use ascii::{are_digits, is_digit, is_punctuation, is_white};
pub use bytes::Bytes;
pub use change::{Latest, Splice};
pub use clock::{Clock, MemClock};
pub use disk::Disk;
pub use door::{Door, Knock};
pub use fault::{Failed, Memory};
pub use items::{Kind, Piece, cut_items};
pub use limits::{ENTRY_LIMIT, ITEM_LIMIT, TEXT_LIMIT};
pub use line::next_line;
pub use link::{Link, send_all};
pub use list::List;
pub use mem_disk::MemDisk;
pub use mem_door::MemDoor;
pub use mem_link::MemLink;
pub use mem_shelf::MemShelf;
pub use memory_forms::{MemSink, MemSource};
pub use outside::{Sink, Source};
pub use shelf::{Shelf, ShelfFault};
pub use steps::Steps;
pub use text::Text;
pub use transfer::{ReadAllFault, read_all, write_all};
