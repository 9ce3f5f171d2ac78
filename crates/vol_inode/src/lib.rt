//! Entries of a volume, one sector of 512 bytes each, and the space that files take.
#![tactic(auto)]

mod codec;
mod entry;
mod image;
pub mod laws;
mod names;
mod pointers;
mod rules;
mod serial;
mod space;
mod version;

pub use codec::{read_entry, write_entry};
pub use entry::{Entry, Kind};
pub use image::{put_bytes, put_number};
pub use names::is_name;
pub use pointers::{
    DIRECT, DOUBLE_INDIRECT, DOUBLE_INDIRECT_BLOCKS, INDIRECT, INNER_BLOCKS, LISTED, MOST_BLOCKS,
    NUMBERS, SERVED, TRIPLE_INDIRECT, TWICE_LISTED,
};
pub use rules::first_block_of_pointer;
pub use serial::Serial;
pub use space::need;
pub use version::{LARGEST_SIZE, Version};
