//! A volume of files in directories, kept through a crash.
#![tactic(auto)]

mod checking;
mod errno;
mod files;
mod formatting;
mod fresh;
mod laws;
mod layout;
mod moving;
mod naming;
mod opening;
mod parts;
mod reaching;
mod reading;
mod stat;
mod stats;
mod superblock;
mod upgrading;
mod volume;

pub use errno::Errno;
pub use laws::{
    created_adds_one_path, created_has_the_least_serial, created_is_a_tree, one_tree,
    paths_are_a_map, paths_determine_the_tree, removed_directory_takes_one_path,
    renamed_moves_paths, resized_changes_one_file, the_volumes_sectors_decide,
    unlinked_takes_one_path, within_is_below, written_changes_one_file,
};
pub use stat::{Place, Stat};
pub use stats::Stats;
pub use vol_body::{MemorySpan, Source};
pub use vol_inode::Serial;
pub use volume::Volume;
