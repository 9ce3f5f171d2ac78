//! The names of a volume: which serial an entry has by its directory and its name.
#![tactic(auto)]

mod dirs;
mod keys;
mod laws;
mod rooted;
mod seat;
mod serial_order;
mod serials;
mod slot_marks;
mod slots;

pub use dirs::Dirs;
pub use laws::{
    each_serial_has_one_name, other_sectors_are_not_shown, rewritten_slots_are_shown,
    unused_slots_are_free,
};
pub use seat::Seat;
pub use slots::slot_sector;
