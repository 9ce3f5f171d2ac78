//! The bytes of a file, over the log and the free sectors of a volume.
#![tactic(auto)]

mod freeing;
mod growing;
mod holding;
mod laws;
mod locate;
mod pointer_sectors;
mod reading;
mod resizing;
mod shrinking;
mod source;
mod surveying;
mod truncation;
mod writing;
mod writing_blocks;
mod writing_image;
mod writing_spans;

pub use laws::{
    names_at_most_what_it_needs, other_files_stay, survey_has_what_is_named, survey_repeats_none,
    survey_shows_the_rules,
};
pub use reading::read_at;
pub use resizing::set_size;
pub use source::{MemorySpan, Source};
pub use surveying::survey;
pub use writing::{PIECE, write_at};
