//! Paths of a guest, and what they reach.
#![tactic(auto)]

mod components;
mod laws;
mod path;
mod rooted;
mod walking;

pub use components::wants_a_directory;
pub use laws::{read_gives_names, steps_by_parents, walks_stay_below};
pub use path::Path;
pub use rooted::walk_from_root;
pub use walking::{Reached, is_directory, walk};
