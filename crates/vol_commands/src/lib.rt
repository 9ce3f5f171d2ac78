//! Tasks on the volume of a device: what the commands list, print, put, change, check, upgrade and
//! format, and the volume of a run that names none.
#![tactic(auto)]

mod changing;
mod escaping;
mod exporting;
mod failure;
mod formatting;
mod importing;
mod laws;
mod opening;
mod output;
mod printing;
mod putting;
mod removing;
mod replacing;
mod tasks;
mod volume_path;

pub use exporting::{ExportFailure, export_from};
pub use failure::Failure;
pub use formatting::{MAGIC, format_as, format_where};
pub use importing::{ImportFailure, import_into};
pub use laws::removed_tree_takes_all_below;
pub use opening::{FRESH_SECTORS, open_fresh};
pub use tasks::perform;
