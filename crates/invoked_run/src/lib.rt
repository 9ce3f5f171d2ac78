//! An exported function that is called once, on a new instance.
#![tactic(auto)]

mod calling;
mod ending;
mod exports;

pub use calling::{CallEnd, CalledOnce, call_once};
pub use exports::exported_type;
