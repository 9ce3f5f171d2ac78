//! What each call of WASI preview 1 means, and the bodies of those that walk no path. Which host they are of no item here knows.

#![tactic(auto)]

pub mod arguments;
pub mod checks;
pub mod descriptors;
pub mod errno;
pub mod files;
pub mod numbers;
pub mod settings;
pub mod streams;
pub mod supplies;
