//! The bodies of the calls of WASI preview 1 that walk paths.

#![tactic(auto)]

pub mod paths;
