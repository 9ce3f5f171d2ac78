//! What the program tells of a command: its lines, reports, stops and profiles; and what a guest is given by the words.

#![tactic(auto)]

pub mod explaining;
pub mod features;
pub mod formatting;
pub mod modules;
pub mod output;
pub mod profiling;
pub mod reporting;
pub mod runnable;
pub mod stopping;
pub mod streams;
pub mod supplies;
pub mod work;
