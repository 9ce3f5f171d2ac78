//! What the program says in words where it takes no options, can't begin a run, or ends one for want of something; and which calls
//! an inspection serves.

#![tactic(auto)]

pub mod refusals;
pub mod serving;
