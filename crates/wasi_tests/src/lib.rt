//! Worked examples of a guest's descriptors, only through public calls.
#![tactic(auto)]

#[cfg(test)]
mod tests;
