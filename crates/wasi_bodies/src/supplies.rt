//! What a guest is supplied with: texts, clocks and random bytes.

pub mod clocks;
pub mod random;
pub mod texts;
