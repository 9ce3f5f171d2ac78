//! What instructions do with values and memory alone (section 4.4), and what a machine shows. Which function is at work no item here knows.

#![tactic(auto)]

pub mod accesses;
pub mod activation;
pub mod binary;
pub mod bulk;
pub mod float_operands;
pub mod floats;
pub mod growth;
pub mod halt;
pub mod least;
pub mod loads;
pub mod operands;
pub mod operators;
pub mod pending;
pub mod phase;
mod reads;
pub mod stores;
pub mod unary;
pub mod work;
