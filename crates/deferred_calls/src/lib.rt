//! Calls of the host that a machine leaves to its embedder, who decides when the host answers them.
#![tactic(auto)]

mod laws;

pub use laws::{
    asks_in_the_whole, grant_is_the_call, machines_defer, serves_the_whole, steps_of_the_whole,
};
