//! What holds over the whole life of an instance whose exports are called: what its guest can't reach, and what a crash may leave.
#![tactic(auto)]

mod laws;
mod stage;

pub use laws::{
    deeds_are_a_life, handling_is_a_life, instances_allocate, lives_keep_moments,
    lives_stay_confined,
};
pub use stage::Stage;
