//! What no contract says: that calls succeed, and the worked examples of what they answer.

mod descriptors;
mod failing;
mod files;
mod guest;
mod linking;
mod listing;
mod paths;
mod streams;
mod supplies;
