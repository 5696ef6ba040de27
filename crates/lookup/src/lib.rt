// A thing is looked up: by its numbers, by its name, or the lowest number that is free.
#![tactic(auto)]

pub mod applications;
pub mod ends;
pub mod named;
pub mod presences;
pub mod sdss;
pub mod types;
