// The presences of types in SDSs: removed, renamed, and their modes set.
#![tactic(auto)]

pub mod modes;
pub mod remove;
pub mod rename;
