// What the asking calls share: the view of their inputs, the types in a relation to one, and a list put down.
#![tactic(auto)]

pub mod lists;
pub mod scan;
pub mod view;
