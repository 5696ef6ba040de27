// What a working schema, a list of SDSs, shows of a lent base.
#![tactic(auto)]

pub mod find;
pub mod listed;
