//! Example families: neighbours, neighbour tables and rules, and one protocol that joins them.
#![tactic(auto)]

pub mod choices;
pub mod getters;
pub mod neighbours;
pub mod numbered;
pub mod route;
pub mod rules;
pub mod shapes;
pub mod tables;
#[cfg(test)]
mod tests;
pub mod views;
