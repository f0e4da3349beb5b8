//! Tests.

mod byte_lines;
mod choices;
mod elements;
mod errors;
mod getters;
mod later;
mod messages;
mod nests;
mod numbered;
mod places;
mod push;
mod records;
mod short;
mod show;
mod strings;
mod views;
