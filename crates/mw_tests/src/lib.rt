//! Tests of the parts: what no row shows. They stand apart from the parts, because a crate with tests of its own is
//! proved a second time with them.
#![tactic(auto)]

#[cfg(test)]
mod cases;
#[cfg(test)]
mod certified;
#[cfg(test)]
mod computed_questions;
#[cfg(test)]
mod descriptions;
#[cfg(test)]
mod generated;
#[cfg(test)]
mod microprograms;
#[cfg(test)]
mod starts;
#[cfg(test)]
mod words;
