//! Tests of the lowest parts: what no row shows. They stand apart from the parts, because a crate with tests of its own
//! is proved a second time with them.
#![tactic(auto)]

#[cfg(test)]
mod alus;
#[cfg(test)]
mod bits;
#[cfg(test)]
mod files;
#[cfg(test)]
mod sequencers;
#[cfg(test)]
mod shared;
#[cfg(test)]
mod slices;
#[cfg(test)]
mod terms;
