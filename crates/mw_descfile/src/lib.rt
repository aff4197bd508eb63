//! Descriptions in texts: the readers of described machines, and of relations between one and a board.
#![tactic(auto)]

mod block;
mod declaration;
mod declared;
mod element;
mod expression;
mod machine;
mod relation;
mod relation_line;
mod said;
mod scope;
mod stated;
mod uses;

pub use machine::read_machine;
pub use relation::read_relation;
