//! What every crate of the bench shares: widths, bits of a word, names, lists, the causes of refusal, events, the
//! tokens of texts, their lines as a grammar reads them, what names stand for, and numbers as texts spell and
//! reports print them.
#![tactic(auto)]

mod cause;
mod cursor;
mod event;
mod first_fault;
mod items;
mod line;
mod literal;
mod membership;
mod memory;
mod name;
mod named;
mod piece;
mod place;
mod printed;
mod refusal;
mod scan;
mod sign;
mod symbol;
mod token;
mod width;

pub use cause::Cause;
pub use cursor::{Cursor, Dotted, Numeral};
pub use event::Event;
pub use first_fault::note_fault;
pub use items::Items;
pub use line::{Line, end_fault, fault_on, lines, text_end, tokens};
pub use literal::number;
pub use membership::is_one_of;
pub use memory::NoMemory;
pub use name::{Name, is_name};
pub use named::Names;
pub use place::{Place, low_address};
pub use printed::{append_decimal, append_hex, append_padded};
pub use refusal::{Refusal, Refused, TextFault};
pub use sign::Sign;
pub use symbol::{Symbol, spelled, symbol_of};
pub use token::{Kind, Token};
pub use width::{Width, bit, mask};
