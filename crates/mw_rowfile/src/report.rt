// What a call prints.
use crate::fault::Fault;
use mw_base::{Refusal, Refused, append_decimal, append_hex, append_padded};
use std::alloc::{AllocError, Global};

/// What a call prints. Where memory runs out, its end says so; what is appended needs no answer of its own.
#[derive(Drop)]
pub struct Report {
    alloc: Global,
    bytes: Vec<u8>,
    /// Whether memory ran out.
    is_short: bool,
}

impl Report {
    /// Nothing is printed yet.
    pub fn new(alloc: Global) -> Report {
        Report {
            alloc,
            bytes: Vec::new(alloc),
            is_short: false,
        }
    }

    /// Appends bytes.
    pub fn push(&mut self, bytes: &[u8]) {
        if self.bytes.extend_from_slice(bytes).is_err() {
            self.is_short = true;
        }
    }

    /// Appends a text, for which there may have been no memory.
    pub fn push_text(&mut self, text: Result<String, AllocError>) {
        match text {
            Ok(text) => self.push(text.as_bytes()),
            Err(_) => self.is_short = true,
        }
    }

    /// Appends a number, in decimal.
    pub fn push_decimal(&mut self, number: u64) {
        if append_decimal(self.alloc, &mut self.bytes, number).is_err() {
            self.is_short = true;
        }
    }

    /// Appends a number, in hexadecimal as the texts of the bench have it.
    pub fn push_hex(&mut self, number: u64) {
        if append_hex(self.alloc, &mut self.bytes, u128::from(number)).is_err() {
            self.is_short = true;
        }
    }

    /// Appends a number, in hexadecimal as calls have it: with small letters, and nothing before them.
    pub fn push_digits(&mut self, number: u64) {
        self.push_text(format!(in self.alloc; "{number:x}"));
    }

    /// Appends a number in the same digits, all sixteen of them.
    pub fn push_all_digits(&mut self, number: u64) {
        self.push_text(format!(in self.alloc; "{number:016x}"));
    }

    /// Appends the last digits of a number, so many, in hexadecimal as the texts of the bench have it.
    pub fn push_padded(&mut self, digits: u8, number: u128) {
        if append_padded(self.alloc, &mut self.bytes, digits, number).is_err() {
            self.is_short = true;
        }
    }

    /// Appends an address of 12 bits in the same digits, all three of them.
    pub fn push_address(&mut self, address: u16) {
        self.push_text(format!(in self.alloc; "{address:03x}"));
    }

    /// Appends a bit.
    pub fn push_bit(&mut self, bit: bool) {
        self.push(if bit { b"1" } else { b"0" });
    }

    /// Appends a name, or what else stands in front, and a number in hexadecimal as calls have it.
    pub fn push_named(&mut self, name: &[u8], number: u64) {
        self.push(name);
        self.push_digits(number);
    }

    /// Appends the line of a refusal: its line, column and cause.
    pub fn push_refusal(&mut self, refusal: Refusal) {
        match refusal {
            Refused::At(fault) => {
                self.push(b"refused line ");
                self.push_decimal(u64::from(fault.line));
                self.push(b" column ");
                self.push_decimal(u64::from(fault.column));
                self.push(b" cause ");
                self.push_decimal(u64::from(fault.cause.number()));
                self.push(b"\n");
            }
            Refused::NoMemory => self.is_short = true,
        }
    }

    /// Appends what another one has.
    pub fn push_report(&mut self, other: &Report) {
        self.push(&other.bytes);
        if other.is_short {
            self.is_short = true;
        }
    }

    /// What was printed so far.
    pub fn as_slice(&self) -> &[u8] {
        &self.bytes
    }

    /// What was printed.
    ///
    /// # Errors
    ///
    /// Memory ran out.
    pub fn finish(self) -> Result<Vec<u8>, Fault> {
        let Report {
            bytes,
            is_short,
            ..
        } = self;
        if is_short {
            drop(bytes);
            return Err(Fault::NoMemory);
        }
        Ok(bytes)
    }
}
