// What calls read of files and words: a board, microwords, a state, and what the outside has for a cycle.
ghost use Rattle.std.specs.Prelude.{◌<◌};

use crate::fault::{Fault, wrong};
use crate::named::{address, bit_of, hexadecimal, hexadecimal_of, sequencer_of, set_word, word};
use crate::row::{File, contents, text_in};
use crate::spelled::words_of;
use mw_base::Items;
use mw_board::{Board, Store};
use mw_boardfile::read_board;
use mw_cycle::{CycleIn, State};
use std::alloc::Global;

/// The words of a file.
pub fn file_words(alloc: Global, files: &[File], name: &str) -> Result<Vec<String>, Fault> {
    words_of(alloc, text_in(files, name)?)
}

/// The board of a file.
pub fn board_of(alloc: Global, files: &[File], name: &str) -> Result<Board, Fault> {
    match read_board(alloc, contents(files, name)?) {
        Ok(board) => Ok(board),
        Err(_) => Err(wrong("the board is refused")),
    }
}

/// A store of hexadecimal microwords.
pub fn store_of(alloc: Global, files: &[File]) -> Result<Store, Fault> {
    let mut words = Vec::new(alloc);
    for text in &file_words(alloc, files, "store")? {
        match u128::from_str_radix(text, 16) {
            Ok(word) => words.push(word)?,
            Err(_) => return Err(wrong("no microword")),
        }
    }
    Ok(Store {
        words: Items::from_vec(words),
    })
}

/// Sets the memory word at an address.
fn set_memory_word(state: &mut State, place: &str, value: u32) -> Result<(), Fault> {
    set_word(&mut state.memory, hexadecimal(place)?, value)
}

/// Sets the register of a number, which is decimal.
fn set_register(state: &mut State, place: &str, value: u32) -> Result<(), Fault> {
    match place.parse::<u64>() {
        Ok(place) => set_word(&mut state.regs, place, value),
        Err(_) => Err(wrong("no such register")),
    }
}

/// Sets a register, named as `rN`, or a memory word, named as `memA`.
fn set_named_word(state: &mut State, name: &str, number: u64) -> Result<(), Fault> {
    let value = word(number)?;
    if let Some(place) = name.strip_prefix("mem") {
        return set_memory_word(state, place, value);
    }
    match name.strip_prefix('r') {
        Some(place) => set_register(state, place, value),
        None => Err(wrong("no such part of a state")),
    }
}

/// Sets the control address.
fn set_address(place: &mut u16, number: u64) -> Result<(), Fault> {
    *place = address(number)?;
    Ok(())
}

/// Sets a number of 32 bits.
fn set_number(place: &mut u32, number: u64) -> Result<(), Fault> {
    *place = word(number)?;
    Ok(())
}

/// Sets the flip-flops.
fn set_flips(place: &mut u16, number: u64) -> Result<(), Fault> {
    match u16::try_from(number) {
        Ok(flips) => {
            *place = flips;
            Ok(())
        }
        Err(_) => Err(wrong("no flip-flops")),
    }
}

/// Sets a part of a state, but for the sequencer.
fn set_part(state: &mut State, name: &str, number: u64) -> Result<(), Fault> {
    match name {
        "at" => set_address(&mut state.at, number),
        "q" => set_number(&mut state.q, number),
        "mar" => set_number(&mut state.mar, number),
        "ir" => set_number(&mut state.ir, number),
        "flips" => set_flips(&mut state.flips, number),
        _ => set_named_word(state, name, number),
    }
}

fn is_of_sequencer(name: &str) -> bool {
    matches!(name, "pc" | "r" | "sp" | "stack")
}

/// Sets the parts of a state that these words name, but for the sequencer.
fn set_parts(state: &mut State, words: &[String]) -> Result<(), Fault> {
    for part in words {
        match part.split_once('=') {
            Some((name, _)) if is_of_sequencer(name) => {}
            Some((name, number)) => {
                let number = hexadecimal(number)?;
                set_part(state, name, number)?;
            }
            None => return Err(wrong("a part of a state is NAME=NUMBER")),
        }
    }
    Ok(())
}

/// Sets the sequencer of a state of the board, which these words name whole.
fn set_sequencer(state: &mut State, board: &Board, words: &[String]) -> Result<(), Fault> {
    let seq = match sequencer_of(words) {
        Ok(seq) => seq,
        Err(fault) => return Err(fault),
    };
    if seq.depth() != board.depth() {
        return Err(wrong("a stack has as many words as the board's"));
    }
    state.seq = seq;
    Ok(())
}

/// Sets what the file `state` names of a state of the board.
fn set_state(alloc: Global, state: &mut State, board: &Board, files: &[File]) -> Result<(), Fault> {
    let words = file_words(alloc, files, "state")?;
    set_parts(state, &words)?;
    set_sequencer(state, board, &words)
}

/// The state of a file; what isn't named is 0, but for the sequencer, which is named whole.
pub fn state_of(alloc: Global, board: &Board, files: &[File]) -> Result<State, Fault> {
    let mut state = State::new(alloc, board)?;
    match set_state(alloc, &mut state, board, files) {
        Ok(()) => Ok(state),
        Err(fault) => {
            drop(state);
            Err(fault)
        }
    }
}

/// What the outside has for the cycle.
pub fn given_of(given: &[String]) -> Result<CycleIn, Fault> {
    if given.len() != 3 {
        return Err(wrong("`cycle` has three numbers"));
    }
    let noise = hexadecimal_of(given, "noise")?;
    let line = bit_of(given, "line")?;
    let input = word(hexadecimal_of(given, "input")?)?;
    match u16::try_from(noise) {
        Ok(noise) => Ok(CycleIn { noise, line, input }),
        Err(_) => Err(wrong("`noise=` has fourteen bits")),
    }
}
