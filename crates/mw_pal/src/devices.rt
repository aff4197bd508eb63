// The devices of a PDP-8's console: the keyboard and the printer.
ghost use Rattle.std.specs.Prelude.{◌≡◌, ◌<◌, ◌≤◌, [], OnOk};
ghost use Rattle.mw_pal.specs.Devices.{transfer_of, is_keyboard, is_printer, asks, skip_if, clear_if, has_key};
ghost use Rattle.mw_pal.specs.Devices.{keyboard_status, status_of, data_of, keys_after};
ghost use Rattle.mw_pal.specs.Devices.{text_after, console_after};

use mw_base::{Event, NoMemory, bit};
use std::alloc::Global;
use std::marker::Model;

/// The device number of the keyboard.
const KEYBOARD: u32 = 3;

/// The device number of the printer.
const PRINTER: u32 = 4;

/// The status bit by which the next instruction is skipped.
const SKIP: u32 = 0o4000;

/// The status bit by which the accumulator is cleared.
const CLEAR: u32 = 0o2000;

/// An input/output transfer: what a step puts out to a device.
#[derive(Clone, Copy)]
pub(crate) struct Transfer {
    /// The number of the device.
    pub device: u32,
    /// The device's function, of three bits.
    pub function: u32,
    /// The accumulator.
    pub word: u32,
}

/// The transfer of a step with these events, if it makes one.
pub(crate) fn transfer_of(events: &[Event]) -> Option<Transfer>
    ensures { result ≡ transfer_of events.now }
{
    match events {
        [
            Event::Out(selection),
            Event::Out(word),
            Event::Taken(_),
            Event::Taken(_),
        ] => Some(Transfer {
            device: selection / 8,
            function: selection % 8,
            word: *word,
        }),
        _ => None,
    }
}

impl Transfer {
    /// Whether it is one with the keyboard.
    fn is_keyboard(self) -> bool
        ensures { result ≡ is_keyboard self }
    {
        self.device == KEYBOARD
    }

    /// Whether it is one with the printer.
    fn is_printer(self) -> bool
        ensures { result ≡ is_printer self }
    {
        self.device == PRINTER
    }

    /// Whether a bit of its function is set; bit 0 is the least.
    fn asks(self, place: u8) -> bool
        requires { place < 3 }
        ensures { result ≡ asks self place }
    {
        bit(self.function, place)
    }
}

/// The status bit of a device that is ready or not.
fn skip_if(is_ready: bool) -> u32
    ensures exact { result ≡ skip_if is_ready }
    ensures below { result ≤ 0o4000 }
{
    if is_ready { SKIP } else { 0 }
}

/// The status bit that clears the accumulator, or not.
fn clear_if(is_asked: bool) -> u32
    ensures { result ≡ clear_if is_asked }
{
    if is_asked { CLEAR } else { 0 }
}

/// The keys that are left, and the text so far.
#[derive(Drop)]
pub(crate) struct Console<'a> {
    keys: &'a [u8],
    text: Vec<u8>,
}

impl<'a> Model for Console<'a> {
    ghost use Rattle.mw_pal.specs.Devices.{Console as Seen};

    ghost Value = { Seen };

    ghost view = { λ c. record { keys = c.keys.now; text = c.text.items } };
}

impl<'a> Console<'a> {
    /// A console with these keys, which has printed nothing.
    pub fn new(alloc: Global, keys: &'a [u8]) -> Console<'a>
        ensures { result ≡ record { keys = keys.now; text = [] } }
    {
        Console {
            keys,
            text: Vec::new(alloc),
        }
    }

    /// The text so far.
    pub fn into_text(self) -> Vec<u8>
        ensures { result.items ≡ self.entry.text }
    {
        self.text
    }

    /// Whether a key is left.
    fn has_key(&self) -> bool
        ensures { result ≡ has_key self.now }
    {
        !self.keys.is_empty()
    }

    /// The keyboard's status.
    fn keyboard_status(&self, transfer: Transfer) -> u32
        ensures exact { result ≡ keyboard_status self.now transfer }
        ensures below { result < 4096 }
    {
        skip_if(transfer.asks(0) & self.has_key()) | clear_if(transfer.asks(1))
    }

    /// The status that a transfer gets.
    pub fn status(&self, transfer: Transfer) -> u32
        ensures exact { result ≡ status_of self.now transfer }
        ensures below { result < 4096 }
    {
        if transfer.is_keyboard() {
            self.keyboard_status(transfer)
        } else {
            skip_if(transfer.is_printer() & transfer.asks(0))
        }
    }

    /// The data that a transfer gets.
    pub fn data(&self, transfer: Transfer) -> u32
        ensures exact { result ≡ data_of self.now transfer }
        ensures below { result < 4096 }
    {
        if transfer.is_keyboard() & transfer.asks(2) {
            self.keys.first().map_or(0, |key| u32::from(*key))
        } else {
            0
        }
    }

    /// Drops the key that a transfer has read.
    fn drop_key(&mut self, transfer: Transfer)
        ensures { self.new ≡ record self.old { keys = keys_after self.old transfer } }
    {
        if transfer.is_keyboard() & transfer.asks(1) {
            self.keys = self.keys.get(1..).unwrap_or(&[]);
        }
    }

    /// Prints what a transfer puts out.
    fn print(&mut self, transfer: Transfer) -> Result<(), NoMemory>
        ensures { OnOk result (self.new ≡ record self.old { text = text_after self.old transfer }) }
    {
        if transfer.is_printer() & transfer.asks(2) {
            self.text.push((transfer.word % 256) as u8)?;
        }
        Ok(())
    }

    /// Makes the transfer of a step, if there is one.
    pub fn make(&mut self, transfer: Option<Transfer>) -> Result<(), NoMemory>
        ensures { OnOk result (self.new ≡ console_after self.old transfer) }
    {
        if let Some(transfer) = transfer {
            self.drop_key(transfer);
            self.print(transfer)?;
        }
        Ok(())
    }
}
