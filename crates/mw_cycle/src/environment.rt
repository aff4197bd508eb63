// The outside of a run: the interrupt line, the undefined bits, the wait bits and the input words.
ghost use Rattle.std.specs.Prelude.{◌≡◌, ◌∷◌, [], ◌<◌, ◌≤◌, ◌^◌, IfOk, OnOk, length, true};
ghost use Rattle.std.specs.Prelude.{slice_index, slice_index_or, take};
ghost use Rattle.mw_cycle.specs.Environment.{Environment, given_at, no_values, values_of, wait_bit};
ghost use Rattle.mw_cycle.specs.Trimmed.{shortened, trimmed};
ghost use Rattle.mw_cycle.specs.Environment.{with_value, with_values};
ghost use Rattle.mw_cycle.specs.Series.{width_of};

use crate::series::Series;
use crate::state::CycleIn;
use mw_base::{Event, NoMemory};
use std::alloc::Global;
use std::marker::Model;

/// How far a run has come.
#[derive(Clone, Copy, Debug, PartialEq, Eq)]
pub struct Clock {
    /// How many cycles were made.
    pub cycle: u64,
    /// How many input words were taken.
    pub taken: u64,
    /// How many clocks there were: the cycles, and the waits.
    pub clocks: u64,
}

impl Clock {
    ghost use Rattle.std.specs.Prelude.{◌+◌};
    ghost use Rattle.mw_cycle.specs.Environment.{at_start};
    ghost use Rattle.mw_cycle.specs.Run.{clock_after, waited};

    /// The place before the first clock.
    pub fn start() -> Clock
        ensures { result ≡ at_start }
    {
        Clock {
            cycle: 0,
            taken: 0,
            clocks: 0,
        }
    }

    /// The place after a wait.
    pub fn after_wait(self) -> Clock
        requires { self.clocks + 1 < 2 ^ 64 }
        ensures { result ≡ waited self }
    {
        Clock {
            clocks: self.clocks + 1,
            ..self
        }
    }

    /// The place after a cycle with this event, if any.
    pub fn after(self, event: Option<Event>) -> Clock
        requires cycle { self.cycle + 1 < 2 ^ 64 }
        requires taken { self.taken + 1 < 2 ^ 64 }
        requires clocks { self.clocks + 1 < 2 ^ 64 }
        ensures { result ≡ clock_after event self }
    {
        let taken = match event {
            Some(Event::Taken(_)) => self.taken + 1,
            _ => self.taken,
        };
        Clock {
            cycle: self.cycle + 1,
            taken,
            clocks: self.clocks + 1,
        }
    }
}

/// An environment: what isn't in a list is 0.
#[derive(Debug, Drop)]
pub struct Env {
    /// The interrupt line, by clock.
    pub line: Vec<bool>,
    /// The undefined bits, by clock, 14 bits each.
    pub noise: Vec<u16>,
    /// The wait bits, by clock: at 1, memory isn't ready in it.
    pub wait: Vec<bool>,
    /// The input words, by their number.
    pub inputs: Vec<u32>,
}

impl Model for Env {
    ghost use Rattle.mw_cycle.specs.Environment.{Environment};

    ghost Value = { Environment };

    ghost view = { λ e. record {
      line = e.line.items;
      noise = e.noise.items;
      wait = e.wait.items;
      inputs = e.inputs.items;
    } };
}

fn item_or<T: Copy>(items: &[T], place: u64, other: T) -> T
    ensures { result ≡ slice_index_or items.now place other }
{
    match usize::try_from(place) {
        Ok(place) => items.get(place).copied().unwrap_or(other),
        Err(_) => other,
    }
}

impl Env {
    /// What a run that came so far is given for its next clock.
    pub fn given(&self, clock: Clock) -> CycleIn
        ensures { result ≡ given_at self.now clock }
    {
        CycleIn {
            noise: item_or(&self.noise, clock.clocks, 0),
            line: item_or(&self.line, clock.clocks, false),
            input: item_or(&self.inputs, clock.taken, 0),
        }
    }

    /// The wait bit of the next clock of a run that came so far. It is 0 from clock 2^63 on, since no list is so long.
    pub fn waits(&self, clock: Clock) -> bool
        ensures exact { result ≡ wait_bit self.now clock }
        ensures early { result ≡ true → clock.clocks < 2 ^ 63 }
    {
        item_or(&self.wait, clock.clocks, false)
    }

    /// One that has nothing but 0.
    pub fn nothing(alloc: Global) -> Env
        ensures { result ≡ no_values }
    {
        Env {
            line: Vec::new(alloc),
            noise: Vec::new(alloc),
            wait: Vec::new(alloc),
            inputs: Vec::new(alloc),
        }
    }

    /// Another that is the same.
    ///
    /// # Errors
    ///
    /// Memory ran out.
    pub fn copied(&self, alloc: Global) -> Result<Env, NoMemory>
        ensures { IfOk result (λ env. env ≡ self.now) }
    {
        Ok(Env {
            line: Vec::from_slice(alloc, &self.line)?,
            noise: Vec::from_slice(alloc, &self.noise)?,
            wait: Vec::from_slice(alloc, &self.wait)?,
            inputs: Vec::from_slice(alloc, &self.inputs)?,
        })
    }

    /// How many values a list has.
    pub fn length(&self, series: Series) -> usize
        ensures { result ≡ length (values_of self.now series) }
    {
        match series {
            Series::Inputs => self.inputs.len(),
            Series::Line => self.line.len(),
            Series::Noise => self.noise.len(),
            Series::Wait => self.wait.len(),
        }
    }

    /// The value of a list with a number.
    pub fn value(&self, series: Series, number: usize) -> u32
        ensures { result ≡ slice_index (values_of self.now series) number }
    {
        match series {
            Series::Inputs => item_or(&self.inputs, number as u64, 0),
            Series::Line => u32::from(item_or(&self.line, number as u64, false)),
            Series::Noise => u32::from(item_or(&self.noise, number as u64, 0)),
            Series::Wait => u32::from(item_or(&self.wait, number as u64, false)),
        }
    }

    /// How many values a list has without the zeros at its end.
    pub fn kept(&self, series: Series) -> usize
        ensures exact { take result (values_of self.now series) ≡ trimmed (values_of self.now series) }
        ensures within { result ≤ length (values_of self.now series) }
    {
        let mut kept = self.length(series);
        while kept > 0 && self.value(series, kept - 1) == 0 {
            kept -= 1;
        }
        kept
    }

    /// Appends a value to a list.
    ///
    /// # Errors
    ///
    /// Memory ran out: the environment may only be dropped then.
    pub fn push(&mut self, series: Series, value: u32) -> Result<(), NoMemory>
        requires { value < 2 ^ width_of 32 series }
        ensures { OnOk result (self.new ≡ with_values series (value ∷ []) self.old) }
    {
        match series {
            Series::Inputs => self.inputs.push(value)?,
            Series::Line => self.line.push(value == 1)?,
            Series::Noise => self.noise.push(value as u16)?,
            Series::Wait => self.wait.push(value == 1)?,
        }
        Ok(())
    }

    /// Changes the value of a list with a number.
    pub fn set(&mut self, series: Series, number: usize, value: u32)
        requires there { number < length (values_of self.old series) }
        requires small { value < 2 ^ width_of 32 series }
        ensures { self.new ≡ with_value series number value self.old }
    {
        match series {
            Series::Inputs => self.inputs[number] = value,
            Series::Line => self.line[number] = value == 1,
            Series::Noise => self.noise[number] = value as u16,
            Series::Wait => self.wait[number] = value == 1,
        }
    }

    /// Takes the zeros off its lists' ends.
    pub fn shorten(&mut self)
        ensures { self.new ≡ shortened self.old }
    {
        let inputs = self.kept(Series::Inputs);
        let line = self.kept(Series::Line);
        let noise = self.kept(Series::Noise);
        let wait = self.kept(Series::Wait);
        self.inputs.truncate(inputs);
        self.line.truncate(line);
        self.noise.truncate(noise);
        self.wait.truncate(wait);
    }
}
