// What the lines of a machine before its statements declare.
ghost use Rattle.std.specs.Prelude.{◌≡◌, ◌<◌, OnOk, IfOk, length};
ghost use Rattle.mw_base.specs.Named.{names_seen};
ghost use Rattle.mw_base.specs.Reading.{Gives};
ghost use Rattle.mw_descfile.specs.Declarations.{no_elements, with_element, ranged, with_sizes, few, new_width};
ghost use Rattle.mw_descfile.specs.Declarations.{of_kind, with_more, with_declared};
ghost use Rattle.mw_descfile.specs.Views.{elements_seen, declared_seen};

use crate::declaration::Sizes;
use crate::element::{Element, Kind};
use mw_base::{
    Cause, Name, Names, NoMemory, Numeral, Refusal, Refused, TextFault, Token, fault_on, spelled,
};
use mw_macro::is_reserved;
use std::alloc::Global;

/// The most registers, and the most temporaries.
const MOST_ELEMENTS: usize = 128;

/// Registers, or temporaries, in file order.
#[derive(Drop)]
pub(crate) struct Elements {
    /// Their names.
    pub names: Vec<Name>,
    /// Their widths.
    pub widths: Vec<u8>,
}

/// What is declared by some lines.
#[derive(Drop)]
pub(crate) struct Declared<'a> {
    /// What names stand for.
    pub names: Names<'a, Element>,
    /// How many bits an address has.
    pub address: u8,
    /// How many bits a word of the memory has.
    pub word: u8,
    /// The registers.
    pub registers: Elements,
    /// The temporaries.
    pub temporaries: Elements,
}

/// A number in a range: cause 33.
pub(crate) fn ranged(low: u8, high: u8, number: Numeral) -> Result<u8, TextFault>
    ensures exact { result ≡ ranged low high number }
{
    if u128::from(low) <= number.value && number.value <= u128::from(high) {
        Ok(number.value as u8)
    } else {
        Err(fault_on(number.token, Cause::ValueTooWide))
    }
}

impl Elements {
    fn new(alloc: Global) -> Elements
        ensures { elements_seen result ≡ no_elements }
    {
        Elements {
            names: Vec::new(alloc),
            widths: Vec::new(alloc),
        }
    }

    /// One more. After a refusal they may only be dropped.
    fn push(&mut self, alloc: Global, name: &[u8], width: u8) -> Result<(), NoMemory>
        ensures { OnOk result (elements_seen self.new ≡ with_element name.now width (elements_seen self.old)) }
    {
        self.names.push(Name::new(alloc, name)?)?;
        self.widths.push(width)?;
        Ok(())
    }

    /// Whether one more can be declared: cause 14 at its name.
    fn check_room(&self, name: Token) -> Result<(), TextFault>
        ensures { result ≡ few (elements_seen self.now) name }
    {
        if self.names.len() < MOST_ELEMENTS {
            Ok(())
        } else {
            Err(fault_on(name, Cause::TooMany))
        }
    }
}

impl<'a> Declared<'a> {
    /// A memory of these sizes, and no element: cause 33.
    #[tactic(auto, unfolding(crate::specs::Declarations::with_sizes))]
    pub(crate) fn new(alloc: Global, sizes: Sizes) -> Result<Declared<'a>, Refusal>
        ensures { Gives declared_seen result (with_sizes sizes) }
    {
        let address = ranged(1, 16, sizes.address).map_err(Refused::At)?;
        let word = ranged(4, 32, sizes.word).map_err(Refused::At)?;
        Ok(Declared {
            names: Names::new(alloc),
            address,
            word,
            registers: Elements::new(alloc),
            temporaries: Elements::new(alloc),
        })
    }

    /// The elements of a kind.
    fn of_kind(&self, kind: Kind) -> &Elements
        ensures { elements_seen result.now ≡ of_kind kind (declared_seen self.now) }
    {
        match kind {
            Kind::Register => &self.registers,
            Kind::Temporary => &self.temporaries,
        }
    }

    /// The width of an element of a kind that can be declared: cause 14, 31 or 33 at its name, or 33 at its width.
    #[tactic(auto, unfolding(crate::specs::Declarations::new_width))]
    fn new_width(
        &self,
        text: &[u8],
        kind: Kind,
        name: Token,
        width: Numeral,
    ) -> Result<u8, TextFault>
        ensures exact { result ≡ new_width text.now (names_seen self.now.names)
            (of_kind kind (declared_seen self.now)) name width }
        ensures few { IfOk result (λ bits. length (of_kind kind (declared_seen self.now)).names < 128) }
    {
        self.of_kind(kind).check_room(name)?;
        self.names
            .check_new(text, name, is_reserved(spelled(text, name)))?;
        ranged(1, 32, width)
    }

    /// One more of a kind. After a refusal this may only be dropped.
    fn push(&mut self, alloc: Global, kind: Kind, name: &'a [u8], width: u8) -> Result<(), NoMemory>
        requires few { length (of_kind kind (declared_seen self.now)).names < 128 }
        ensures { OnOk result (declared_seen self.new ≡ with_more kind name.now width (declared_seen self.old)) }
    {
        let place = self.of_kind(kind).names.len() as u8;
        self.names.insert(name, Element { kind, place })?;
        match kind {
            Kind::Register => self.registers.push(alloc, name, width),
            Kind::Temporary => self.temporaries.push(alloc, name, width),
        }
    }

    /// An element that a line declares: cause 14, 31 or 33 at its name, or 33 at its width.
    #[tactic(auto, unfolding(crate::specs::Declarations::with_declared))]
    pub(crate) fn declare(
        &mut self,
        alloc: Global,
        text: &'a [u8],
        kind: Kind,
        name: Token,
        width: Numeral,
    ) -> Result<(), Refusal>
        ensures { Gives (λ done. declared_seen self.new) result
            (with_declared text.now kind name width (declared_seen self.old)) }
    {
        let bits = self
            .new_width(text, kind, name, width)
            .map_err(Refused::At)?;
        self.push(alloc, kind, spelled(text, name), bits)?;
        Ok(())
    }
}
