// How many cofactors functions have at most.
ghost use Rattle.std.specs.Prelude.{◌≡◌, ◌⊎◌, ◌+◌, [], ◌<◌, ◌≤◌, ◌*◌, ◌^◌, ℕ, List, length, true};
ghost use Rattle.std.specs.Prelude.{slice_get, Some, IfOk, IfSome, OnOk};
ghost use Rattle.mw_term.specs.Cofactors.{HasAtMostCofactors};
ghost use Rattle.mw_dd.specs.declared.nodes.Node as node;
ghost use Rattle.mw_dd.specs.declared.nodes.Triple as declared;
ghost use Rattle.mw_dd.specs.Nodes.{IsDd, IsReduced};
ghost use Rattle.mw_dd.specs.Steps.{AreDds, meaning};
ghost use Rattle.mw_dd.specs.Kept.{IsKept, AreMade, AreCounts};
ghost use Rattle.mw_dd.specs.Bounds.{Has, IsNoted, IsWalked, HasNodes, IsBound, AreBounds, AreFew};
ghost use Rattle.mw_dd.specs.Bounds.{AreComplements, IsOwn, Determine};

use crate::dd::Dd;
use crate::kept::Kept;
use crate::nodes::{Node, Triple, inner};
use crate::unique_table::Nodes;
use mw_base::NoMemory;
use std::alloc::Global;
use std::marker::Model;

/// The most nodes of a function that are counted: a walk over so many is short beside what made the function.
const MOST_COUNTED: usize = 8192;

/// In place of how many nodes a function has: more than are counted.
const MANY: u16 = 0xffff;

/// Whether a node was found, by the place at which it would be.
fn is_found(found: &[Dd], places: &[u16], x: Dd) -> bool
    ensures { result ≡ true → Has found.now x }
{
    let at = x.position() as usize;
    if at >= places.len() {
        return false;
    }
    let place = places[at] as usize;
    if place >= found.len() {
        return false;
    }
    found[place] == x
}

/// Puts a node behind those that were found, unless it is among them.
fn note(found: &mut Vec<Dd>, places: &mut [u16], x: Dd) -> Result<(), NoMemory>
    requires { length found.old.items < 2 ^ 16 }
    ensures noted { OnOk result (IsNoted found.old.items found.new.items x) }
    ensures few { OnOk result (length found.new.items ≤ length found.old.items + 1) }
{
    if is_found(found, places, x) {
        return Ok(());
    }
    let at = x.position() as usize;
    if at < places.len() {
        places[at] = found.len() as u16;
    }
    found.push(x)?;
    Ok(())
}

/// Puts the branches of a node behind those that were found.
fn note_branches(
    nodes: &Nodes,
    found: &mut Vec<Dd>,
    places: &mut [u16],
    x: Dd,
) -> Result<(), NoMemory>
    requires reduced { IsReduced nodes.now }
    requires there { IsDd nodes.now x }
    requires few { length found.old.items < 2 ^ 15 }
    ensures { OnOk result (IsWalked nodes.now found.old.items found.new.items x) }
{
    if x.position() < 2 {
        return Ok(());
    }
    let node = inner(nodes, x);
    note(found, places, node.low)?;
    note(found, places, node.high)
}

/// How many nodes there are below one, with it and the constants: none where there are more than `MOST`.
fn walk(
    nodes: &Nodes,
    found: &mut Vec<Dd>,
    places: &mut [u16],
    x: Dd,
) -> Result<Option<u16>, NoMemory>
    requires reduced { IsReduced nodes.now }
    requires there { IsDd nodes.now x }
    ensures { IfOk result (λ o. IfSome o (HasNodes nodes.now x)) }
{
    found.clear();
    note(found, places, x)?;
    for at in 0..=MOST_COUNTED {
        let count = found.len();
        if at >= count {
            return Ok(Some(count as u16));
        }
        if count > MOST_COUNTED {
            return Ok(None);
        }
        let y = found[at];
        note_branches(nodes, found, places, y)?;
    }
    Ok(None)
}

/// How many cofactors functions have at most, seen as the list of what is known of each node, by its position: how many
/// nodes are below it, with it and the constants, 0 where it was never asked for, and `MANY` where there are more nodes
/// than are counted. The nodes that a walk found, and their places, are a sparse set (Briggs, Torczon): what stands in
/// `places` counts only where `found` has it.
#[derive(Drop)]
pub(crate) struct Bounds {
    /// What is known of each node.
    counts: Vec<u16>,
    /// The nodes that the last walk found.
    found: Vec<Dd>,
    /// The place of each of these in `found`, by its position; anything for other nodes.
    places: Vec<u16>,
}

impl Model for Bounds {
    ghost use Rattle.std.specs.Prelude.{List, ℕ};

    ghost Value = { List ℕ };

    ghost view = { λ b. b.counts.items };
}

/// Whether the product of three numbers is within a budget.
fn is_product_within(f: u64, g: u64, h: u64, budget: u32) -> bool
    ensures { result ≡ true → f * (g * h) ≤ budget }
{
    f.saturating_mul(g.saturating_mul(h)) <= u64::from(budget)
}

impl Bounds {
    /// No bounds.
    pub(crate) fn new(alloc: Global) -> Bounds
        ensures { result ≡ [] }
    {
        Bounds {
            counts: Vec::new(alloc),
            found: Vec::new(alloc),
            places: Vec::new(alloc),
        }
    }

    /// What is known of a node: 0 where it was never asked for.
    fn known(&self, x: Dd) -> u16
        ensures { result ≡ 0 ⊎ (slice_get self.now x ≡ Some result) }
    {
        let at = x.position() as usize;
        if at < self.counts.len() {
            self.counts[at]
        } else {
            0
        }
    }

    /// How many nodes there are below one, with it and the constants: `MANY` where there are more than are counted.
    fn count(&mut self, nodes: &Nodes, x: Dd) -> Result<u16, NoMemory>
        requires reduced { IsReduced nodes.now }
        requires there { IsDd nodes.now x }
        ensures bound { IfOk result (IsBound nodes.now x) }
        ensures same { self.new ≡ self.old }
    {
        // The last two nodes are met once at most, and need no place.
        self.places.resize(nodes.len(), 0)?;
        match walk(nodes, &mut self.found, &mut self.places, x)? {
            Some(count) => Ok(count),
            None => Ok(MANY),
        }
    }

    /// Counts the nodes below one, unless that was done before.
    fn look(&mut self, nodes: &Nodes, x: Dd) -> Result<(), NoMemory>
        requires reduced { IsReduced nodes.now }
        requires there { IsDd nodes.now x }
        requires right { AreBounds nodes.now self.old }
        ensures right { AreBounds nodes.now self.new }
    {
        if x.position() < 2 || self.known(x) > 0 {
            return Ok(());
        }
        let count = self.count(nodes, x)?;
        self.learn(x, count)
    }

    /// Keeps what is known of a node.
    fn learn(&mut self, x: Dd, count: u16) -> Result<(), NoMemory>
        ensures { (nodes : List node.Node) → IsBound nodes x count → AreBounds nodes self.old
            → AreBounds nodes self.new }
    {
        let at = x.position() as usize;
        if at >= self.counts.len() {
            self.counts.resize(at + 1, 0)?;
        }
        self.counts[at] = count;
        Ok(())
    }

    /// How many nodes there are at most below one, with it and the constants: as many as were counted, or as there
    /// are at all up to its own place.
    fn bound(&self, x: Dd) -> u64
        ensures { (nodes : List node.Node) → IsReduced nodes → IsDd nodes x → AreBounds nodes self.now
            → HasNodes nodes x result }
    {
        if x.position() < 2 {
            return 1;
        }
        let count = self.known(x);
        if count > 0 && count < MANY {
            return u64::from(count);
        }
        u64::from(x.position()) + 1
    }

    /// Whether the product of the bounds of three functions, as far as they are known, is within a budget.
    fn are_few(&self, t: &Triple, budget: u32) -> bool
        ensures { result ≡ true → (nodes : List node.Node) → IsReduced nodes → AreDds nodes t.now
            → AreBounds nodes self.now → AreFew nodes t.now budget }
    {
        is_product_within(self.bound(t.f), self.bound(t.g), self.bound(t.h), budget)
    }

    /// The same, once the nodes below one are counted.
    fn are_few_once_counted(
        &mut self,
        nodes: &Nodes,
        x: Dd,
        t: &Triple,
        budget: u32,
    ) -> Result<bool, NoMemory>
        requires reduced { IsReduced nodes.now }
        requires own { IsDd nodes.now x }
        requires there { AreDds nodes.now t.now }
        requires right { AreBounds nodes.now self.old }
        ensures within { IfOk result (λ b. b ≡ true → AreFew nodes.now t.now budget) }
        ensures right { AreBounds nodes.now self.new }
    {
        self.look(nodes, x)?;
        Ok(self.are_few(t, budget))
    }

    /// Whether the product of the bounds of three functions is within a budget: then three whose values these tell
    /// can't have more joint cofactors. Nodes are counted only where it matters.
    ///
    /// # Errors
    ///
    /// Memory ran out.
    pub(crate) fn are_within(
        &mut self,
        nodes: &Nodes,
        t: &Triple,
        budget: u32,
    ) -> Result<bool, NoMemory>
        requires reduced { IsReduced nodes.now }
        requires there { AreDds nodes.now t.now }
        requires right { AreBounds nodes.now self.old }
        ensures within { IfOk result (λ b. b ≡ true → AreFew nodes.now t.now budget) }
        ensures right { AreBounds nodes.now self.new }
    {
        if self.are_few(t, budget) {
            return Ok(true);
        }
        if self.are_few_once_counted(nodes, t.f, t, budget)? {
            return Ok(true);
        }
        if self.are_few_once_counted(nodes, t.g, t, budget)? {
            return Ok(true);
        }
        self.are_few_once_counted(nodes, t.h, t, budget)
    }
}

/// Whether an operation was counted, and is within a budget.
fn was_within(counts: &Kept, t: &Triple, budget: u32) -> bool
    ensures { result ≡ true → (n : ℕ) × (n ≤ budget) × IsKept counts.now t.now n }
{
    match counts.get(t) {
        Some(count) => count <= budget,
        None => false,
    }
}

/// Whether one function is known to be the complement of another: by the kept result of the operation that complements
/// it.
fn is_known_complement(results: &Kept, x: Dd, y: Dd) -> bool
    ensures { result ≡ true → (nodes : List node.Node) → AreMade nodes results.now → AreComplements nodes x y }
{
    let negation = Triple {
        f: y,
        g: Dd::at(0),
        h: Dd::at(1),
    };
    match results.get(&negation) {
        Some(position) => position == x.position(),
        None => false,
    }
}

/// A function; or the constant 0, where another is known to tell its values: it is the same, or the complement.
fn unless_told(results: &Kept, x: Dd, by: Dd) -> Dd
    ensures there { (nodes : List node.Node) → IsDd nodes x → IsDd nodes result }
    ensures own { (nodes : List node.Node) → AreMade nodes results.now → IsOwn nodes x by result }
{
    if x == by || is_known_complement(results, x, by) || is_known_complement(results, by, x) {
        return Dd::at(0);
    }
    x
}

/// Functions that tell the values of those of an operation: the constant 0 stands in place of one that another is known
/// to tell.
fn telling(results: &Kept, t: &Triple) -> Triple
    ensures there { (nodes : List node.Node) → AreDds nodes t.now → AreDds nodes result }
    ensures determine { (nodes : List node.Node) → AreMade nodes results.now → Determine nodes result t.now }
{
    let g = unless_told(results, t.g, t.f);
    let h = unless_told(results, t.h, t.f);
    // Of two complements the earlier one stays: fewer nodes stand up to its place, and mostly they were counted before.
    if g.position() < h.position() {
        return Triple {
            f: t.f,
            g,
            h: unless_told(results, h, g),
        };
    }
    Triple {
        f: t.f,
        g: unless_told(results, g, h),
        h,
    }
}

/// Whether it is known of an operation that it is within a budget: since it was counted, or by the bounds of functions
/// that tell the values of its own.
///
/// # Errors
///
/// Memory ran out.
pub(crate) fn is_within(
    nodes: &Nodes,
    results: &Kept,
    counts: &Kept,
    bounds: &mut Bounds,
    t: &Triple,
    budget: u32,
) -> Result<bool, NoMemory>
    requires reduced { IsReduced nodes.now }
    requires there { AreDds nodes.now t.now }
    requires made { AreMade nodes.now results.now }
    requires counted { AreCounts nodes.now counts.now }
    requires bounded { AreBounds nodes.now bounds.old }
    ensures within { IfOk result (λ b. b ≡ true → HasAtMostCofactors (meaning nodes.now t.now) budget) }
    ensures bounded { AreBounds nodes.now bounds.new }
{
    if was_within(counts, t, budget) {
        return Ok(true);
    }
    bounds.are_within(nodes, &telling(results, t), budget)
}
