// Values.
ghost use Rattle.std.specs.Prelude.{◌≡◌, ℕ, ◌+◌, ◌<◌, ◌≤◌, ◌^◌, Option, Some, true, length, map, IsSome, IsOk, IfOk};
ghost use Rattle.mw_base.specs.Words as words;
ghost use Rattle.mw_expr.specs.Tree.{view, trees_of};
ghost use Rattle.mw_expr.specs.Widths.{width, total_width, width_after, count, join_width, width_of};
ghost use Rattle.mw_expr.specs.Values.{pair_value, value, joined, reads_memory, read_memory, AreWords, IsImage};

use crate::expr::{Expr, Pair2};
use crate::shape::Shape;

/// A word: its bits as a number, and how many they are.
#[derive(Clone, Copy)]
struct Word {
    value: u32,
    width: u8,
}

/// The word of so many bits, from 1 to 32, whose bits are all 1.
fn ones(width: u8) -> u32
    requires most { width ≤ 32 }
    ensures { result ≡ words.ones width }
{
    ((1u64 << width) - 1) as u32
}

impl Pair2 {
    /// What the sign makes of two words of the same width.
    #[tactic(auto, using(std::proofs::lemmas::Nat::or_lt, std::proofs::lemmas::Nat::xor_lt))]
    fn value(self, width: u8, a: u32, b: u32) -> u32
        requires most { width ≤ 32 }
        requires first { a < 2 ^ width }
        requires second { b < 2 ^ width }
        ensures exact { result ≡ pair_value self width a b }
        ensures below { result < 2 ^ width_after self width }
    {
        let past = 1u64 << width;
        match self {
            Pair2::And => a & b,
            Pair2::Or => a | b,
            Pair2::Xor => a ^ b,
            Pair2::Add => ((u64::from(a) + u64::from(b)) % past) as u32,
            Pair2::Sub => ((u64::from(a) + (past - u64::from(b))) % past) as u32,
            Pair2::Same => u32::from(a == b),
            Pair2::Differ => u32::from(a != b),
            Pair2::Less => u32::from(a < b),
        }
    }
}

/// A word put above another. Both together have at most 32 bits.
fn above(high: Word, low: Word) -> Word
    requires most { high.width + low.width ≤ 32 }
    requires high_below { high.value < 2 ^ high.width }
    requires low_below { low.value < 2 ^ low.width }
    ensures exact { result.value ≡ words.join low.width high.value low.value }
    ensures wide { result.width ≡ high.width + low.width }
    ensures below { result.value < 2 ^ result.width }
{
    Word {
        value: ((u64::from(high.value) << low.width) + u64::from(low.value)) as u32,
        width: high.width + low.width,
    }
}

/// The bits of a word from the place `low` on, so many.
fn part(word: Word, low: u8, width: u8) -> Word
    requires inside { low + width ≤ word.width }
    requires most { word.width ≤ 32 }
    ensures exact { result.value ≡ words.part low width word.value }
    ensures wide { result.width ≡ width }
    ensures below { result.value < 2 ^ result.width }
{
    Word {
        value: ((u64::from(word.value) >> low) % (1u64 << width)) as u32,
        width,
    }
}

/// The word that an expression with a width is.
#[cycle(words)]
fn word_of(expr: &Expr, shape: &Shape, values: &[u32], memory: &[u32]) -> Word
    requires wide { IsSome (width shape.now (view expr.now)) }
    requires values_fit { AreWords shape.now.widths values.now }
    requires memory_fits { reads_memory (view expr.now) ≡ true → IsImage shape.now memory.now }
    ensures exact { result.value ≡ value shape.now values.now memory.now (view expr.now) }
    ensures wide { width shape.now (view expr.now) ≡ Some result.width }
    ensures below { result.value < 2 ^ result.width }
    ensures range { (1 ≤ result.width) × (result.width ≤ 32) }
{
    match expr {
        Expr::Element(element) => Word {
            value: values[*element as usize],
            width: shape.widths.as_slice()[*element as usize],
        },
        Expr::Con(number, width) => Word {
            value: *number,
            width: *width,
        },
        Expr::Not(e) => {
            let operand = word_of(e, shape, values, memory);
            Word {
                value: ones(operand.width) - operand.value,
                width: operand.width,
            }
        }
        Expr::Two(sign, a, b) => {
            let left = word_of(a, shape, values, memory);
            let right = word_of(b, shape, values, memory);
            Word {
                value: sign.value(left.width, left.value, right.value),
                width: sign.width_after(left.width),
            }
        }
        Expr::Choose(condition, a, b) => {
            let chosen_by = word_of(condition, shape, values, memory);
            if chosen_by.value == 1 {
                word_of(a, shape, values, memory)
            } else {
                word_of(b, shape, values, memory)
            }
        }
        Expr::Part(e, high, low) => {
            let whole = word_of(e, shape, values, memory);
            part(whole, *low, *high - *low + 1)
        }
        Expr::Join(parts) => joined(parts, shape, values, memory),
        Expr::Widen(e, width) => Word {
            value: word_of(e, shape, values, memory).value,
            width: *width,
        },
        Expr::Memory(address) => Word {
            value: memory[word_of(address, shape, values, memory).value as usize],
            width: shape.word,
        },
    }
}

/// The word that the parts of a join with a width are, the first highest.
#[cycle(words)]
fn joined(parts: &[Expr], shape: &Shape, values: &[u32], memory: &[u32]) -> Word
    requires wide { IsSome
        (join_width (count (trees_of (map view parts.now))) (total_width shape.now (trees_of (map view parts.now)))) }
    requires values_fit { AreWords shape.now.widths values.now }
    requires memory_fits { read_memory (trees_of (map view parts.now)) ≡ true → IsImage shape.now memory.now }
    ensures exact { result.value ≡ joined shape.now values.now memory.now (trees_of (map view parts.now)) }
    ensures wide { join_width (count (trees_of (map view parts.now)))
        (total_width shape.now (trees_of (map view parts.now)))
        ≡ Some result.width }
    ensures below { result.value < 2 ^ result.width }
    ensures range { (1 ≤ result.width) × (result.width ≤ 32) }
{
    let mut whole = Word { value: 0, width: 0 };
    for part in parts {
        whole = above(whole, word_of(part, shape, values, memory));
    }
    whole
}

/// The value of an expression, where the elements have these values and the memory these words. It takes no memory of
/// its own.
///
/// The expression has a width over the shape, each value is a word of its element's width, and where the expression
/// reads the
/// memory there is a word for each address.
#[tactic(auto, unfolding(crate::specs::Widths::width_of))]
pub fn value(expr: &Expr, shape: &Shape, values: &[u32], memory: &[u32]) -> u32
    requires accepted { IsOk (width_of shape.now (view expr.now)) }
    requires values_fit { AreWords shape.now.widths values.now }
    requires memory_fits { reads_memory (view expr.now) ≡ true → IsImage shape.now memory.now }
    ensures exact { result ≡ value shape.now values.now memory.now (view expr.now) }
    ensures below { IfOk (width_of shape.now (view expr.now)) (λ width. result < 2 ^ width) }
{
    word_of(expr, shape, values, memory).value
}
