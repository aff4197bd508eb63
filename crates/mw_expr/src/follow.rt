// What a token leaves to follow.
ghost use Rattle.std.specs.Prelude.{◌≡◌, ℕ, List, ◌∷◌, ◌++◌, Option, Some, option_map, IfOk};
ghost use Rattle.mw_base.specs.Symbols.{spelled};
ghost use Rattle.mw_base.specs.declared.sign.Sign.TheVariants as signs;
ghost use Rattle.mw_expr.specs.Placed.{placed, opened, awaited, known, part, pairing, an_operand, a_sign};
ghost use Rattle.mw_expr.specs.Grammar.{state, number_by_name, pair_of, name_begins, sign_begins, begins, colon_ends};
ghost use Rattle.mw_expr.specs.Grammar.{parenthesis_ends, bracket_ends, comma_ends, brace_ends, pair_follows};
ghost use Rattle.mw_expr.specs.Grammar.{choice_follows, sign_follows, number_in, name_follows, this_follows};
ghost use Rattle.mw_expr.specs.Grammar.{operand_follows, follows, whole, ended, reduced};
ghost use Rattle.mw_expr.specs.Words.{meaning_seen};

use crate::expr::Pair2;
use crate::placed::{Awaits, Open, Placed, State};
use crate::reductions::{Reduced, reduce};
use mw_base::{Name, NoMemory, Numeral, Sign, Symbol, Token, spelled};
use std::alloc::Global;

/// What the words of a text mean.
#[derive(Clone, Copy)]
pub(crate) struct Meaning<'a> {
    /// The text.
    pub text: &'a [u8],
    /// The names of the elements.
    pub names: &'a [Name],
    /// Whether elements are NAME . NAME, else NAME.
    pub is_dotted: bool,
    /// Whether there is a memory.
    pub has_memory: bool,
}

fn awaiting(awaits: Awaits, pending: Open) -> Option<State>
    ensures { option_map known result ≡ Some (record { awaits = awaited awaits; open_now = opened pending }) }
{
    Some(State { awaits, pending })
}

/// The sign between two operands that this is.
fn pair_of(sign: Sign) -> Option<Pair2>
    ensures { result ≡ pair_of sign }
{
    match sign {
        Sign::And => Some(Pair2::And),
        Sign::Or => Some(Pair2::Or),
        Sign::Xor => Some(Pair2::Xor),
        Sign::Plus => Some(Pair2::Add),
        Sign::Minus => Some(Pair2::Sub),
        Sign::Same => Some(Pair2::Same),
        Sign::Differ => Some(Pair2::Differ),
        Sign::Less => Some(Pair2::Less),
        _ => None,
    }
}

/// The number of the element of this name, if there is one.
fn number_by_name(names: &[Name], name: &[u8]) -> Option<usize>
    ensures { result ≡ number_by_name names.now name.now }
{
    names.iter().position(|other| other.as_slice() == name)
}

/// The number of the element of these two names with a dot between them, if there is one.
fn number_of_dotted(
    alloc: Global,
    names: &[Name],
    owner: &[u8],
    name: &[u8],
) -> Result<Option<usize>, NoMemory>
    ensures { IfOk result (λ number. number ≡ number_by_name names.now (owner.now ++ 46 ∷ name.now)) }
{
    let mut whole = Vec::from_slice(alloc, owner)?;
    whole.push(b'.')?;
    whole.extend_from_slice(name)?;
    Ok(number_by_name(names, whole.as_slice()))
}

/// What a name leaves to follow where an operand begins.
fn name_begins(meaning: Meaning, token: Token, name: &[u8], below: Open) -> Option<State>
    ensures { option_map known result ≡ name_begins (meaning_seen meaning.entry) token name.now (opened below) }
{
    if name == b"mem".as_slice() {
        if meaning.has_memory {
            awaiting(Awaits::Bracket(token), below)
        } else {
            None
        }
    } else if name == b"zext".as_slice() {
        awaiting(Awaits::Parenthesis(token), below)
    } else if meaning.is_dotted {
        awaiting(Awaits::Dot(token), below)
    } else {
        let element = Placed::Element(
            token,
            number_by_name(meaning.names, spelled(meaning.text, token)),
        );
        awaiting(Awaits::Sign(element), below)
    }
}

/// What a sign leaves to follow where an operand begins.
fn sign_begins(
    alloc: Global,
    sign: Sign,
    token: Token,
    below: Open,
) -> Result<Option<State>, NoMemory>
    ensures { IfOk result (λ next. option_map known next ≡ sign_begins sign token (opened below)) }
{
    match sign {
        Sign::Not => {
            let below = Box::new(alloc, below)?;
            Ok(awaiting(Awaits::Operand, Open::Not(token, below)))
        }
        Sign::OpenParenthesis => {
            let below = Box::new(alloc, below)?;
            Ok(awaiting(Awaits::Operand, Open::Group(token, below)))
        }
        Sign::OpenBrace => {
            let below = Box::new(alloc, below)?;
            Ok(awaiting(Awaits::Operand, Open::Join(token, Vec::new(alloc), below)))
        }
        _ => Ok(None),
    }
}

/// What a token leaves to follow where an operand begins.
fn begins(
    alloc: Global,
    meaning: Meaning,
    token: Token,
    symbol: Symbol,
    below: Open,
) -> Result<Option<State>, NoMemory>
    ensures { IfOk result
        (λ next. option_map known next ≡ begins (meaning_seen meaning.entry) token symbol (opened below)) }
{
    match symbol {
        Symbol::Name => Ok(name_begins(meaning, token, spelled(meaning.text, token), below)),
        Symbol::Number(value) => Ok(awaiting(Awaits::Hash(Numeral { token, value }), below)),
        Symbol::Sign(sign) => sign_begins(alloc, sign, token, below),
        Symbol::Other => Ok(None),
    }
}

/// What a `:` leaves to follow after an operand.
fn colon_ends(alloc: Global, ended: Reduced) -> Result<Option<State>, NoMemory>
    ensures { IfOk result (λ next. option_map known next ≡ colon_ends (placed ended.tree) (opened ended.below)) }
{
    let Reduced {
        tree,
        below: pending,
    } = ended;
    match pending {
        Open::Choose(token, condition, below) => {
            let first = Box::new(alloc, tree)?;
            Ok(awaiting(Awaits::Operand, Open::Else(token, condition, first, below)))
        }
        _ => Ok(None),
    }
}

/// What a `)` leaves to follow after an operand.
fn parenthesis_ends(alloc: Global, ended: Reduced) -> Result<Option<State>, NoMemory>
    ensures { IfOk result (λ next. option_map known next ≡ parenthesis_ends (placed ended.tree) (opened ended.below)) }
{
    let Reduced {
        tree,
        below: pending,
    } = ended;
    match pending {
        Open::Group(token, below) => {
            let group = Placed::Group(token, Box::new(alloc, tree)?);
            Ok(awaiting(Awaits::Sign(group), Box::into_inner(below)))
        }
        _ => Ok(None),
    }
}

/// What a `]` leaves to follow after an operand.
fn bracket_ends(alloc: Global, ended: Reduced) -> Result<Option<State>, NoMemory>
    ensures { IfOk result (λ next. option_map known next ≡ bracket_ends (placed ended.tree) (opened ended.below)) }
{
    let Reduced {
        tree,
        below: pending,
    } = ended;
    match pending {
        Open::Memory(token, below) => {
            let memory = Placed::Memory(token, Box::new(alloc, tree)?);
            Ok(awaiting(Awaits::Sign(memory), Box::into_inner(below)))
        }
        _ => Ok(None),
    }
}

/// What a `,` leaves to follow after an operand.
fn comma_ends(ended: Reduced) -> Result<Option<State>, NoMemory>
    ensures { IfOk result (λ next. option_map known next ≡ comma_ends (placed ended.tree) (opened ended.below)) }
{
    let Reduced {
        tree,
        below: pending,
    } = ended;
    match pending {
        Open::Join(token, mut parts, below) => {
            parts.push(tree)?;
            Ok(awaiting(Awaits::Operand, Open::Join(token, parts, below)))
        }
        Open::Widen(token, below) => {
            Ok(awaiting(Awaits::NewWidth(token, tree), Box::into_inner(below)))
        }
        _ => Ok(None),
    }
}

/// What a `}` leaves to follow after an operand.
fn brace_ends(ended: Reduced) -> Result<Option<State>, NoMemory>
    ensures { IfOk result (λ next. option_map known next ≡ brace_ends (placed ended.tree) (opened ended.below)) }
{
    let Reduced {
        tree,
        below: pending,
    } = ended;
    match pending {
        Open::Join(token, mut parts, below) => {
            if parts.is_empty() {
                return Ok(None);
            }
            parts.push(tree)?;
            let join = Placed::Join(token, parts);
            Ok(awaiting(Awaits::Sign(join), Box::into_inner(below)))
        }
        _ => Ok(None),
    }
}

/// What a sign leaves to follow after its left operand.
fn right_follows(
    alloc: Global,
    op: Pair2,
    token: Token,
    left: Reduced,
) -> Result<Option<State>, NoMemory>
    ensures { IfOk result (λ next. option_map known next
        ≡ Some (state an_operand (pairing op token (placed left.tree) (opened left.below)))) }
{
    let tree = Box::new(alloc, left.tree)?;
    let below = Box::new(alloc, left.below)?;
    Ok(awaiting(Awaits::Operand, Open::Two(op, token, tree, below)))
}

/// What a sign between two operands leaves to follow.
fn pair_follows(
    alloc: Global,
    op: Option<Pair2>,
    token: Token,
    tree: Placed,
    below: Open,
) -> Result<Option<State>, NoMemory>
    ensures { IfOk result (λ next. option_map known next ≡ pair_follows op token (placed tree) (opened below)) }
{
    match op {
        None => Ok(None),
        Some(op) => right_follows(alloc, op, token, reduce(alloc, op.strength(), below, tree)?),
    }
}

/// What a `?` leaves to follow after an operand.
fn choice_follows(
    alloc: Global,
    token: Token,
    condition: Reduced,
) -> Result<Option<State>, NoMemory>
    ensures { IfOk result (λ next. option_map known next
        ≡ choice_follows token (record { tree = placed condition.tree; below = opened condition.below })) }
{
    let tree = Box::new(alloc, condition.tree)?;
    let below = Box::new(alloc, condition.below)?;
    Ok(awaiting(Awaits::Operand, Open::Choose(token, tree, below)))
}

/// What a sign after a whole operand leaves to follow.
fn sign_follows(
    alloc: Global,
    sign: Sign,
    token: Token,
    tree: Placed,
    below: Open,
) -> Result<Option<State>, NoMemory>
    ensures { IfOk result (λ next. option_map known next ≡ sign_follows sign token (placed tree) (opened below)) }
{
    match sign {
        Sign::OpenBracket => Ok(awaiting(Awaits::High(token, tree), below)),
        Sign::Question => choice_follows(alloc, token, reduce(alloc, 1, below, tree)?),
        Sign::Colon => colon_ends(alloc, reduce(alloc, 0, below, tree)?),
        Sign::CloseParenthesis => parenthesis_ends(alloc, reduce(alloc, 0, below, tree)?),
        Sign::CloseBracket => bracket_ends(alloc, reduce(alloc, 0, below, tree)?),
        Sign::Comma => comma_ends(reduce(alloc, 0, below, tree)?),
        Sign::CloseBrace => brace_ends(reduce(alloc, 0, below, tree)?),
        _ => pair_follows(alloc, pair_of(sign), token, tree, below),
    }
}

/// The number that a symbol is.
fn number_in(symbol: Symbol) -> Option<u128>
    ensures { result ≡ number_in symbol }
{
    match symbol {
        Symbol::Number(value) => Some(value),
        _ => None,
    }
}

/// What a sign leaves to follow, where it has to be this one.
fn this_follows(sign: Sign, symbol: Symbol, next: State) -> Option<State>
    ensures { option_map known result ≡ this_follows sign symbol (known next) }
{
    symbol.is_sign(sign).then_some(next)
}

/// What a name after the dot of an element leaves to follow.
fn member_follows(
    alloc: Global,
    meaning: Meaning,
    owner: Token,
    token: Token,
    symbol: Symbol,
    pending: Open,
) -> Result<Option<State>, NoMemory>
    ensures { IfOk result (λ next. option_map known next
        ≡ follows (meaning_seen meaning.entry) token symbol (awaited (Awaits.Member owner)) (opened pending)) }
{
    match symbol {
        Symbol::Name => {
            let owner_name = spelled(meaning.text, owner);
            let name = spelled(meaning.text, token);
            let number = number_of_dotted(alloc, meaning.names, owner_name, name)?;
            Ok(awaiting(Awaits::Sign(Placed::Element(owner, number)), pending))
        }
        _ => Ok(None),
    }
}

/// What a token leaves to follow after the last number of a part.
fn part_ends(
    alloc: Global,
    symbol: Symbol,
    from: Token,
    most: u128,
    least: u128,
    tree: Placed,
    pending: Open,
) -> Result<Option<State>, NoMemory>
    ensures { IfOk result (λ next. option_map known next
        ≡ this_follows signs.CloseBracket symbol
        (state (a_sign (part from most least (placed tree))) (opened pending))) }
{
    let part = Placed::Part(from, most, least, Box::new(alloc, tree)?);
    let awaits = Awaits::Sign(part);
    Ok(this_follows(Sign::CloseBracket, symbol, State { awaits, pending }))
}

/// What a token leaves to follow a number of a part and what came before it.
fn part_follows(
    alloc: Global,
    meaning: Meaning,
    token: Token,
    symbol: Symbol,
    from: Token,
    tree: Placed,
    most: u128,
    pending: Open,
) -> Result<Option<State>, NoMemory>
    ensures { IfOk result (λ next. option_map known next
        ≡ follows (meaning_seen meaning.entry) token symbol (awaited (Awaits.Colon from tree most)) (opened pending)) }
{
    if symbol.is_sign(Sign::Colon) {
        Ok(awaiting(Awaits::Low(from, tree, most), pending))
    } else {
        part_ends(alloc, symbol, from, most, most, tree, pending)
    }
}

/// What a token leaves to follow; nothing where it can't follow.
pub(crate) fn follows(
    alloc: Global,
    meaning: Meaning,
    token: Token,
    symbol: Symbol,
    state: State,
) -> Result<Option<State>, NoMemory>
    ensures { IfOk result (λ next. option_map known next
        ≡ follows (meaning_seen meaning.entry) token symbol (awaited state.awaits) (opened state.pending)) }
{
    let State { awaits, pending } = state;
    match awaits {
        Awaits::Operand => begins(alloc, meaning, token, symbol, pending),
        Awaits::Dot(owner) => {
            let awaits = Awaits::Member(owner);
            Ok(this_follows(Sign::Dot, symbol, State { awaits, pending }))
        }
        Awaits::Member(owner) => member_follows(alloc, meaning, owner, token, symbol, pending),
        Awaits::Bracket(word) => {
            let pending = Open::Memory(word, Box::new(alloc, pending)?);
            let awaits = Awaits::Operand;
            Ok(this_follows(Sign::OpenBracket, symbol, State { awaits, pending }))
        }
        Awaits::Parenthesis(word) => {
            let pending = Open::Widen(word, Box::new(alloc, pending)?);
            let awaits = Awaits::Operand;
            Ok(this_follows(Sign::OpenParenthesis, symbol, State { awaits, pending }))
        }
        Awaits::Hash(number) => {
            let awaits = Awaits::Width(number, token);
            Ok(this_follows(Sign::Hash, symbol, State { awaits, pending }))
        }
        Awaits::Width(number, hash) => match number_in(symbol) {
            Some(bits) => Ok(awaiting(Awaits::Sign(Placed::Con(number, hash, bits)), pending)),
            None => Ok(None),
        },
        Awaits::High(from, tree) => match number_in(symbol) {
            Some(most) => Ok(awaiting(Awaits::Colon(from, tree, most), pending)),
            None => Ok(None),
        },
        Awaits::Colon(from, tree, most) => part_follows(
            alloc, meaning, token, symbol, from, tree, most, pending,
        ),
        Awaits::Low(from, tree, most) => match number_in(symbol) {
            Some(least) => Ok(awaiting(Awaits::Close(from, tree, most, least), pending)),
            None => Ok(None),
        },
        Awaits::Close(from, tree, most, least) => {
            part_ends(alloc, symbol, from, most, least, tree, pending)
        }
        Awaits::NewWidth(word, tree) => match number_in(symbol) {
            Some(bits) => Ok(awaiting(Awaits::WidenEnd(word, tree, bits), pending)),
            None => Ok(None),
        },
        Awaits::WidenEnd(word, tree, bits) => {
            let widened = Placed::Widen(word, bits, Box::new(alloc, tree)?);
            let awaits = Awaits::Sign(widened);
            Ok(this_follows(Sign::CloseParenthesis, symbol, State { awaits, pending }))
        }
        Awaits::Sign(tree) => match symbol {
            Symbol::Sign(sign) => sign_follows(alloc, sign, token, tree, pending),
            _ => Ok(None),
        },
    }
}

/// The tree of an expression after which nothing is open.
fn whole(ended: Reduced) -> Option<Placed>
    ensures { option_map placed result ≡ whole (placed ended.tree) (opened ended.below) }
{
    let Reduced { tree, below } = ended;
    match below {
        Open::Nothing => Some(tree),
        _ => None,
    }
}

/// The tree of an expression that ends here, if one can.
pub(crate) fn ended(alloc: Global, state: State) -> Result<Option<Placed>, NoMemory>
    ensures { IfOk result (λ tree. option_map placed tree ≡ ended (awaited state.awaits) (opened state.pending)) }
{
    let State { awaits, pending } = state;
    match awaits {
        Awaits::Sign(tree) => Ok(whole(reduce(alloc, 0, pending, tree)?)),
        _ => Ok(None),
    }
}
