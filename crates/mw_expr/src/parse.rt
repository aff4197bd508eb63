// Tokens to trees.
ghost use Rattle.std.specs.Prelude.{◌≡◌, List, ◌∷◌, IfOk, IfErr};
ghost use Rattle.mw_base.specs.declared.token.Token.{Token};
ghost use Rattle.mw_base.specs.Reading.{Fails, Gives};
ghost use Rattle.mw_expr.specs.Placed.{placed, known};
ghost use Rattle.mw_expr.specs.Grammar.{tree_from, tree_of};
ghost use Rattle.mw_expr.specs.Words.{meaning_seen};

use crate::follow::{Meaning, ended, follows};
use crate::placed::{Awaits, Open, Placed, State};
use mw_base::{Cursor, Refusal, Refused, Token, symbol_of};
use std::alloc::Global;

/// What is known after one token more.
#[tactic(auto, unfolding(crate::specs::Grammar::tree_from))]
fn next(
    alloc: Global,
    meaning: Meaning,
    cursor: &Cursor,
    state: State,
    token: Token,
) -> Result<State, Refusal>
    ensures goes { IfOk result (λ next. (rest : List Token) →
        tree_from (meaning_seen meaning.entry) cursor.now (known next) rest
        ≡ tree_from (meaning_seen meaning.entry) cursor.now (known state) (token ∷ rest)) }
    ensures refused { IfErr result (λ refusal. (rest : List Token) →
        Fails refusal (tree_from (meaning_seen meaning.entry) cursor.now (known state) (token ∷ rest))) }
{
    match follows(alloc, meaning, token, symbol_of(meaning.text, token), state)? {
        Some(next) => Ok(next),
        None => Err(Refused::At(cursor.misplaced(token))),
    }
}

/// The tree that the tokens of a line are. What it refuses is the grammar's.
#[tactic(auto, unfolding(crate::specs::Grammar::tree_from))]
pub(crate) fn tree_of(alloc: Global, meaning: Meaning, cursor: &Cursor) -> Result<Placed, Refusal>
    ensures { Gives placed result (tree_of (meaning_seen meaning.entry) cursor.now) }
{
    let mut state = State {
        awaits: Awaits::Operand,
        pending: Open::Nothing,
    };
    let tokens = cursor.tokens();
    for token in tokens {
        state = next(alloc, meaning, cursor, state, *token)?;
    }
    match ended(alloc, state)? {
        Some(tree) => Ok(tree),
        None => Err(Refused::At(cursor.end_fault())),
    }
}
