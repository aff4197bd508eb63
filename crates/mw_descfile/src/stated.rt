// What the statements of a machine say, line by line.
ghost use Rattle.std.specs.Prelude.{◌≡◌, ◌≤◌, List, OnOk, IfOk, length, map, option_map};
ghost use Rattle.mw_base.specs.Named.{names_seen};
ghost use Rattle.mw_base.specs.Reading.{Gives};
ghost use Rattle.mw_expr.specs.Tree.{view};
ghost use Rattle.mw_expr.specs.Text.{IsShape};
ghost use Rattle.mw_expr.specs.Written.{written};
ghost use Rattle.mw_macro.specs.Statements.{act_of};
ghost use Rattle.mw_descfile.specs.Kept.{IsDeclared, IsStated};
ghost use Rattle.mw_descfile.specs.Machine.{description, machine_unless};
ghost use Rattle.mw_macro.specs.Described.{description_of};
ghost use Rattle.mw_descfile.specs.Stating.{scope_of, begun, can_else, can_end, blocks_of, target_of, room, shallow};
ghost use Rattle.mw_descfile.specs.Stating.{with_act, with_assign, with_write, with_put, with_take, with_open, with_if};
ghost use Rattle.mw_descfile.specs.Stating.{other_list, closed_if, ended, with_said, with_stated};
ghost use Rattle.mw_descfile.specs.Views.{declared_seen, said_seen, over_seen, stated_seen, whole_seen};

use crate::declared::{Declared, Elements};
use crate::element::Element;
use crate::expression::{Whole, check_asked, whole_of};
use crate::said::{Blocks, Said, said_of};
use crate::scope::Scope;
use mw_base::{
    Cause, Cursor, Items, Line, Name, Names, NoMemory, Refusal, Refused, TextFault, Token,
    fault_on, spelled,
};
use mw_expr::{Expr, Shape, Written};
use mw_macro::{Machine, Statement};
use std::alloc::Global;
use std::mem::replace;

/// The most statements.
const MOST_STATEMENTS: usize = 4096;

/// The most memory reads.
const MOST_READS: usize = 256;

/// How many `if`s may stand in one another.
const MOST_LEVELS: usize = 64;

/// What statements are over.
#[derive(Drop)]
pub(crate) struct Over<'a> {
    /// What names stand for as targets.
    pub names: Names<'a, Element>,
    /// How many registers there are.
    pub registers: u8,
    /// How many registers and temporaries there are.
    pub elements: usize,
    /// What expressions are over: the registers, the temporaries and the request.
    pub scope: Scope,
}

/// An `if` whose `end` hasn't come.
#[derive(Drop)]
pub(crate) struct OpenIf {
    /// Its condition.
    pub condition: Expr,
    /// The statements before it in the list in which it stands.
    pub before: Vec<Statement>,
    /// Its first list, where its `else` has come.
    pub first: Option<Vec<Statement>>,
}

/// What is known after some lines of statements.
#[derive(Drop)]
pub(crate) struct Stated<'a> {
    /// What they are over.
    pub over: Over<'a>,
    /// How many more statements there may be.
    pub statements_left: usize,
    /// How many more memory reads there may be.
    pub reads_left: usize,
    /// The statements so far of the list that is open.
    pub acts: Vec<Statement>,
    /// The open `if`s, the innermost last.
    pub open_ifs: Vec<OpenIf>,
}

impl<'a> Over<'a> {
    /// The element that a name stands for as a target: cause 40.
    #[tactic(auto, unfolding(crate::specs::Stating::target_of))]
    fn target_of(&self, text: &[u8], name: Token) -> Result<u32, TextFault>
        ensures { result ≡ target_of text.now (over_seen self.now) name }
    {
        match self.names.get(spelled(text, name)) {
            Some(element) => Ok(element.number_in(self.registers)),
            None => Err(fault_on(name, Cause::UnknownElement)),
        }
    }

    /// The shape of expressions.
    fn shape(&self) -> &Shape
        ensures { result.now ≡ self.now.scope.shape }
    {
        &self.scope.shape
    }
}

impl<'a> Stated<'a> {
    /// Before the first statement of these declarations.
    pub(crate) fn begin(alloc: Global, declared: Declared<'a>) -> Result<Stated<'a>, NoMemory>
        requires kept { IsDeclared (declared_seen declared) }
        ensures { IfOk result (λ stated. stated_seen stated ≡ begun (declared_seen declared.entry)) }
    {
        let Declared {
            names: meant,
            address,
            word,
            registers,
            temporaries,
        } = declared;
        let Elements {
            mut names,
            mut widths,
        } = registers;
        let Elements {
            names: mut other_names,
            widths: other_widths,
        } = temporaries;
        let registers = names.len() as u8;
        names.append(&mut other_names)?;
        widths.extend_from_slice(&other_widths)?;
        let elements = names.len();
        names.push(Name::new(alloc, b"request")?)?;
        widths.push(1)?;
        Ok(Stated {
            over: Over {
                names: meant,
                registers,
                elements,
                scope: Scope {
                    names: Items::from_vec(names),
                    shape: Shape {
                        widths: Items::from_vec(widths),
                        address,
                        word,
                    },
                },
            },
            statements_left: MOST_STATEMENTS,
            reads_left: MOST_READS,
            acts: Vec::new(alloc),
            open_ifs: Vec::new(alloc),
        })
    }

    /// Which of `else` and `end` can stand on the next line.
    fn blocks(&self) -> Blocks
        ensures { result ≡ blocks_of (stated_seen self.now).open_ifs }
    {
        match self.open_ifs.last() {
            Some(top) => Blocks {
                can_else: top.first.is_none(),
                can_end: true,
            },
            None => Blocks {
                can_else: false,
                can_end: false,
            },
        }
    }

    /// Whether a statement more may stand: cause 14 at its first token.
    fn check_room(&self, first: Token) -> Result<(), TextFault>
        ensures { result ≡ room self.now.statements_left first }
    {
        if self.statements_left > 0 {
            Ok(())
        } else {
            Err(fault_on(first, Cause::TooMany))
        }
    }

    /// Whether an `if` may stand in those that are open: cause 42 at it.
    fn check_shallow(&self, word: Token) -> Result<(), TextFault>
        ensures { result ≡ shallow (stated_seen self.now).open_ifs word }
    {
        if self.open_ifs.len() < MOST_LEVELS {
            Ok(())
        } else {
            Err(fault_on(word, Cause::TooDeep))
        }
    }

    /// One statement more in the list that is open. After a refusal this may only be dropped.
    fn push(&mut self, act: Statement, reads_left: usize) -> Result<(), NoMemory>
        ensures { OnOk result (stated_seen self.new ≡ with_act (act_of act) reads_left (stated_seen self.old)) }
    {
        self.acts.push(act)?;
        self.statements_left = self.statements_left.saturating_sub(1);
        self.reads_left = reads_left;
        Ok(())
    }

    /// NAME := E: cause 14 or 40 at the name, 41 at the `:=`, and the value's own.
    #[tactic(auto, unfolding(crate::specs::Stating::with_assign))]
    fn add_assign(
        &mut self,
        alloc: Global,
        text: &[u8],
        name: Token,
        sign: Token,
        value: &Written,
    ) -> Result<(), Refusal>
        requires proper { IsShape self.old.over.scope.shape }
        ensures { Gives (λ done. stated_seen self.new) result
            (with_assign text.now name sign (written value.now) (stated_seen self.old)) }
    {
        self.check_room(name).map_err(Refused::At)?;
        let target = self.over.target_of(text, name).map_err(Refused::At)?;
        let width = self.over.scope.width_of(target as usize);
        let whole = self
            .over
            .scope
            .whole_of(alloc, self.reads_left, width, sign, value)?;
        self.push(
            Statement::Assign {
                target,
                value: whole.expr,
            },
            whole.left,
        )?;
        Ok(())
    }

    /// mem [ E ] := E: cause 14 or 41 at `mem`, the address's own, 41 at the `:=`, and the value's own.
    #[tactic(auto, unfolding(crate::specs::Stating::with_write))]
    fn add_write(
        &mut self,
        alloc: Global,
        word: Token,
        address: &Written,
        sign: Token,
        value: &Written,
    ) -> Result<(), Refusal>
        requires proper { IsShape self.old.over.scope.shape }
        ensures { Gives (λ done. stated_seen self.new) result
            (with_write word (written address.now) sign (written value.now) (stated_seen self.old)) }
    {
        self.check_room(word).map_err(Refused::At)?;
        let address_width = self.over.shape().address;
        let word_width = self.over.shape().word;
        let place = self
            .over
            .scope
            .whole_of(alloc, self.reads_left, address_width, word, address)?;
        let whole = self
            .over
            .scope
            .whole_of(alloc, place.left, word_width, sign, value)?;
        self.push(
            Statement::Write {
                address: place.expr,
                value: whole.expr,
            },
            whole.left,
        )?;
        Ok(())
    }

    /// put E: cause 14 or 41 at `put`, and the value's own.
    #[tactic(auto, unfolding(crate::specs::Stating::with_put))]
    fn add_put(&mut self, alloc: Global, word: Token, value: &Written) -> Result<(), Refusal>
        requires proper { IsShape self.old.over.scope.shape }
        ensures { Gives (λ done. stated_seen self.new) result
            (with_put word (written value.now) (stated_seen self.old)) }
    {
        self.check_room(word).map_err(Refused::At)?;
        let width = self.over.shape().word;
        let whole = self
            .over
            .scope
            .whole_of(alloc, self.reads_left, width, word, value)?;
        self.push(Statement::Put(whole.expr), whole.left)?;
        Ok(())
    }

    /// take NAME: cause 14 or 41 at `take`, 40 at the name.
    #[tactic(auto, unfolding(crate::specs::Stating::with_take))]
    fn add_take(&mut self, text: &[u8], word: Token, name: Token) -> Result<(), Refusal>
        ensures { Gives (λ done. stated_seen self.new) result (with_take text.now word name (stated_seen self.old)) }
    {
        self.check_room(word).map_err(Refused::At)?;
        let target = self.over.target_of(text, name).map_err(Refused::At)?;
        let width = self.over.shape().word;
        check_asked(self.over.scope.width_of(target as usize), word, Some(width)).map_err(
            Refused::At,
        )?;
        self.push(Statement::Take(target), self.reads_left)?;
        Ok(())
    }

    /// if E: cause 14, 41 or 42 at `if`, and the condition's own.
    #[tactic(auto, unfolding(crate::specs::Stating::with_if))]
    fn add_if(&mut self, alloc: Global, word: Token, condition: &Written) -> Result<(), Refusal>
        requires proper { IsShape self.old.over.scope.shape }
        ensures { Gives (λ done. stated_seen self.new) result
            (with_if word (written condition.now) (stated_seen self.old)) }
    {
        self.check_room(word).map_err(Refused::At)?;
        let mut first = None;
        let seen = condition.check(self.over.shape(), &mut first);
        check_asked(1, word, seen).map_err(Refused::At)?;
        self.check_shallow(word).map_err(Refused::At)?;
        let whole = whole_of(alloc, self.over.shape(), self.reads_left, condition, first)?;
        self.push_if(alloc, whole)?;
        Ok(())
    }

    /// An `if` of this condition in the list that is open. After a refusal this may only be dropped.
    fn push_if(&mut self, alloc: Global, whole: Whole) -> Result<(), NoMemory>
        ensures { OnOk result (stated_seen self.new ≡ with_open (whole_seen whole) (stated_seen self.old)) }
    {
        let before = replace(&mut self.acts, Vec::new(alloc));
        self.open_ifs.push(OpenIf {
            condition: whole.expr,
            before,
            first: None,
        })?;
        self.statements_left = self.statements_left.saturating_sub(1);
        self.reads_left = whole.left;
        Ok(())
    }

    /// Opens the second list of the innermost `if`. After a refusal this may only be dropped.
    #[tactic(auto, using(crate::proofs::Opens::last_first))]
    fn add_else(&mut self, alloc: Global) -> Result<(), NoMemory>
        ensures { OnOk result (stated_seen self.new ≡ other_list (stated_seen self.old)
            (stated_seen self.old).open_ifs) }
    {
        match self.open_ifs.pop() {
            Some(top) => {
                let acts = replace(&mut self.acts, Vec::new(alloc));
                self.open_ifs.push(OpenIf {
                    condition: top.condition,
                    before: top.before,
                    first: Some(acts),
                })?;
                Ok(())
            }
            None => Ok(()),
        }
    }

    /// Ends the innermost `if`. After a refusal this may only be dropped.
    #[tactic(auto, using(crate::proofs::Opens::last_first))]
    fn add_end(&mut self, alloc: Global) -> Result<(), NoMemory>
        ensures { OnOk result (stated_seen self.new ≡ ended (stated_seen self.old) (stated_seen self.old).open_ifs) }
    {
        match self.open_ifs.pop() {
            Some(top) => {
                let acts = replace(&mut self.acts, top.before);
                let act = closed_if(alloc, top.condition, top.first, acts);
                self.acts.push(act)?;
                Ok(())
            }
            None => Ok(()),
        }
    }

    /// What a line says: its causes but 60, by place.
    fn add_said(&mut self, alloc: Global, text: &[u8], said: Said) -> Result<(), Refusal>
        requires proper { IsShape self.old.over.scope.shape }
        ensures { Gives (λ done. stated_seen self.new) result
            (with_said text.now (stated_seen self.old) (said_seen said)) }
    {
        match said {
            Said::Assign(name, sign, value) => self.add_assign(alloc, text, name, sign, &value),
            Said::Write(word, address, sign, value) => {
                self.add_write(alloc, word, &address, sign, &value)
            }
            Said::Put(word, value) => self.add_put(alloc, word, &value),
            Said::Take(word, name) => self.add_take(text, word, name),
            Said::If(word, condition) => self.add_if(alloc, word, &condition),
            Said::Else => Ok(self.add_else(alloc)?),
            Said::End => Ok(self.add_end(alloc)?),
        }
    }

    /// A line: cause 60, then its other causes by place.
    #[tactic(auto, unfolding(crate::specs::Stating::with_stated))]
    pub(crate) fn add_line(
        &mut self,
        alloc: Global,
        text: &[u8],
        line: &Line,
    ) -> Result<(), Refusal>
        requires kept { IsStated (stated_seen self.old) }
        ensures { Gives (λ done. stated_seen self.new) result (with_stated text.now (stated_seen self.old) line.now) }
    {
        let cursor = Cursor::new(text, line, Cause::BadSyntax);
        let said = said_of(alloc, &self.over.scope, self.blocks(), &cursor)?;
        self.add_said(alloc, text, said)
    }

    /// The machine of these statements. Where an `if` is open, this fault.
    pub(crate) fn machine(self, fault: TextFault) -> Result<Machine, Refusal>
        requires kept { IsStated (stated_seen self) }
        ensures { Gives description_of result (machine_unless (stated_seen self.entry) fault) }
    {
        if self.blocks().can_end {
            return Err(Refused::At(fault));
        }
        let Stated { over, acts, .. } = self;
        let Over {
            registers,
            elements,
            scope,
            ..
        } = over;
        let Scope { names, shape } = scope;
        let mut names = names.into_vec();
        names.truncate(elements);
        match Machine::new(names, u32::from(registers), shape, acts) {
            Ok(machine) => Ok(machine),
            Err(_) => unreachable!(),
        }
    }
}

/// The statement that an `if` is whose last list has these statements.
fn closed_if(
    alloc: Global,
    condition: Expr,
    first: Option<Vec<Statement>>,
    acts: Vec<Statement>,
) -> Statement
    ensures { act_of result ≡ closed_if (view condition) (option_map (λ list. map act_of list.items) first)
        (map act_of acts.items) }
{
    match first {
        None => Statement::If {
            condition,
            first: acts,
            second: Vec::new(alloc),
        },
        Some(first) => Statement::If {
            condition,
            first,
            second: acts,
        },
    }
}
