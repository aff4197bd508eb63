// Levels of statements.
ghost use Rattle.std.specs.Prelude.{◌≡◌, []};
ghost use Rattle.mw_macro.specs.Statements.{acts, act_of};
ghost use Rattle.mw_symmach.specs.Places.{dropped, list_at, list_of};

use mw_macro::Statement;

/// In which list of an `if` a step stands.
#[derive(Clone, Copy)]
pub(crate) struct Level {
    /// The position of the `if` among the statements around it.
    pub position: u32,
    /// Whether it is its first list.
    pub first: bool,
}

impl Level {
    /// Its list in a statement, where that is an `if`, and else none.
    fn list_of<'a>(self, statement: &'a Statement, none: &'a [Statement]) -> &'a [Statement]
        requires { none.now ≡ [] }
        ensures { acts result.now ≡ list_of self.first (act_of statement.now) }
    {
        match statement {
            Statement::If { first, second, .. } => { if self.first { first } else { second } }
            Statement::Assign { .. }
            | Statement::Write { .. }
            | Statement::Put(_)
            | Statement::Take(_) => none,
        }
    }

    /// Its list among the statements around it.
    pub(crate) fn list(self, statements: &[Statement]) -> &[Statement]
        ensures { acts result.now ≡ list_at self.first (dropped self.position (acts statements.now)) }
    {
        let none = &statements[..0];
        let position = self.position as usize;
        if position >= statements.len() {
            return none;
        }
        self.list_of(&statements[position], none)
    }
}
