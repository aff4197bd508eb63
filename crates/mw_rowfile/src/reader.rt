// Reads a file of rows.
use crate::fault::{Fault, wrong};
use crate::line::{Line, line_of};
use crate::row::{Change, End, File, Row, RowFiles, Rows, Set, Work};
use crate::spelled::{push_repeated, push_spelled, words_of};
use std::alloc::Global;

/// To what the next lines belong.
#[derive(Clone, Copy, PartialEq, Eq)]
enum Section {
    /// Neither set nor row has begun.
    Start,
    /// A set, before its first file.
    Set,
    /// A file of a set.
    SetFile,
    /// A row, before its first file.
    Row,
    /// A file of a row.
    RowFile,
    /// The change of a row's file.
    Change,
    /// The report of a row.
    Report,
}

/// A row whose end hasn't begun.
#[derive(Drop)]
struct Begun {
    line: u64,
    name: String,
    files: RowFiles,
    work: Option<Work>,
}

/// What was read so far.
#[derive(Drop)]
struct Reader {
    alloc: Global,
    /// The sets, and the rows whose end has begun.
    rows: Rows,
    /// The row at hand, until its end begins.
    begun: Option<Begun>,
    section: Section,
}

/// The number of a status.
fn status_of(text: &str) -> Result<u8, Fault> {
    match text.parse::<u8>() {
        Ok(status) if status <= 7 => Ok(status),
        _ => Err(wrong("no status")),
    }
}

fn new_file(alloc: Global, name: &str) -> Result<File, Fault> {
    Ok(File {
        name: String::from_str(alloc, name)?,
        contents: Vec::new(alloc),
    })
}

impl Reader {
    fn new(alloc: Global) -> Reader {
        Reader {
            alloc,
            rows: Rows {
                sets: Vec::new(alloc),
                rows: Vec::new(alloc),
            },
            begun: None,
            section: Section::Start,
        }
    }

    /// The set at hand.
    fn set(&mut self) -> Result<&mut Set, Fault> {
        match self.rows.sets.last_mut() {
            Some(set) => Ok(set),
            None => Err(wrong("no set has begun")),
        }
    }

    /// The row at hand.
    fn row(&mut self) -> Result<&mut Begun, Fault> {
        match &mut self.begun {
            Some(row) => Ok(row),
            None => Err(wrong("this belongs into a row, before its end")),
        }
    }

    /// The change at hand.
    fn change(&mut self) -> Result<&mut Change, Fault> {
        if self.section != Section::Change {
            return Err(wrong("this belongs behind `change`"));
        }
        match &mut self.row()?.files.change {
            Some(change) => Ok(change),
            None => Err(wrong("no change has begun")),
        }
    }

    /// The number of the set of a name.
    fn set_number(&self, name: &str) -> Option<usize> {
        self.rows
            .sets
            .iter()
            .position(|set| set.name.as_str() == name)
    }

    /// Whether the row at hand has a file of this name.
    fn has_file(&self, name: &str) -> bool {
        match &self.begun {
            Some(row) => self.rows.has_file(&row.files, name),
            None => false,
        }
    }

    /// Whether a set or row may begin or the text may end: what came before is whole.
    fn end_of_part(&self) -> Result<(), Fault> {
        match self.section {
            Section::Start | Section::SetFile | Section::Report => Ok(()),
            Section::Set => Err(wrong("the set above has no file")),
            Section::Row | Section::RowFile | Section::Change => Err(wrong(
                "the row above has no end",
            )),
        }
    }

    fn begin_set(&mut self, name: &str) -> Result<(), Fault> {
        self.end_of_part()?;
        if self.set_number(name).is_some() {
            return Err(wrong("there is a set of this name"));
        }
        let set = Set {
            name: String::from_str(self.alloc, name)?,
            files: Vec::new(self.alloc),
        };
        self.rows.sets.push(set)?;
        self.section = Section::Set;
        Ok(())
    }

    fn begin_row(&mut self, name: &str, line: u64) -> Result<(), Fault> {
        self.end_of_part()?;
        let earlier = self.begun.replace(Begun {
            line,
            name: String::from_str(self.alloc, name)?,
            files: RowFiles {
                sets: Vec::new(self.alloc),
                own: Vec::new(self.alloc),
                change: None,
            },
            work: None,
        });
        drop(earlier);
        self.section = Section::Row;
        Ok(())
    }

    /// Whether a file of the set is one of the row at hand already.
    fn shares_file(&self, number: usize) -> bool {
        match self.rows.sets.get(number) {
            Some(set) => set
                .files
                .iter()
                .any(|file| self.has_file(file.name.as_str())),
            None => false,
        }
    }

    fn take_set(&mut self, name: &str) -> Result<(), Fault> {
        let Some(number) = self.set_number(name) else {
            return Err(wrong("no such set"));
        };
        if self.shares_file(number) {
            return Err(wrong("a file of this set is there already"));
        }
        self.row()?.files.sets.push(number)?;
        self.section = Section::Row;
        Ok(())
    }

    fn begin_file(&mut self, name: &str) -> Result<(), Fault> {
        let file = new_file(self.alloc, name)?;
        if matches!(self.section, Section::Set | Section::SetFile) {
            self.set()?.files.push(file)?;
            self.section = Section::SetFile;
            return Ok(());
        }
        if self.has_file(name) {
            return Err(wrong("a file of this name is there already"));
        }
        self.row()?.files.own.push(file)?;
        self.section = Section::RowFile;
        Ok(())
    }

    fn begin_change(&mut self, name: &str) -> Result<(), Fault> {
        if !self.has_file(name) {
            return Err(wrong("no such file"));
        }
        let alloc = self.alloc;
        let row = self.row()?;
        if row.files.change.is_some() {
            return Err(wrong("a row has one change"));
        }
        let none = row.files.change.replace(Change {
            file: String::from_str(alloc, name)?,
            without: Vec::new(alloc),
            lines: Vec::new(alloc),
            turned: false,
        });
        drop(none);
        self.section = Section::Change;
        Ok(())
    }

    fn take_keys(&mut self, keys: &str) -> Result<(), Fault> {
        let alloc = self.alloc;
        let change = self.change()?;
        for key in keys.split_whitespace() {
            change.without.push(String::from_str(alloc, key)?)?;
        }
        Ok(())
    }

    fn turn_change(&mut self) -> Result<(), Fault> {
        self.change()?.turned = true;
        Ok(())
    }

    /// The place where the work of the row at hand goes, which has none yet.
    fn work(&mut self) -> Result<&mut Option<Work>, Fault> {
        let row = self.row()?;
        if row.work.is_some() {
            return Err(wrong("a row has one call"));
        }
        Ok(&mut row.work)
    }

    fn take_work(&mut self, work: Work) -> Result<(), Fault> {
        match self.work() {
            Ok(place) => drop(place.replace(work)),
            Err(fault) => {
                drop(work);
                return Err(fault);
            }
        }
        self.section = Section::Row;
        Ok(())
    }

    fn take_command(&mut self, words: &str) -> Result<(), Fault> {
        let words = words_of(self.alloc, words)?;
        self.take_work(Work::Bench(words))
    }

    fn take_call(&mut self, words: &str) -> Result<(), Fault> {
        let words = words_of(self.alloc, words)?;
        self.take_work(Work::Call(words))
    }

    fn begin_end(&mut self, status: u8, begins: bool) -> Result<(), Fault> {
        let Some(begun) = self.begun.take() else {
            return Err(wrong("this belongs behind a row's call"));
        };
        let Begun {
            line,
            name,
            files,
            work,
        } = begun;
        let Some(work) = work else {
            drop(name);
            drop(files);
            return Err(wrong("the row has no call"));
        };
        let row = Row {
            line,
            name,
            files,
            work,
            end: End {
                status,
                report: Vec::new(self.alloc),
            },
            begins,
        };
        self.rows.rows.push(row)?;
        self.section = Section::Report;
        Ok(())
    }

    fn begin_status(&mut self, status: &str, begins: bool) -> Result<(), Fault> {
        let status = status_of(status)?;
        self.begin_end(status, begins)
    }

    /// To what a line of text is added, if it belongs anywhere.
    fn bytes_at_hand(&mut self) -> Option<&mut Vec<u8>> {
        match self.section {
            Section::SetFile => {
                let set = self.rows.sets.last_mut()?;
                Some(&mut set.files.last_mut()?.contents)
            }
            Section::RowFile => {
                let row = self.begun.as_mut()?;
                Some(&mut row.files.own.last_mut()?.contents)
            }
            Section::Change => {
                let row = self.begun.as_mut()?;
                Some(&mut row.files.change.as_mut()?.lines)
            }
            Section::Report => Some(&mut self.rows.rows.last_mut()?.end.report),
            Section::Start | Section::Set | Section::Row => None,
        }
    }

    fn text(&mut self) -> Result<&mut Vec<u8>, Fault> {
        match self.bytes_at_hand() {
            Some(bytes) => Ok(bytes),
            None => Err(wrong("a text belongs to a file, a change or a report")),
        }
    }

    fn take_text(&mut self, text: &str) -> Result<(), Fault> {
        let bytes = self.text()?;
        bytes.extend_from_slice(text.as_bytes())?;
        bytes.push(b'\n')?;
        Ok(())
    }

    fn take_spelled(&mut self, text: &str) -> Result<(), Fault> {
        push_spelled(self.text()?, text)
    }

    fn take_repeated(&mut self, text: &str) -> Result<(), Fault> {
        push_repeated(self.text()?, text)
    }

    fn take(&mut self, line: Line<'_>, number: u64) -> Result<(), Fault> {
        match line {
            Line::Nothing => Ok(()),
            Line::Set(name) => self.begin_set(name),
            Line::Row(name) => self.begin_row(name, number),
            Line::With(name) => self.take_set(name),
            Line::File(name) => self.begin_file(name),
            Line::Change(name) => self.begin_change(name),
            Line::Without(keys) => self.take_keys(keys),
            Line::Turned => self.turn_change(),
            Line::Words(words) => self.take_command(words),
            Line::Call(words) => self.take_call(words),
            Line::Status(status) => self.begin_status(status, false),
            Line::Begins(status) => self.begin_status(status, true),
            Line::Gives => self.begin_end(0, false),
            Line::Text(text) => self.take_text(text),
            Line::Spelled(text) => self.take_spelled(text),
            Line::Repeated(text) => self.take_repeated(text),
        }
    }

    /// Takes the lines of a text.
    fn take_all(&mut self, text: &str) -> Result<(), Fault> {
        let mut number = 0u64;
        for line in text.lines() {
            number = number.saturating_add(1);
            let taken = match line_of(line) {
                Some(line) => self.take(line, number),
                None => Err(wrong("no such line")),
            };
            if let Err(fault) = taken {
                return Err(fault.at(number));
            }
        }
        match self.end_of_part() {
            Ok(()) => Ok(()),
            Err(fault) => Err(fault.at(number)),
        }
    }

    /// The rows that were read.
    fn into_rows(self) -> Rows {
        let Reader { rows, begun, .. } = self;
        drop(begun);
        rows
    }
}

/// Reads a file of rows.
///
/// # Errors
///
/// The first line that isn't what it has to be, and want of memory.
pub fn rows_of(alloc: Global, text: &str) -> Result<Rows, Fault> {
    let mut reader = Reader::new(alloc);
    match reader.take_all(text) {
        Ok(()) => Ok(reader.into_rows()),
        Err(fault) => {
            drop(reader);
            Err(fault)
        }
    }
}
