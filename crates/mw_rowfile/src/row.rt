// Rows and the files that they share.
use crate::fault::{Fault, wrong};

/// A file.
#[derive(Drop)]
pub struct File {
    /// The word of a command line that names it.
    pub name: String,
    /// Its bytes.
    pub contents: Vec<u8>,
}

/// Files that rows share.
#[derive(Drop)]
pub struct Set {
    /// The name by which rows take it; no two sets have the same.
    pub name: String,
    /// Its files, at least one.
    pub files: Vec<File>,
}

/// What is otherwise in one file of a row.
#[derive(Drop)]
pub struct Change {
    /// The file's name.
    pub file: String,
    /// The keys of the lines that go.
    pub without: Vec<String>,
    /// The lines that come.
    pub lines: Vec<u8>,
    /// Whether the row holds for the lines from the last to the first, too.
    pub turned: bool,
}

/// What a row does.
#[derive(Drop)]
pub enum Work {
    /// Runs the bench with these words.
    Bench(Vec<String>),
    /// Makes a call that no command shows, with these words.
    Call(Vec<String>),
}

/// What a row ends with.
#[derive(Drop)]
pub struct End {
    /// The number of the status; 0 for a call that no command shows.
    pub status: u8,
    /// The report, or what such a call gives.
    pub report: Vec<u8>,
}

/// The files of a row. No two have the same name.
#[derive(Drop)]
pub struct RowFiles {
    /// The numbers of the sets whose files it has.
    pub sets: Vec<usize>,
    /// Its own files.
    pub own: Vec<File>,
    /// What is otherwise in one of them.
    pub change: Option<Change>,
}

/// A row.
#[derive(Drop)]
pub struct Row {
    /// The line where it begins, from 1.
    pub line: u64,
    /// What it shows.
    pub name: String,
    /// The files over which it works.
    pub files: RowFiles,
    /// What it does.
    pub work: Work,
    /// How it has to end.
    pub end: End,
    /// Whether only the beginning of the report is fixed.
    pub begins: bool,
}

/// The rows of a file, and its sets.
#[derive(Drop)]
pub struct Rows {
    /// The sets, whose numbers are their places here, from 0.
    pub sets: Vec<Set>,
    /// The rows, in the file's order.
    pub rows: Vec<Row>,
}

impl Rows {
    /// Whether one of a row's files has this name.
    pub fn has_file(&self, files: &RowFiles, name: &str) -> bool {
        for &number in &files.sets {
            if let Some(set) = self.sets.get(number) {
                if contents_in(&set.files, name).is_some() {
                    return true;
                }
            }
        }
        contents_in(&files.own, name).is_some()
    }
}

/// The contents of the file of a name.
pub fn contents_in<'a>(files: &'a [File], name: &str) -> Option<&'a [u8]> {
    for file in files {
        if file.name.as_str() == name {
            return Some(&file.contents);
        }
    }
    None
}

/// The contents of the file that a call reads.
///
/// # Errors
///
/// There is no file of this name.
pub fn contents<'a>(files: &'a [File], name: &str) -> Result<&'a [u8], Fault> {
    match contents_in(files, name) {
        Some(contents) => Ok(contents),
        None => Err(wrong("the call reads a file that isn't there")),
    }
}

/// These bytes as a text.
///
/// # Errors
///
/// They are none.
pub(crate) fn as_text(bytes: &[u8]) -> Result<&str, Fault> {
    match str::from_utf8(bytes) {
        Ok(text) => Ok(text),
        Err(_) => Err(wrong("a file that is no text")),
    }
}

/// The contents of the file that a call reads, as a text.
///
/// # Errors
///
/// There is no file of this name, or it is no text.
pub fn text_in<'a>(files: &'a [File], name: &str) -> Result<&'a str, Fault> {
    as_text(contents(files, name)?)
}
