// The lines of a file of rows.

/// What a line of a file of rows is: its first word says it, and the rest stands behind one blank.
#[derive(Clone, Copy, Drop)]
pub enum Line<'a> {
    /// Empty, or a comment, which begins with `#`.
    Nothing,
    /// `set NAME`: files that rows share follow.
    Set(&'a str),
    /// `row NAME`: a row follows.
    Row(&'a str),
    /// `with SET`: the row has the files of this set.
    With(&'a str),
    /// `file NAME`: the file's contents follow.
    File(&'a str),
    /// `change NAME`: what is otherwise in this file of the row follows, by lines.
    Change(&'a str),
    /// `without KEYS`: the lines under these keys go.
    Without(&'a str),
    /// `turned`: the row holds for the changed file's lines from the last to the first, too.
    Turned,
    /// `$ WORDS`: the words of a command line.
    Words(&'a str),
    /// `call WORDS`: a call that no command shows.
    Call(&'a str),
    /// `status N`: the status; the report follows.
    Status(&'a str),
    /// `begins N`: the status; what the report begins with follows.
    Begins(&'a str),
    /// `gives`: what the call gives follows.
    Gives,
    /// `| TEXT`: this text and a line feed.
    Text(&'a str),
    /// `\ TEXT`: what this text spells, without a line feed.
    Spelled(&'a str),
    /// `* N TEXT`: what this text spells, so many times.
    Repeated(&'a str),
}

/// A line whose first word has something behind it.
fn with_rest<'a>(word: &str, rest: &'a str) -> Option<Line<'a>> {
    let line = match word {
        "set" => Line::Set(rest),
        "row" => Line::Row(rest),
        "with" => Line::With(rest),
        "file" => Line::File(rest),
        "change" => Line::Change(rest),
        "without" => Line::Without(rest),
        "$" => Line::Words(rest),
        "call" => Line::Call(rest),
        "status" => Line::Status(rest),
        "begins" => Line::Begins(rest),
        "|" => Line::Text(rest),
        "\\" => Line::Spelled(rest),
        "*" => Line::Repeated(rest),
        _ => return None,
    };
    Some(line)
}

/// A line of one word.
fn alone(word: &str) -> Option<Line<'static>> {
    match word {
        "" => Some(Line::Nothing),
        "turned" => Some(Line::Turned),
        "gives" => Some(Line::Gives),
        "$" => Some(Line::Words("")),
        "|" => Some(Line::Text("")),
        _ => None,
    }
}

/// What a line is. None where it is no line of a file of rows.
pub fn line_of(line: &str) -> Option<Line<'_>> {
    if line.starts_with('#') {
        return Some(Line::Nothing);
    }
    match line.split_once(' ') {
        Some((word, rest)) => with_rest(word, rest),
        None => alone(line),
    }
}
