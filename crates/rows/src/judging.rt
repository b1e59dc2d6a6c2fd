//! The rows of a file.
//!
//! Lines that begin with `#` and blank lines are passed over between rows, and so is a line that begins with `=`, which says what the
//! rows that follow have in common. The answer is the line after the question's, whatever it begins with. Before the question may
//! stand `* `, if each request for memory that the row makes is to be refused, that one alone, or `unaided `, if its call makes
//! none. `repeated` says how a question and an answer may be spelled in short.
use crate::asked::Asked;
use crate::faults;
use crate::repeated::expanded;
use crate::said::Said;
use std::alloc::Global;

/// The layers of a program of rows.
pub trait Layers {
    /// Their names, each that of a folder of rows.
    const NAMES: &'static [&'static str];

    /// Says the answer of a layer to what is asked. It is lacking when out of memory, and where the text does not spell what the command is asked about.
    fn answer(it: &mut Asked<'_>, layer: &str);
}

/// How many bytes of a text are printed of a wrong row.
const SHOWN: usize = 300;

/// How many rows are right and wrong, of those that are judged.
#[derive(Clone, Copy)]
pub struct Tally {
    /// Whether the rows that speak of memory are judged, while requests are refused, and no others.
    pub is_faults: bool,
    /// All rows, judged or not.
    pub rows: u64,
    pub right: u64,
    pub wrong: u64,
    /// Requests that were refused.
    pub requests: u64,
}

impl Tally {
    /// None as yet.
    pub fn new(is_faults: bool) -> Tally {
        Tally {
            is_faults,
            rows: 0,
            right: 0,
            wrong: 0,
            requests: 0,
        }
    }

    /// Adds those of a file.
    fn add(&mut self, of_file: Tally) {
        self.right = self.right.saturating_add(of_file.right);
        self.wrong = self.wrong.saturating_add(of_file.wrong);
        self.requests = self.requests.saturating_add(of_file.requests);
    }
}

/// A row: where it stands, its question and its answer.
#[derive(Clone, Copy)]
pub struct Row<'a> {
    pub layer: &'a str,
    pub file: &'a str,
    /// From 0 on.
    pub line: usize,
    /// Whether each of its requests for memory is to be refused.
    pub is_starred: bool,
    /// Whether its call is to make none.
    pub is_unaided: bool,
    pub question: &'a [u8],
    pub answer: &'a [u8],
}

/// Bytes as a text; an empty one where they are none.
fn as_text(bytes: &[u8]) -> &str {
    str::from_utf8(bytes).unwrap_or("")
}

/// The answer that is found to a row.
pub fn answered<'a, L: Layers>(alloc: Global, row: Row<'a>) -> Asked<'a> {
    let mut parts = row.question.splitn(2, |byte| *byte == b' ');
    let command = as_text(parts.next().unwrap_or(b""));
    let bytes = parts.next().unwrap_or(b"");
    let mut it = Asked {
        alloc,
        command,
        bytes,
        text: as_text(bytes),
        wanted: as_text(row.answer),
        said: Said::new(alloc),
        is_unaided: row.is_unaided,
        was_called: false,
        was_aided: false,
    };
    L::answer(&mut it, row.layer);
    it
}

/// Says the first bytes of a text.
fn say_cut(said: &mut Said, text: &[u8]) {
    match text.get(..SHOWN) {
        Some(text) => {
            said.bytes(text);
            said.push("..");
        }
        None => said.bytes(text),
    }
}

/// What was found: where there is memory, an answer that is lacking is that the text spells nothing.
fn found<'a>(it: &'a Asked<'_>) -> &'a str {
    if it.said.is_lacking {
        "the text spells nothing"
    } else {
        it.said.text.as_str()
    }
}

/// Says what was found, and what is wanted.
pub fn say_found(fault: &mut Said, row: Row<'_>, found: &str) {
    fault.push(": found `");
    say_cut(fault, found.as_bytes());
    fault.push("`, wanted `");
    say_cut(fault, row.answer);
    fault.push("`");
}

/// Says what is wrong with the answer to a row, if anything is.
pub fn say_fault(fault: &mut Said, row: Row<'_>, it: &Asked<'_>) {
    let found = found(it);
    if found.as_bytes() != row.answer {
        say_found(fault, row, found);
    }
    if !it.is_fair() {
        fault.push(": its call is to make no request for memory");
    }
}

/// Says that something is wrong with a row.
fn say_wrong(report: &mut Said, tally: &mut Tally, row: Row<'_>, fault: &str) {
    tally.wrong = tally.wrong.saturating_add(1);
    report.push(row.file);
    report.push(":");
    report.shown(&row.line.saturating_add(1));
    report.push(": ");
    say_cut(report, row.question);
    report.push(fault);
    report.push("\n");
}

/// Judges a row, and counts and reports it.
fn judge_row<L: Layers>(report: &mut Said, tally: &mut Tally, row: Row<'_>) {
    let mut fault = Said::new(report.alloc);
    if row.is_starred {
        faults::judge_starred::<L>(&mut fault, tally, row);
    } else {
        say_fault(&mut fault, row, &answered::<L>(report.alloc, row));
    }
    if fault.text.is_empty() && !fault.is_lacking {
        tally.right = tally.right.saturating_add(1);
    } else {
        say_wrong(report, tally, row, fault.text.as_str());
    }
}

/// Judges a row that is spelled whole, if it is among those that are judged.
fn judge_whole<L: Layers>(report: &mut Said, tally: &mut Tally, mut row: Row<'_>) {
    if let Some(question) = row.question.strip_prefix(b"* ") {
        row.question = question;
        row.is_starred = tally.is_faults;
    } else if let Some(question) = row.question.strip_prefix(b"unaided ") {
        row.question = question;
        row.is_unaided = tally.is_faults;
    }
    if !tally.is_faults || row.is_starred || row.is_unaided {
        judge_row::<L>(report, tally, row);
    }
}

/// Judges a row whose question and answer may each be spelled in short.
fn judge_spelled<L: Layers>(report: &mut Said, tally: &mut Tally, row: Row<'_>) {
    tally.rows = tally.rows.saturating_add(1);
    let (question, answer) = (as_text(row.question), as_text(row.answer));
    if !question.contains("<<") && !answer.contains("<<") {
        return judge_whole::<L>(report, tally, row);
    }
    let question = expanded(report.alloc, question);
    let answer = expanded(report.alloc, answer);
    if question.is_lacking || answer.is_lacking {
        return say_wrong(report, tally, row, ": what is in << and >> spells nothing");
    }
    let question = question.text.as_bytes();
    let answer = answer.text.as_bytes();
    judge_whole::<L>(
        report,
        tally,
        Row {
            question,
            answer,
            ..row
        },
    );
}

/// Judges the rows of a text, the first of which stands behind the row that is given.
fn judge_text<'a, L: Layers>(
    report: &mut Said,
    tally: &mut Tally,
    mut row: Row<'a>,
    text: &'a [u8],
) {
    for (at, line) in text.split(|byte| *byte == b'\n').enumerate() {
        if !row.question.is_empty() {
            row.answer = line;
            judge_spelled::<L>(report, tally, row);
            row.question = b"";
        } else if !matches!(line.first(), None | Some(b'#' | b'=')) {
            row.question = line;
            row.line = at;
        }
    }
    if !row.question.is_empty() {
        say_wrong(report, tally, row, ": no answer stands behind it");
    }
}

/// Says how many rows of a file are right and wrong.
fn say_tally(report: &mut Said, file: &str, found: Tally) {
    report.push(file);
    report.push(": ");
    report.shown(&found.right);
    report.push(" right");
    if found.wrong > 0 {
        report.push(", ");
        report.shown(&found.wrong);
        report.push(" wrong");
    }
    if found.is_faults {
        report.push(", ");
        report.shown(&found.requests);
        report.push(" requests refused");
    }
    report.push("\n");
}

/// Judges the rows of a file, and says of it how many are right, if any are judged.
pub fn judge<L: Layers>(report: &mut Said, tally: &mut Tally, file: &str, text: &[u8]) {
    let mut found = Tally::new(tally.is_faults);
    let (layer, _) = file.split_once('/').unwrap_or((file, ""));
    let row = Row {
        layer,
        file,
        line: 0,
        is_starred: false,
        is_unaided: false,
        question: b"",
        answer: b"",
    };
    let text = text.strip_suffix(b"\n").unwrap_or(text);
    judge_text::<L>(report, &mut found, row, text);
    if found.rows == 0 {
        say_wrong(
            report,
            &mut found,
            row,
            "the file cannot be read, or has no rows",
        );
    }
    if !found.is_faults || found.right > 0 || found.wrong > 0 {
        say_tally(report, file, found);
    }
    tally.add(found);
}
