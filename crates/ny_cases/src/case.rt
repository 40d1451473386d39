use bstr::ByteSlice;
use std::alloc::{AllocError, Global};
use std::io;

/// The name that the words give to the text of a case.
pub const INPUT: &str = "in.sal";

/// What stands between the words of a case and its text.
const BEFORE_TEXT: &[u8] = b" << ";

/// A line of a list: the words of a command and, where it has one, the text of its input.
#[derive(Drop)]
pub struct Case<'a> {
    line: &'a [u8],
    words: Vec<String>,
    text: Option<&'a [u8]>,
}

/// Whether a line is no case: an empty one, or a remark.
fn is_passed_over(line: &[u8]) -> bool {
    line.is_empty() || line == b"#".as_slice() || line.starts_with(b"# ")
}

/// The words of a command, with a single space between two.
fn words_of(alloc: Global, command: &str) -> Result<Vec<String>, AllocError> {
    let mut words = Vec::new(alloc);
    for word in command.split(' ') {
        words.push(String::from_str(alloc, word)?)?;
    }
    Ok(words)
}

impl<'a> Case<'a> {
    /// The case of a line. Its words must be UTF-8; its text may be any bytes.
    pub fn of(alloc: Global, line: &'a [u8]) -> io::Result<Case<'a>> {
        let (command, text) = match line.split_once_str(BEFORE_TEXT) {
            Some((command, text)) => (command, Some(text)),
            None => (line, None),
        };
        let Ok(command) = command.to_str() else {
            return Err(io::Error::from(io::ErrorKind::InvalidData));
        };
        let words = words_of(alloc, command)?;
        Ok(Case { line, words, text })
    }

    /// The words of the command.
    pub fn words(&self) -> &[String] {
        &self.words
    }

    /// The text of the input, where the line has one.
    pub fn text(&self) -> Option<&'a [u8]> {
        self.text
    }

    /// The line that begins what is printed of the case.
    pub fn heading(&self, alloc: Global) -> Result<Vec<u8>, AllocError> {
        let mut heading = Vec::from_slice(alloc, b"> ")?;
        heading.extend_from_slice(self.line)?;
        heading.push(b'\n')?;
        Ok(heading)
    }
}

/// The cases of a list, in order.
pub fn cases_of(alloc: Global, list: &[u8]) -> io::Result<Vec<Case<'_>>> {
    let mut cases = Vec::new(alloc);
    for line in list.split(|byte| *byte == b'\n') {
        if !is_passed_over(line) {
            cases.push(Case::of(alloc, line)?)?;
        }
    }
    Ok(cases)
}
