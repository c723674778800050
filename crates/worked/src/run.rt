// From the lines of the input to what is printed of them.
use crate::args::Args;
use crate::fault::Fault;
use crate::words::{WORDS, Word};
use crate::{call, words};
use judge::Score;
use std::alloc::{AllocError, Global};
use std::fmt::Write as _;
use std::io;
use std::io::Write;

// The longest answer, in bytes.
const LONGEST: usize = 65_504;

// A line without the spaces, and the ends of a line, at its end.
fn trimmed(line: &[u8]) -> &[u8] {
    let last = line
        .iter()
        .rposition(|byte| !matches!(*byte, b' ' | b'\r' | b'\n'));
    match last {
        Some(last) => &line[..=last],
        None => &[],
    }
}

// A line that is a case.
#[derive(Clone, Copy)]
struct Case<'a> {
    alloc: Global,
    // The name of the call.
    name: &'a [u8],
    // What stands before the equals sign.
    text: &'a [u8],
    expected: &'a [u8],
    // The line that says what the word list stands for.
    list: &'a [u8],
}

impl<'a> Case<'a> {
    fn new(alloc: Global, name: &'a [u8], line: &'a [u8], list: &'a [u8]) -> Case<'a> {
        let equals = line.iter().position(|byte| *byte == b'=');
        let (text, expected) = line.split_at(equals.unwrap_or(line.len()));
        let expected = expected.strip_prefix(b"=").unwrap_or(expected);
        Case {
            alloc,
            name,
            text: trimmed(text),
            expected: expected.strip_prefix(b" ").unwrap_or(expected),
            list,
        }
    }

    // The words behind the name; at its end, the word list stands for the words behind that name in the line that begins with it.
    fn words(&self) -> Result<Vec<Word>, AllocError> {
        let mut words = Vec::new(self.alloc);
        words::read_line(self.alloc, self.text, &mut words)?;
        if let Some(Word::List) = words.last() {
            let _list = words.pop();
            words::read_line(self.alloc, self.list, &mut words)?;
        }
        Ok(words)
    }

    // Cells are answered as addresses where the expected answer has them.
    fn write_answer(&self, out: &mut String) -> Result<(), Fault> {
        let mut words = self.words()?;
        if WORDS <= words.len() {
            return Err(Fault::Unreadable);
        }
        words.push(Word::Bar)?;
        words.resize(WORDS, Word::Blank)?;
        let by_address = self.expected.contains(&b'@');
        call::write_answer(
            self.name,
            &mut Args::new(self.alloc, &words, by_address),
            out,
        )
    }

    // The answer; none where the case cannot be read, or the answer is too long.
    fn answer(&self) -> Result<Option<String>, AllocError> {
        let mut out = String::new(self.alloc);
        match self.write_answer(&mut out) {
            Ok(()) => {}
            Err(Fault::Refused(refusal)) => write!(out, "refused {}", refusal.number())?,
            Err(Fault::Unreadable) => return Ok(None),
            Err(Fault::OutOfMemory) => return Err(AllocError),
        }
        Ok(if out.is_empty() || LONGEST < out.len() {
            None
        } else {
            Some(out)
        })
    }

    // Judges an answer against the expected one, or, where there is none, against an empty text, and prints the case.
    fn print(&self, score: Score, answer: Option<&str>, out: &mut impl Write) -> io::Result<Score> {
        let (answer, right) = match answer {
            Some(answer) => (answer.strip_prefix(' ').unwrap_or(answer), self.expected),
            None => (
                "(cannot be read as a case, or the answer is too long)",
                b"".as_slice(),
            ),
        };
        let next = judge::judged(score, answer.as_bytes(), right);
        let verdict = if score.right < next.right {
            "ok    "
        } else {
            "WRONG "
        };
        out.write_all(verdict.as_bytes())?;
        out.write_all(self.text)?;
        write!(out, " = {answer} (expected ")?;
        out.write_all(self.expected)?;
        out.write_all(b")\n")?;
        Ok(next)
    }

    fn run(&self, score: Score, out: &mut impl Write) -> io::Result<Score> {
        let answer = self.answer()?;
        self.print(score, answer.as_ref().map(|answer| answer.as_str()), out)
    }
}

// All lines of the input. Comments, empty lines and lists are printed as they are.
pub fn run_all(alloc: Global, input: &[u8], out: &mut impl Write) -> io::Result<Score> {
    let mut score = Score::default();
    let mut list: &[u8] = b"";
    for line in input.split_inclusive(|byte| *byte == b'\n') {
        let line = trimmed(line);
        let name = line.split(|byte| *byte == b' ').next().unwrap_or(line);
        let is_list = matches!(name, b"list");
        if is_list {
            list = line;
        }
        if is_list || line.is_empty() || line.starts_with(b"#") {
            out.write_all(line)?;
            out.write_all(b"\n")?;
        } else {
            score = Case::new(alloc, name, line, list).run(score, out)?;
        }
    }
    Ok(score)
}
