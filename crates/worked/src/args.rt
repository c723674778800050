// The words of a case, taken one by one and list by list.
use crate::fault::Fault;
use crate::name::{Name, Style};
use crate::words::Word;
use std::alloc::Global;

#[derive(Drop)]
pub struct Args<'a> {
    pub alloc: Global,
    pub style: Style,
    all: &'a [Word],
    rest: &'a [Word],
}

// The words up to the first bar, and those from it on.
fn cut_at_bar(words: &[Word]) -> (&[Word], &[Word]) {
    let bar = words.iter().position(|word| matches!(word, Word::Bar));
    words.split_at(bar.unwrap_or(words.len()))
}

impl<'a> Args<'a> {
    // Each call takes a level first, which is that of the addresses.
    pub fn new(alloc: Global, words: &'a [Word], by_address: bool) -> Args<'a> {
        let level = words.first().and_then(|word| word.number());
        let style = match level {
            Some(level) if by_address => Style::Address(level),
            _ => Style::Number,
        };
        Args {
            alloc,
            style,
            all: words,
            rest: words,
        }
    }

    pub fn name(&self, cell: u32) -> Name {
        self.style.name(cell)
    }

    // The next word, as `read` reads it.
    pub fn one<T, F: Fn(Word) -> Option<T>>(&mut self, read: F) -> Result<T, Fault>
    where
        F: Drop,
        requires { F.IsAlwaysCallable read }
    {
        let (first, rest) = self.rest.split_first().ok_or(Fault::Unreadable)?;
        self.rest = rest;
        read(*first).ok_or(Fault::Unreadable)
    }

    pub fn number(&mut self) -> Result<u32, Fault> {
        self.one(Word::number)
    }

    // Whether a bar comes next.
    pub fn at_bar(&self) -> bool {
        matches!(self.rest.first(), Some(Word::Bar))
    }

    // The words up to the next bar, which is passed over.
    pub fn words(&mut self) -> &'a [Word] {
        let (words, rest) = cut_at_bar(self.rest);
        self.rest = match rest {
            [_, rest @ ..] => rest,
            [] => rest,
        };
        words
    }

    // The same, each as `read` reads it.
    pub fn list<T: Drop, F: Fn(Word) -> Option<T>>(&mut self, read: F) -> Result<Vec<T>, Fault>
    where
        F: Drop,
        requires { F.IsAlwaysCallable read }
    {
        let mut items = Vec::new(self.alloc);
        for word in self.words() {
            items.push(read(*word).ok_or(Fault::Unreadable)?)?;
        }
        Ok(items)
    }

    // Whether the words are used up, their blank end too.
    pub fn is_over(&self) -> bool {
        self.rest.is_empty()
    }

    // The words up to the first bar, whatever was read of them.
    pub fn front(&self) -> &'a [Word] {
        let (front, _) = cut_at_bar(self.all);
        front
    }

    // Nothing may be left, or else the case cannot be read.
    pub fn done(&self) -> Result<(), Fault> {
        match self.rest.first() {
            None | Some(Word::Blank) => Ok(()),
            Some(_) => Err(Fault::Unreadable),
        }
    }

    // The same where the last list has not been read.
    pub fn end(&mut self) -> Result<(), Fault> {
        if !self.words().is_empty() {
            return Err(Fault::Unreadable);
        }
        self.done()
    }
}
