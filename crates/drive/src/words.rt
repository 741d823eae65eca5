// The words of a line, and what each may stand for.
ghost use Rattle.std.specs.Prelude.{◌≤◌, IfOk};

use crate::wrong::Wrong;
use bus_log::hex::byte_of;
use flash::address::Column;
use flash::page::Page;
use std::alloc::Global;
use std::mem;
use std::str::from_utf8;

/// The words between spaces, tabs and carriage returns.
pub fn split_words(heap: Global, line: &[u8]) -> Result<Vec<&str>, Wrong> {
    let text = from_utf8(line).map_err(|_| Wrong::NotText)?;
    let words = text
        .split([' ', '\t', '\r'])
        .filter(|word| !word.is_empty())
        .collect(heap)?;
    Ok(words)
}

/// Words of a line that are taken one after the other, with the slip that `-` stands for and the heap
/// that their bytes go to.
#[derive(Drop)]
pub struct Words<'a> {
    pub heap: Global,
    held: u32,
    words: &'a [&'a str],
}

impl<'a> Words<'a> {
    pub fn new(heap: Global, held: u32, words: &'a [&'a str]) -> Words<'a> {
        Words { heap, held, words }
    }

    pub fn word(&mut self) -> Result<&'a str, Wrong> {
        match self.words {
            [word, others @ ..] => {
                self.words = others;
                Ok(*word)
            }
            [] => Err(Wrong::MissingWord),
        }
    }
}

impl Words<'_> {
    /// No word may be left.
    pub fn end(&self) -> Result<(), Wrong> {
        if self.words.is_empty() {
            Ok(())
        } else {
            Err(Wrong::ExtraWord)
        }
    }

    /// A decimal number up to the most.
    pub fn number(&mut self, most: u64) -> Result<u64, Wrong>
        ensures { IfOk result (λ n. n ≤ most) }
    {
        let word = self.word()?;
        match word.parse::<u64>() {
            Ok(number) if number <= most && !word.starts_with('+') => Ok(number),
            _ => Err(Wrong::Number { most }),
        }
    }

    /// The same in the type that is wanted, which holds the most.
    pub fn up_to<T: TryFrom<u64>>(&mut self, most: u64) -> Result<T, Wrong>
    where
        T::Error: Drop,
    {
        T::try_from(self.number(most)?).map_err(|_| Wrong::Number { most })
    }

    pub fn block(&mut self) -> Result<u16, Wrong> {
        self.up_to(u16::MAX.into())
    }

    pub fn page_in_block(&mut self) -> Result<u8, Wrong> {
        self.up_to(u8::MAX.into())
    }

    pub fn page(&mut self) -> Result<Page, Wrong> {
        let block = self.block()?;
        let page = self.page_in_block()?;
        Ok(Page { block, page })
    }

    pub fn column(&mut self) -> Result<Column, Wrong> {
        Ok(Column::new(self.up_to(u16::MAX.into())?))
    }

    pub fn number32(&mut self) -> Result<u32, Wrong> {
        self.up_to(u32::MAX.into())
    }

    pub fn length(&mut self) -> Result<usize, Wrong> {
        self.up_to(u64::MAX)
    }

    /// The number of a slip; `-` is the one held.
    pub fn slip(&mut self) -> Result<u32, Wrong> {
        match self.words {
            ["-", others @ ..] => {
                self.words = others;
                Ok(self.held)
            }
            _ => self.number32(),
        }
    }

    /// A byte of two digits.
    pub fn byte(&mut self) -> Result<u8, Wrong> {
        byte_of(self.word()?.as_bytes()).ok_or(Wrong::Hex)
    }

    /// All words that are left, of two digits each; there is one at least.
    pub fn bytes(&mut self) -> Result<Vec<u8>, Wrong> {
        match mem::take(&mut self.words) {
            [] => Err(Wrong::MissingWord),
            words => words
                .iter()
                .map(|word| byte_of(word.as_bytes()).ok_or(Wrong::Hex))
                .try_collect(self.heap),
        }
    }

    /// One word of bytes, two digits each; `-` for none.
    pub fn run_of_bytes(&mut self) -> Result<Vec<u8>, Wrong> {
        match self.word()? {
            "-" => Ok(Vec::new(self.heap)),
            digits => digits
                .as_bytes()
                .chunks(2)
                .map(|pair| byte_of(pair).ok_or(Wrong::Hex))
                .try_collect(self.heap),
        }
    }
}
