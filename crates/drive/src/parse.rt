// A script as it is read, line by line.
use crate::settings::{Setting, Settings};
use crate::words::{Words, split_words};
use crate::wrong::Wrong;
use calls::call::Call;
use calls::slip::{SlipKind, chain_page, slip_number};
use driver::script::Step;
use flash::page::Page;
use std::alloc::Global;

// Calls that take the place of bytes to program, or a slip.
fn program_call(name: &str, words: &mut Words<'_>) -> Result<Call, Wrong> {
    match name {
        "program" => Ok(Call::Program {
            page: words.page()?,
            column: words.column()?,
        }),
        "cache-first" => Ok(Call::CacheFirst {
            page: words.page()?,
            column: words.column()?,
        }),
        "cache-next" => Ok(Call::CacheNext {
            slip: words.slip()?,
            page: words.page_in_block()?,
            column: words.column()?,
        }),
        "cache-last" => Ok(Call::CacheLast {
            slip: words.slip()?,
            page: words.page_in_block()?,
            column: words.column()?,
        }),
        _ => Err(Wrong::UnknownWord),
    }
}

fn page_call(name: &str, words: &mut Words<'_>) -> Result<Call, Wrong> {
    match name {
        "look" => Ok(Call::Look(words.page()?)),
        "read" => Ok(Call::Read {
            page: words.page()?,
            column: words.column()?,
            length: words.length()?,
        }),
        "copy" => Ok(Call::Copy {
            source: words.page()?,
            destination: words.page()?,
        }),
        _ => program_call(name, words),
    }
}

// The call of this name, with its arguments but for bytes to program.
fn read_call(name: &str, words: &mut Words<'_>) -> Result<Call, Wrong> {
    match name {
        "identify" => Ok(Call::Identify),
        "close" => Ok(Call::Close),
        "reset" => Ok(Call::Reset),
        "erase" => Ok(Call::Erase {
            block: words.block()?,
        }),
        "pick" => Ok(Call::Pick {
            from: words.block()?,
        }),
        "record" => Ok(Call::Record {
            block: words.block()?,
        }),
        "settle" => Ok(Call::Settle {
            slip: words.slip()?,
        }),
        "abandon" => Ok(Call::Abandon {
            slip: words.slip()?,
        }),
        _ => page_call(name, words),
    }
}

fn bytes_for(call: Call, words: &mut Words<'_>) -> Result<Vec<u8>, Wrong> {
    match call {
        Call::Program { .. }
        | Call::CacheFirst { .. }
        | Call::CacheNext { .. }
        | Call::CacheLast { .. } => words.run_of_bytes(),
        _ => Ok(Vec::new(words.heap)),
    }
}

// The slip that a call gives where it is accepted.
fn slip_of(call: Call) -> Option<u32> {
    let (kind, page) = match call {
        Call::Erase { block } => (SlipKind::Erase, Page { block, page: 0 }),
        Call::Program { page, .. } => (SlipKind::Program, page),
        Call::Copy { destination, .. } => (SlipKind::Program, destination),
        Call::CacheFirst { page, .. } => (SlipKind::Chain, page),
        Call::CacheNext { slip, page, .. } => (SlipKind::Chain, chain_page(slip, page)),
        Call::CacheLast { slip, page, .. } => (SlipKind::Program, chain_page(slip, page)),
        _ => return None,
    };
    Some(slip_number(kind, page))
}

fn is_comment(line: &[u8]) -> bool {
    line.iter()
        .copied()
        .find(|byte| !matches!(*byte, b' ' | b'\t' | b'\r'))
        == Some(b'#')
}

/// The calls of a script, and the words of each. A script is run whole, so a slip `-` is found while it
/// is read: `held` is the slip of the last call that gives one, as if it were accepted, and before any
/// the number of a spent slip.
#[derive(Drop)]
pub struct Calls {
    pub steps: Vec<Step>,
    // Beside the steps and not in pairs with them: the run takes a slice of steps.
    pub titles: Vec<String>,
    held: u32,
}

impl Calls {
    fn new(heap: Global) -> Calls {
        Calls {
            steps: Vec::new(heap),
            titles: Vec::new(heap),
            held: 0,
        }
    }

    fn add(&mut self, title: String, name: &str, words: &mut Words<'_>) -> Result<(), Wrong> {
        let call = read_call(name, words)?;
        let bytes = bytes_for(call, words)?;
        self.steps.push(Step { call, bytes })?;
        self.titles.push(title)?;
        self.held = slip_of(call).unwrap_or(self.held);
        Ok(())
    }
}

#[derive(Drop)]
pub struct Script {
    pub settings: Settings,
    pub calls: Calls,
}

impl Script {
    pub fn new(heap: Global) -> Script {
        Script {
            settings: Settings::default(),
            calls: Calls::new(heap),
        }
    }

    fn add_setting(&mut self, setting: Setting, words: &mut Words<'_>) -> Result<(), Wrong> {
        if !self.calls.steps.is_empty() {
            return Err(Wrong::Late);
        }
        self.settings.set(setting, words)
    }

    /// One line more: a setting, a call, a comment or nothing.
    pub fn add_line(&mut self, heap: Global, line: &[u8]) -> Result<(), Wrong> {
        if is_comment(line) {
            return Ok(());
        }
        let line = split_words(heap, line)?;
        let mut words = Words::new(heap, self.calls.held, line.as_slice());
        let Ok(name) = words.word() else {
            return Ok(());
        };
        match Setting::named(name) {
            Some(setting) => self.add_setting(setting, &mut words)?,
            None => self.calls.add(line.join(heap, " ")?, name, &mut words)?,
        }
        words.end()
    }
}
