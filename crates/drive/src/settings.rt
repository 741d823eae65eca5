// What a script is run on.
use crate::words::Words;
use crate::wrong::Wrong;
use flash::geometry::{COLUMNS, MOST_BLOCKS, PAGES};
use flash::part::Part;
use std::alloc::{AllocError, Global};

const PAGE: usize = COLUMNS as usize;

const MOST_ROWS: u64 = PAGES as u64 * MOST_BLOCKS as u64;

const MOST_PLACES: u64 = 1_048_576;

const READY: u8 = 0xC0;

#[derive(Clone, Copy)]
pub enum Setting {
    Polls,
    Tape,
    Replies,
    Chip,
    Status,
    Cell,
}

impl Setting {
    /// None is no refusal: the word may be a call.
    pub fn named(name: &str) -> Option<Setting> {
        match name {
            "polls" => Some(Setting::Polls),
            "tape" => Some(Setting::Tape),
            "replies" => Some(Setting::Replies),
            "chip" => Some(Setting::Chip),
            "status" => Some(Setting::Status),
            "cell" => Some(Setting::Cell),
            _ => None,
        }
    }
}

/// What a tape is made of: how many places it has, and its replies.
#[derive(Drop)]
pub struct TapeSetting {
    pub places: usize,
    pub replies: Vec<u8>,
}

impl TapeSetting {
    fn set_places(&mut self, words: &mut Words<'_>) -> Result<(), Wrong> {
        self.places = words.up_to(MOST_PLACES)?;
        Ok(())
    }

    fn add_replies(&mut self, words: &mut Words<'_>) -> Result<(), Wrong> {
        let bytes = words.bytes()?;
        self.replies.extend_from_slice(bytes.as_slice())?;
        Ok(())
    }
}

/// What a model chip is made of: its part, its cells, and a status byte for each block.
#[derive(Drop)]
pub struct ChipSetting {
    pub part: Part,
    pub cells: Vec<u8>,
    pub statuses: Vec<u8>,
}

impl ChipSetting {
    fn new(words: &mut Words<'_>) -> Result<ChipSetting, Wrong> {
        let part = match words.word()? {
            "1G" => Part::OneGbit,
            "2G" => Part::TwoGbit,
            _ => return Err(Wrong::UnknownPart),
        };
        // By `as`, here and in `set_cells`: `number` promises so few that their cells can be counted.
        let rows = words.number(MOST_ROWS)? as usize;
        Ok(ChipSetting {
            part,
            cells: vec![in words.heap; 0xFF; PAGE * rows]?,
            statuses: Vec::new(words.heap),
        })
    }

    // The list of statuses is as long as the highest block named needs.
    fn set_status(&mut self, words: &mut Words<'_>) -> Result<(), Wrong> {
        let block = usize::from(words.block()?);
        let byte = words.byte()?;
        if self.statuses.len() <= block {
            self.statuses.resize(block + 1, READY)?;
        }
        if let Some(status) = self.statuses.get_mut(block) {
            *status = byte;
        }
        Ok(())
    }

    fn set_cells(&mut self, words: &mut Words<'_>) -> Result<(), Wrong> {
        let row = words.number(MOST_ROWS - 1)? as usize;
        let column = words.number(u64::from(COLUMNS) - 1)? as usize;
        let bytes = words.bytes()?;
        let first = PAGE * row + column;
        let cells = self
            .cells
            .as_mut_slice()
            .get_mut(first..first.saturating_add(bytes.len()))
            .ok_or(Wrong::NoCell)?;
        cells.copy_from_slice(bytes.as_slice());
        Ok(())
    }
}

/// The port of a script: a tape or a chip.
#[derive(Drop)]
pub enum PortSetting {
    Tape(TapeSetting),
    Chip(ChipSetting),
}

impl PortSetting {
    /// The port of a script that says nothing of it.
    pub fn unsaid(heap: Global) -> PortSetting {
        PortSetting::Tape(TapeSetting {
            places: 4096,
            replies: Vec::new(heap),
        })
    }
}

/// What a script has said of its run.
#[derive(Drop)]
pub struct Settings {
    pub polls: u32,
    pub port: Option<PortSetting>,
}

impl Default for Settings {
    fn default() -> Settings {
        Settings {
            polls: 1,
            port: None,
        }
    }
}

impl Settings {
    fn set_polls(&mut self, words: &mut Words<'_>) -> Result<(), Wrong> {
        self.polls = words.number32()?;
        Ok(())
    }

    fn tape(&mut self, heap: Global) -> Result<&mut TapeSetting, Wrong> {
        match self.port.get_or_insert_with(|| PortSetting::unsaid(heap)) {
            PortSetting::Tape(tape) => Ok(tape),
            PortSetting::Chip(_) => Err(Wrong::TwoPorts),
        }
    }

    fn set_chip(&mut self, words: &mut Words<'_>) -> Result<(), Wrong> {
        if self.port.is_some() {
            return Err(Wrong::TwoPorts);
        }
        self.port = Some(PortSetting::Chip(ChipSetting::new(words)?));
        Ok(())
    }

    fn chip(&mut self) -> Result<&mut ChipSetting, Wrong> {
        match &mut self.port {
            Some(PortSetting::Chip(chip)) => Ok(chip),
            _ => Err(Wrong::NoChip),
        }
    }

    // A match and no table of functions: the settings set different parts.
    pub fn set(&mut self, setting: Setting, words: &mut Words<'_>) -> Result<(), Wrong> {
        match setting {
            Setting::Polls => self.set_polls(words),
            Setting::Tape => self.tape(words.heap)?.set_places(words),
            Setting::Replies => self.tape(words.heap)?.add_replies(words),
            Setting::Chip => self.set_chip(words),
            Setting::Status => self.chip()?.set_status(words),
            Setting::Cell => self.chip()?.set_cells(words),
        }
    }
}
