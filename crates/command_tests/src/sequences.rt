// The command sequences as values, and the sending of one to any port.
use bus::act::Confirm;
use commands::copy::{send_copy_program, send_copy_read};
use commands::erase::send_erase;
use commands::poll::poll;
use commands::program::send_program;
use commands::read::send_read;
use commands::reset::{send_identity, send_reset};
use flash::address::Column;
use flash::fault::Fault;
use flash::page::Page;
use flash::part::Part;
use port::port::Port;

/// A column goes by its number.
#[derive(Clone, Copy)]
pub(crate) enum Sequence {
    Poll(Option<Page>),
    Reset(Option<Page>),
    Identity,
    Read(Page, u16),
    Erase(Page),
    Program(Page, u16, &'static [u8], Confirm),
    CopyRead(Page),
    CopyProgram(Page),
}

impl Sequence {
    /// The page that a timeout of its poll names.
    pub(crate) fn page(self) -> Option<Page> {
        match self {
            Sequence::Poll(Some(page))
            | Sequence::Reset(Some(page))
            | Sequence::Read(page, _)
            | Sequence::CopyRead(page) => Some(page),
            _ => None,
        }
    }
}

fn fill(gives: &mut [u8], bytes: &[u8]) {
    for (to, from) in gives.iter_mut().zip(bytes.iter()) {
        *to = *from;
    }
}

/// Sends a sequence, and leaves the bytes that it gives: a status, an identity, or what is read.
pub(crate) fn send<P: Port>(
    port: &mut P,
    part: Part,
    polls: u16,
    sequence: Sequence,
    gives: &mut [u8],
) -> Result<(), Fault> {
    match sequence {
        Sequence::Poll(page) => {
            let status = poll(port, polls, page)?;
            fill(gives, &[status]);
            Ok(())
        }
        Sequence::Reset(page) => send_reset(port, polls, page),
        Sequence::Identity => {
            let bytes = send_identity(port)?;
            fill(gives, &bytes);
            Ok(())
        }
        Sequence::Read(page, column) => send_read(
            port,
            part,
            polls,
            page,
            Column::new(column),
            gives,
        ),
        Sequence::Erase(page) => send_erase(port, part, page.row()),
        Sequence::Program(page, column, bytes, confirm) => send_program(
            port,
            part,
            page.row(),
            Column::new(column),
            bytes,
            confirm,
        ),
        Sequence::CopyRead(page) => send_copy_read(port, part, polls, page),
        Sequence::CopyProgram(page) => send_copy_program(port, part, page.row()),
    }
}
