// The calls, with their arguments.
ghost use Rattle.std.specs.Prelude.{◌≡◌, ℕ, ◌+◌, ◌-◌, ◌^◌, ◌≤◌, min, List, length};
ghost use Rattle.calls.specs.Table.{row_count, address_count, poll_count, open_count, most, WithinMost};
ghost use Rattle.calls.specs.Told.{ToldBack};

use flash::address::Column;
use flash::page::Page;
use flash::part::Part;

/// A call. A slip goes by its number; the bytes of a program go beside the call.
// Page and column stand apart: look, erase and copy name a page alone, and a chain's page has its block from
// the slip.
#[derive(Clone, Copy)]
pub enum Call {
    Identify,
    Look(Page),
    Close,
    Read {
        page: Page,
        column: Column,
        length: usize,
    },
    Erase {
        block: u16,
    },
    Program {
        page: Page,
        column: Column,
    },
    CacheFirst {
        page: Page,
        column: Column,
    },
    CacheNext {
        slip: u32,
        page: u8,
        column: Column,
    },
    CacheLast {
        slip: u32,
        page: u8,
        column: Column,
    },
    Copy {
        source: Page,
        destination: Page,
    },
    Settle {
        slip: u32,
    },
    Abandon {
        slip: u32,
    },
    Reset,
    Pick {
        from: u16,
    },
    Record {
        block: u16,
    },
}

// How many bytes a row has on the bus.
fn row_count(part: Option<Part>) -> usize
    ensures { result ≡ row_count part }
{
    part.map_or(0, |part| usize::from(part.address_cycles()) - 2)
}

// A command, an address, a second command, and a poll. Part and polls stand together, and make no struct:
// they are fields of a session beside others, and a poll or a row alone needs one of them.
fn open_count(part: Option<Part>, polls: u16) -> usize
    ensures { result ≡ open_count part polls }
{
    row_count(part) + usize::from(polls) + 5
}

impl Call {
    fn most_of(self, part: Option<Part>, polls: u16, count: usize) -> usize
        ensures { result ≡ min (most part polls self count) (2 ^ 64 - 1) }
    {
        let rows = row_count(part);
        let poll = usize::from(polls) + 1;
        match self {
            Call::Identify => poll + 8,
            Call::Look(_) => open_count(part, polls) + 2,
            Call::Read { length, .. } => length.saturating_add(open_count(part, polls) + 1),
            Call::Erase { .. } => rows + 2,
            Call::Program { .. } | Call::CacheFirst { .. } => count.saturating_add(rows + 4),
            Call::CacheNext { .. } | Call::CacheLast { .. } => count.saturating_add(
                poll + rows + 4,
            ),
            Call::Copy { .. } => open_count(part, polls) + rows + 4,
            Call::Settle { .. } => poll,
            Call::Abandon { .. } | Call::Reset => poll + 1,
            Call::Close | Call::Pick { .. } | Call::Record { .. } => 0,
        }
    }

    /// The most cycles that the call can put on a port, with this many bytes to program: what the
    /// port's room is compared with. It stays at the top where that is more than a usize holds.
    /// Whatever the chip replies, the call's cycles are no more, and the bus reader tells from them
    /// what the call was.
    pub fn most_cycles(self, part: Option<Part>, polls: u16, count: usize) -> usize
        ensures most { result ≡ min (most part polls self count) (2 ^ 64 - 1) }
        ensures within { WithinMost part polls self count }
        ensures told { ToldBack part polls self }
    {
        self.most_of(part, polls, count)
    }
}
