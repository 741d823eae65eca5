// The rules that a cycle can break.
ghost use Rattle.std.specs.Prelude.{◌≡◌, Some};
ghost use Rattle.bus.specs.Breaches.{breach_name, rules, broken_of, named, how_many};

use std::fmt;

/// A command that a busy chip does not take; a cycle that the phase does not take; an erase or a
/// program of a block that is failed or not known to be clean; a program of a stale block, of a
/// page below the last or, in a chain, of the last page; one program of a page too many.
#[derive(Clone, Copy)]
pub enum Breach {
    WhileBusy,
    OutOfPlace,
    UnfitBlock,
    PageOrder,
    TooManyPrograms,
}

impl fmt::Display for Breach {
    ghost output = { λ x. Some (breach_name x) };

    fn fmt<W: fmt::Write>(&self, f: &mut fmt::Formatter<W>) -> fmt::Result {
        f.write_str(match self {
            Breach::WhileBusy => "while busy",
            Breach::OutOfPlace => "out of place",
            Breach::UnfitBlock => "unfit block",
            Breach::PageOrder => "page order",
            Breach::TooManyPrograms => "too many programs",
        })
    }
}

/// The rules that one cycle breaks.
// Flags and no list: one cycle may break several, and the clauses name each.
#[derive(Clone, Copy)]
pub struct Breaches {
    pub while_busy: bool,
    pub out_of_place: bool,
    pub unfit_block: bool,
    pub page_order: bool,
    pub too_many_programs: bool,
}

impl Breaches {
    pub const NONE: Breaches = Breaches {
        while_busy: false,
        out_of_place: false,
        unfit_block: false,
        page_order: false,
        too_many_programs: false,
    };

    /// Each rule that is broken, in its place.
    pub fn rules(self) -> [Option<Breach>; 5]
        ensures each { result ≡ rules self }
        ensures broken { broken_of result ≡ named self }
    {
        [
            self.while_busy.then_some(Breach::WhileBusy),
            self.out_of_place.then_some(Breach::OutOfPlace),
            self.unfit_block.then_some(Breach::UnfitBlock),
            self.page_order.then_some(Breach::PageOrder),
            self.too_many_programs.then_some(Breach::TooManyPrograms),
        ]
    }

    /// How many rules are broken.
    pub fn count(self) -> u16
        ensures { result ≡ how_many self }
    {
        // A count over `rules` proves too, but takes a third more time for each cycle that is read.
        u16::from(self.while_busy)
            + u16::from(self.out_of_place)
            + u16::from(self.unfit_block)
            + u16::from(self.page_order)
            + u16::from(self.too_many_programs)
    }
}
