// What an act does: to the bus, and to the record of the one block that it concerns.
ghost use Rattle.std.specs.Prelude.{◌≡◌};
ghost use Rattle.bus.specs.Breaches.{how_many, judged};
ghost use Rattle.bus.specs.Bus.{ended, confirmed, moved, counted, concerns, work_ended, changed};

use crate::act::{Act, Confirm};
use crate::breach::Breaches;
use crate::state::{BusState, PageRead, Phase, Work};
use flash::part::Part;
use flash::record::BlockRecord;
use flash::status::{Verdict, is_ready};

// Matches on the act: the laws go over the acts by cases.
impl BusState {
    // What is busy ends with a ready status: what becomes of its block's record.
    fn end_record(&self, status: u8, block: &mut BlockRecord)
        ensures { block.new ≡ work_ended self.now.busy status block.old }
    {
        match self.busy {
            Some(Work::Program { .. }) => block.end_program(Verdict::from(status)),
            Some(Work::Erase { .. }) => block.end_erase(Verdict::from(status)),
            _ => {}
        }
    }

    // What is busy ends.
    fn end_work(&mut self)
        ensures { self.new ≡ ended self.old self.old.busy }
    {
        match self.busy {
            Some(Work::Read(read)) => self.register = Some(read),
            Some(Work::Program { .. }) => self.chain = None,
            _ => {}
        }
        self.busy = None;
    }

    fn learn_part(&mut self, bytes: [u8; 5])
        ensures { self.new ≡ moved self.old (Act.Identify bytes) }
    {
        self.phase = Phase::Quiet;
        if self.part.is_none() {
            self.part = Part::try_from(bytes).ok();
        }
    }

    fn begin_program(&mut self, block: u32, confirm: Confirm)
        ensures { self.new ≡ confirmed self.old block confirm }
    {
        self.phase = Phase::Quiet;
        match confirm {
            Confirm::Program | Confirm::Copy => self.busy = Some(Work::Program { block }),
            Confirm::Cache => {
                self.busy = Some(Work::CachePage);
                self.chain = Some(block);
            }
        }
    }

    fn reset(&mut self)
        ensures { self.new ≡ moved self.old Act.Reset }
    {
        self.phase = Phase::Quiet;
        self.busy = Some(Work::Reset);
        self.register = None;
        self.chain = None;
    }

    /// The bus moves by this act.
    pub(crate) fn perform(&mut self, act: Act)
        ensures { self.new ≡ moved self.old act }
    {
        match act {
            Act::WhileBusy | Act::OutOfPlace => {}
            Act::Reset => self.reset(),
            Act::Prepare { phase, register } => {
                self.phase = phase;
                self.register = register;
            }
            Act::Status { byte } => {
                if is_ready(byte) {
                    self.end_work();
                }
            }
            Act::Identify { bytes } => self.learn_part(bytes),
            Act::Read(read) => {
                self.phase = Phase::Quiet;
                self.busy = Some(Work::Read(read));
            }
            Act::Data { row, column, .. } => {
                self.phase = Phase::Output;
                self.register = Some(PageRead {
                    row,
                    column: column.next(),
                    copy: false,
                });
            }
            Act::Erase { row } => {
                self.phase = Phase::Quiet;
                self.busy = Some(Work::Erase { block: row.block() });
            }
            Act::Load {
                row,
                start,
                column,
                ..
            } => self.phase = Phase::Loading {
                row,
                start,
                next: column.next(),
            },
            Act::Program { row, confirm, .. } => self.begin_program(row.block(), confirm),
        }
    }

    /// Breaches are counted up to 65,535.
    pub(crate) fn count(&mut self, breaches: Breaches)
        ensures { self.new ≡ counted self.old (how_many breaches) }
    {
        self.breaches = self.breaches.saturating_add(breaches.count());
    }

    /// The block whose record an act concerns, if any.
    pub(crate) fn concerned(&self, act: Act) -> Option<u32>
        ensures { result ≡ concerns self.now act }
    {
        match act {
            Act::Reset => self.under_way(),
            Act::Status { byte } if is_ready(byte) => self.work_block(),
            Act::Data { row, column, .. } if column.is_mark() => Some(row.block()),
            Act::Erase { row } | Act::Program { row, .. } => Some(row.block()),
            _ => None,
        }
    }

    /// What an act makes of the record of the block that it concerns.
    pub(crate) fn change(&self, act: Act, block: &mut BlockRecord)
        ensures { block.new ≡ changed self.now act block.old }
    {
        match act {
            Act::Reset | Act::Erase { .. } => block.forget_pages(),
            Act::Status { byte } => self.end_record(byte, block),
            Act::Data { row, byte, .. } => block.note_mark(row.page(), byte),
            Act::Program { row, .. } => block.note_program(self.programs_allowed(), row.page()),
            _ => {}
        }
    }

    /// The rules that an act breaks, judged on that record as it is before the act.
    pub(crate) fn judge(&self, act: Act, block: &BlockRecord) -> Breaches
        ensures { result ≡ judged self.now block.now act }
    {
        match act {
            Act::WhileBusy => Breaches {
                while_busy: true,
                ..Breaches::NONE
            },
            Act::OutOfPlace => Breaches {
                out_of_place: true,
                ..Breaches::NONE
            },
            Act::Erase { .. } => Breaches {
                unfit_block: !block.is_fit(),
                ..Breaches::NONE
            },
            Act::Program { row, .. } => Breaches {
                unfit_block: !block.is_fit(),
                page_order: block.pages.out_of_order(self.chain.is_some(), row.page()),
                too_many_programs: block
                    .pages
                    .programmed_out(self.programs_allowed(), row.page()),
                ..Breaches::NONE
            },
            _ => Breaches::NONE,
        }
    }
}
