// What is asked of the book that a sheet makes; where its header is refused no book is made, and the refusal is the answer. The clauses speak of the number as
// which an answer crosses the border.
ghost use Rattle.std.specs.Prelude.{◌≤◌, IfOk};
ghost use Rattle.changes.specs.Runs.{Change};
ghost use Rattle.held.specs.Lives.{Asks};
ghost use Rattle.written.specs.Sheets.{written_says, Writes};
ghost use Rattle.questions.specs.Entries.{link_says, listing_says, Tests, Lists};
ghost use Rattle.walks.specs.Entries.{walk_says, Walks};
ghost use Rattle.routes.specs.Routed.{route_says, Routes};
ghost use Rattle.packing.specs.Packed.{packed, Tells};
ghost use Rattle.handed.specs.Books.{OverSheet, OverLent};
ghost use Rattle.pairs.specs.Pairs.{RoutesPairs};
ghost use Rattle.table.specs.Reply.{answer_says};

use book_maker::sound_book_of;
use notices::Notice;
use routes::NoRoute;
use table::Refusal;
use walks::NotClear;

pub fn file(sheet: &[u8], notice: Notice, memory: &mut [u8]) -> Result<u16, Refusal>
    ensures { Asks sheet.now (Change.file notice) memory.old memory.new (packed (written_says result)) }
{
    let mut book = sound_book_of(sheet)?;
    book.file(notice)?;
    writer::written(&book, memory)
}

pub fn withdraw(sheet: &[u8], number: u16, memory: &mut [u8]) -> Result<u16, Refusal>
    ensures { Asks sheet.now (Change.withdraw number) memory.old memory.new (packed (written_says result)) }
{
    let mut book = sound_book_of(sheet)?;
    book.withdraw(number)?;
    writer::written(&book, memory)
}

pub fn write(sheet: &[u8], memory: &mut [u8]) -> Result<u16, Refusal>
    ensures { OverLent sheet.now memory.old memory.new (λ b. Tells (Writes b memory.old memory.new) written_says) (packed (written_says result)) }
{
    writer::written(&sound_book_of(sheet)?, memory)
}

pub fn link(sheet: &[u8], stage: u8, switch: u16, code: u8) -> Result<Option<u16>, Refusal>
    ensures { OverSheet sheet.now (λ b. Tells (Tests b stage switch code) link_says) (packed (link_says result)) }
{
    asked::tested(&sound_book_of(sheet)?, stage, switch, code)
}

pub fn route(sheet: &[u8], source: u16, destination: u16, choice: u8) -> Result<u32, NoRoute>
    ensures { OverSheet sheet.now (λ b. Tells (Routes b source destination choice) route_says) (packed (route_says result)) }
{
    router::routed(&sound_book_of(sheet)?, source, destination, choice)
}

pub fn routes(sheet: &[u8], choice: u8, pairs: &[u16], answers: &mut [u64]) -> Result<(), Refusal>
    ensures { OverLent sheet.now answers.old answers.new (λ b. RoutesPairs b choice pairs.now answers.old answers.new) (packed (answer_says result)) }
{
    many_routes::routes(&sound_book_of(sheet)?, choice, pairs, answers)
}

pub fn walk(sheet: &[u8], source: u16, tag: u32) -> Result<(), NotClear>
    ensures { OverSheet sheet.now (λ b. Tells (Walks b source tag) walk_says) (packed (walk_says result)) }
{
    walker::walked(&sound_book_of(sheet)?, source, tag)
}

#[tactic(auto, using(crate::proofs::Few::few_of_listing))]
pub fn list(sheet: &[u8], memory: &mut [u8]) -> Result<usize, Refusal>
    ensures over { OverLent sheet.now memory.old memory.new (λ b. Tells (Lists b memory.old memory.new) listing_says) (packed (listing_says result)) }
    ensures few { IfOk result (λ count. count ≤ 48) }
{
    asked::listed(&sound_book_of(sheet)?, memory)
}
