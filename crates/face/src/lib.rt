// The entries of docs/RULES.md for C and Rust: numbers and byte slices alone. include/tabashfar.h says how a host calls them. An answer is one number
// (`packed`): its low byte is the table's number, 0 where the call was accepted, and the bits from 8 on hold the value.
#![tactic(auto)]

mod over_sheet; // over_sheet.rt: the entries over the book that a sheet makes

ghost use Rattle.table.specs.Reply.{answer_says};
ghost use Rattle.std.specs.Prelude.{◌≡◌, ◌+◌, ◌*◌, length};
ghost use Rattle.tags.specs.Entries.{tag_says, TagToSteps, StepsToTag, NormalForm};
ghost use Rattle.notices.specs.declared.Target.TheVariants.{Links, Switch, Pattern};
ghost use Rattle.written.specs.Sheets.{written_says, Writes};
ghost use Rattle.written.specs.Changes.{OpensSheet};
ghost use Rattle.changes.specs.Runs.{Change};
ghost use Rattle.held.specs.Lives.{Asks};
ghost use Rattle.questions.specs.Entries.{link_says, listing_says, Tests, Lists};
ghost use Rattle.walks.specs.Entries.{walk_says, Walks};
ghost use Rattle.routes.specs.Routed.{route_says, Routes};
ghost use Rattle.actions.specs.Entries.{ReadsAction};
ghost use Rattle.sheet.specs.Entries.{ReadsHeader, HasAction, start_of, part_of};
ghost use Rattle.printed.specs.Runs.{ran_says, Runs};
ghost use Rattle.packing.specs.Packed.{byte, Tells};
ghost use Rattle.packer.specs.Headers.{header_told};
ghost use Rattle.fields.specs.Fields.{kind_says, ReadsFields};
ghost use Rattle.pairs.specs.Pairs.{RoutesPairs};
ghost use Rattle.handed.specs.Books.{OverSheet, OverLent};

use actions::HEADER_LENGTH;
use book::Book;
use notices::{Notice, Target};
use packer::{BYTE, ended, found, told};

// "Tag to steps (n, source, tag, memory)"
#[unsafe(no_mangle)]
pub extern "C" fn tabashfar_tag_to_steps(n: u8, source: u16, tag: u32, memory: &mut [u8]) -> u64
    ensures { Tells (λ a. TagToSteps n source tag memory.old a memory.new) answer_says result }
{
    told(tagging::tag_to_steps(n, source, tag, memory))
}

// "Steps to tag (n, source, memory)"
#[unsafe(no_mangle)]
pub extern "C" fn tabashfar_steps_to_tag(n: u8, source: u16, memory: &[u8]) -> u64
    ensures { Tells (StepsToTag n source memory.now) tag_says result }
{
    told(tagging::steps_to_tag(n, source, memory))
}

// "Normal form (n, source, tag)"
#[unsafe(no_mangle)]
pub extern "C" fn tabashfar_normal_form(n: u8, source: u16, tag: u32) -> u64
    ensures { Tells (NormalForm n source tag) tag_says result }
{
    told(tagging::normal_form(n, source, tag))
}

// "Open (n)", the book handed back as a sheet
#[unsafe(no_mangle)]
pub extern "C" fn tabashfar_open(n: u8, memory: &mut [u8]) -> u64
    ensures { Tells (OpensSheet n memory.old memory.new) written_says result }
{
    told(writer::handed_back(Book::open(n), memory))
}

// "File", of each target, the book handed back as a sheet
#[unsafe(no_mangle)]
pub extern "C" fn tabashfar_file_links(
    sheet: &[u8],
    number: u16,
    stage: u8,
    switch: u16,
    set: u8,
    class: u8,
    memory: &mut [u8],
) -> u64
    ensures { Asks sheet.now (Change.file (record { number = number; target = Links stage switch set; class = class })) memory.old memory.new result }
{
    let notice = Notice {
        number,
        target: Target::Links { stage, switch, set },
        class,
    };
    told(over_sheet::file(sheet, notice, memory))
}

#[unsafe(no_mangle)]
pub extern "C" fn tabashfar_file_switch(
    sheet: &[u8],
    number: u16,
    column: u8,
    switch: u16,
    class: u8,
    memory: &mut [u8],
) -> u64
    ensures { Asks sheet.now (Change.file (record { number = number; target = Switch column switch; class = class })) memory.old memory.new result }
{
    let notice = Notice {
        number,
        target: Target::Switch { column, switch },
        class,
    };
    told(over_sheet::file(sheet, notice, memory))
}

#[unsafe(no_mangle)]
pub extern "C" fn tabashfar_file_pattern(
    sheet: &[u8],
    number: u16,
    stage: u8,
    value: u16,
    mask: u16,
    set: u8,
    class: u8,
    memory: &mut [u8],
) -> u64
    ensures { Asks sheet.now (Change.file (record { number = number; target = Pattern stage value mask set; class = class })) memory.old memory.new result }
{
    let notice = Notice {
        number,
        target: Target::Pattern {
            stage,
            value,
            mask,
            set,
        },
        class,
    };
    told(over_sheet::file(sheet, notice, memory))
}

// "Withdraw", the book handed back as a sheet
#[unsafe(no_mangle)]
pub extern "C" fn tabashfar_withdraw(sheet: &[u8], number: u16, memory: &mut [u8]) -> u64
    ensures { Asks sheet.now (Change.withdraw number) memory.old memory.new result }
{
    told(over_sheet::withdraw(sheet, number, memory))
}

// "A book is written as a sheet", of version 2 "where some notice that stands is busy"
#[unsafe(no_mangle)]
pub extern "C" fn tabashfar_write(sheet: &[u8], memory: &mut [u8]) -> u64
    ensures { OverLent sheet.now memory.old memory.new (λ b. Tells (Writes b memory.old memory.new) written_says) result }
{
    told(over_sheet::write(sheet, memory))
}

// "Link test"
#[unsafe(no_mangle)]
pub extern "C" fn tabashfar_link(sheet: &[u8], stage: u8, switch: u16, code: u8) -> u64
    ensures { OverSheet sheet.now (λ b. Tells (Tests b stage switch code) link_says) result }
{
    told(over_sheet::link(sheet, stage, switch, code))
}

// "Route", over all notices or broken ones only
#[unsafe(no_mangle)]
pub extern "C" fn tabashfar_route(sheet: &[u8], source: u16, destination: u16, choice: u8) -> u64
    ensures { OverSheet sheet.now (λ b. Tells (Routes b source destination choice) route_says) result }
{
    found(over_sheet::route(sheet, source, destination, choice))
}

// "Route", for each pair of a source and a destination, in order: one book and one choice for all, and the answers at the front of the memory
#[unsafe(no_mangle)]
pub extern "C" fn tabashfar_routes(
    sheet: &[u8],
    choice: u8,
    pairs: &[u16],
    answers: &mut [u64],
) -> u64
    ensures { OverLent sheet.now answers.old answers.new (λ b. RoutesPairs b choice pairs.now answers.old answers.new) result }
{
    told(over_sheet::routes(sheet, choice, pairs, answers))
}

// "Walk (book, source, tag)"
#[unsafe(no_mangle)]
pub extern "C" fn tabashfar_walk(sheet: &[u8], source: u16, tag: u32) -> u64
    ensures { OverSheet sheet.now (λ b. Tells (Walks b source tag) walk_says) result }
{
    ended(over_sheet::walk(sheet, source, tag))
}

// "Listing"
#[unsafe(no_mangle)]
#[tactic(auto, using(crate::proofs::Few::few_fit))]
pub extern "C" fn tabashfar_listing(sheet: &[u8], memory: &mut [u8]) -> u64
    ensures { OverLent sheet.now memory.old memory.new (λ b. Tells (Lists b memory.old memory.new) listing_says) result }
{
    told(over_sheet::list(sheet, memory))
}

// "Header (sheet)": n in the low byte of the value, the count from bit 8 on, the version from bit 24 on
#[unsafe(no_mangle)]
pub extern "C" fn tabashfar_header(sheet: &[u8]) -> u64
    ensures { Tells (ReadsHeader sheet.now) header_told result }
{
    told(sheet_reader::read_header(sheet))
}

// "Is action k there (sheet, k), k from 0 on"
#[unsafe(no_mangle)]
pub extern "C" fn tabashfar_has_action(sheet: &[u8], k: usize) -> u64
    ensures { Tells (HasAction sheet.now k) answer_says result }
{
    told(sheet_reader::has_action(sheet, k))
}

// "Part of action k (sheet, k)": how long it is in the low byte, and from bit 8 on where in the sheet it starts; 0 where it is not there, as the C
// interface says
#[unsafe(no_mangle)]
pub extern "C" fn tabashfar_action_part(sheet: &[u8], k: usize) -> u64
    ensures { result ≡ length (part_of sheet.now k) + byte * start_of sheet.now k }
{
    match sheet_reader::has_action(sheet, k) {
        Ok(()) => {
            let each = sheet_reader::each_in(sheet);
            each as u64 + BYTE * (HEADER_LENGTH + each * k) as u64
        }
        Err(_) => 0,
    }
}

// "Action reader (part)"
#[unsafe(no_mangle)]
pub extern "C" fn tabashfar_read_action(part: &[u8]) -> u64
    ensures { Tells (ReadsAction part.now) kind_says result }
{
    field_reader::kind(action_bytes::read_action(part))
}

// "Past these it answers the action and its fields": the eight of them at the front of the memory
#[unsafe(no_mangle)]
pub extern "C" fn tabashfar_action_fields(part: &[u8], memory: &mut [u16]) -> u64
    ensures { ReadsFields part.now memory.old memory.new result }
{
    field_reader::read_fields(part, memory)
}

// Runs a whole sheet and writes what it prints at the front of the memory.
#[unsafe(no_mangle)]
pub extern "C" fn tabashfar_run(sheet: &[u8], memory: &mut [u8]) -> u64
    ensures { Tells (λ a. Runs sheet.now memory.old a memory.new) ran_says result }
{
    told(printer::run(sheet, memory))
}
