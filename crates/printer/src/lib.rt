// docs/RULES.md, 'What is printed': running a sheet, from its bytes to the bytes printed.
#![tactic(auto)]

ghost use Rattle.std.specs.Prelude.{ℕ, ◌+◌, ◌*◌, ◌≤◌, List, length, Ok, Err};
ghost use Rattle.printed.specs.Text.{sheet_line};
ghost use Rattle.printed.specs.Runs.{first_line_room, action_room, RunsBy, Runs};
ghost use Rattle.words.specs.Wrote.{Wrote};
ghost use Rattle.printer.specs.Written.{LinesWritten, LineWritten};

use actions::Action;
use book::SoundBook;
use fabric::Fabric;
use lines::{fault_line, file_line, route_line, withdraw_line};
use printed::{ACTION_ROOM, FIRST_LINE_ROOM};
use sheet::Header;
use table::Refusal;
use words::{named_number, number_told, refusal_told, word};

// Prints what running a sheet prints, at the front of the memory.
pub fn run(sheet: &[u8], out: &mut [u8]) -> Result<usize, Refusal>
    ensures { Runs sheet.now out.old result out.new }
{
    match sheet_reader::read_header(sheet) {
        Ok(header) => whole_sheet(sheet, header, out),
        Err(why) => refused_sheet(why, out),
    }
}

// "`SHEET REFUSED k` and nothing after it"
fn refused_sheet(why: Refusal, out: &mut [u8]) -> Result<usize, Refusal>
    ensures { (sheet : List ℕ) → RunsBy sheet (Err why) out.old result out.new }
{
    if out.len() < FIRST_LINE_ROOM {
        return Err(Refusal::Room);
    }
    let mid = word(out, 0, b"SHEET");
    Ok(refusal_told(out, mid, why))
}

// Here `Fabric` is made, of a header that was read.
fn whole_sheet(sheet: &[u8], header: Header, out: &mut [u8]) -> Result<usize, Refusal>
    requires { (1 ≤ header.n) × (header.n ≤ 12) }
    ensures { RunsBy sheet.now (Ok header) out.old result out.new }
{
    if out.len() < FIRST_LINE_ROOM + ACTION_ROOM * header.count as usize {
        return Err(Refusal::Room);
    }
    let at = sheet_line(header.n, header.count, out);
    Ok(lines(sheet, Fabric { n: header.n }, header.count, out, at))
}

// "The first line is `SHEET n count`"
fn sheet_line(n: u8, count: u16, out: &mut [u8]) -> usize
    requires { first_line_room ≤ length out.old }
    ensures { (Wrote out.old 0 (sheet_line n count) out.new result) × (result ≤ first_line_room) }
{
    let between = named_number(out, 0, b"SHEET ", n as u16);
    number_told(out, between, b" ", count)
}

// "For every action comes one line more", starting from an empty book.
fn lines(sheet: &[u8], fabric: Fabric, count: u16, out: &mut [u8], at: usize) -> usize
    requires { (1 ≤ fabric.n) × (at + action_room * count ≤ length out.old) }
    ensures { LinesWritten sheet.now fabric.n count out.old at out.new result }
{
    let mut book = SoundBook::open(fabric);
    let mut next = at;
    for k in 0..count {
        let part = sheet_reader::action_part(sheet, k as usize);
        next = line(
            fabric,
            &mut book,
            action_bytes::read_action(part),
            out,
            next,
        );
    }
    next
}

// The line of one action, by what its entry answers over the book, which it may change; or of a layout fault.
fn line(
    fabric: Fabric,
    book: &mut SoundBook,
    action: Result<Action, Refusal>,
    out: &mut [u8],
    at: usize,
) -> usize
    requires { at + action_room ≤ length out.old }
    ensures { LineWritten fabric.n book.old.book action out.old at book.new.book out.new result }
{
    match action {
        Ok(action) => entry_line(fabric, book, action, out, at),
        Err(why) => fault_line(why, out, at),
    }
}

fn entry_line(
    fabric: Fabric,
    book: &mut SoundBook,
    action: Action,
    out: &mut [u8],
    at: usize,
) -> usize
    requires { at + action_room ≤ length out.old }
    ensures { LineWritten fabric.n book.old.book (Ok action) out.old at book.new.book out.new result }
{
    match action {
        Action::File(notice) => {
            let answer = book.file(notice);
            file_line(notice.number, answer, out, at)
        }
        Action::Withdraw(number) => {
            let answer = book.withdraw(number);
            withdraw_line(number, answer, out, at)
        }
        Action::Route {
            source,
            destination,
            choice,
        } => {
            let answer = router::routed(book, source, destination, choice);
            route_line(fabric, source, destination, answer, out, at)
        }
    }
}
