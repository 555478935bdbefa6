// docs/RULES.md, 'Writing a book', for the desk: the program that reads a sheet on standard input and writes the sheet of its final book on standard output.
#![tactic(auto)]

ghost use Rattle.std.specs.Prelude.{◌≡◌, ◌++◌, ◌≤◌, length, drop, Ok, Err};
ghost use Rattle.written.specs.Sheets.{sheet_of, most_written};
ghost use Rattle.input.specs.Rooms.{input_room};
ghost use Rattle.input.specs.Answers.{Within, Promised};
ghost use Rattle.finals.specs.declared.NoSheet.{NoSheet};
ghost use Rattle.finals.specs.Finals.{WritesFinal, AnswersFinal, sheet_printed};

use finals::NoSheet;
use std::io;
use table::Refusal;

// Fixed memory, no heap: how much a run uses is known.
fn main(rt: HostRuntime) {
    let mut sheet = [0u8; input::INPUT_ROOM];
    let read = streams::read(&mut rt.stdin(), &mut sheet);
    let mut memory = [0u8; written::MOST_WRITTEN];
    let answer = run(&sheet, read.ok(), &mut memory);
    say(&rt, answer, read);
    streams::print(
        &rt,
        printed(&memory, answer),
        b"final_sheet: standard output did not take the whole sheet",
    );
}

// Runs the input, of which so many bytes were read, or none where a read failed. The memory `sheet` holds all of it, or as much of it as there is room for.
fn run(sheet: &[u8], read: Option<usize>, memory: &mut [u8]) -> Result<u16, NoSheet>
    requires { (input_room ≤ length sheet.now) × (most_written ≤ length memory.old) × Within (length sheet.now) read }
    ensures { AnswersFinal sheet.now read memory.old result memory.new }
{
    let bytes = read.ok_or(NoSheet::Unread)?;
    final_of(&sheet[..bytes], memory)
}

// The sheet of the book that a sheet makes, or the header's refusal. The memory has room for the sheet of every book, so 13 is not given.
fn final_of(sheet: &[u8], memory: &mut [u8]) -> Result<u16, NoSheet>
    requires { most_written ≤ length memory.old }
    ensures { WritesFinal sheet.now memory.old result memory.new }
{
    let made = book_maker::sound_book_of(sheet)?;
    Ok(writer::written(&made, memory)?)
}

// What goes to standard output: the sheet, or nothing.
fn printed<'a>(memory: &'a [u8], answer: Result<u16, NoSheet>) -> &'a [u8]
    requires { Promised WritesFinal (Err NoSheet.Unread) memory.now answer }
    ensures { result.now ≡ sheet_printed memory.now answer }
{
    match answer {
        Ok(bytes) => &memory[..usize::from(bytes)],
        Err(_) => &[],
    }
}

// Says on standard error why there is no sheet.
// The arms do different things: a match is plainest.
fn say(rt: &HostRuntime, answer: Result<u16, NoSheet>, read: io::Result<usize>) {
    match answer {
        Ok(_) => {}
        Err(NoSheet::Refused(why)) => say_refused(rt, why),
        Err(NoSheet::Unread) => streams::complain(
            rt,
            b"final_sheet: standard input could not be read",
            read.err(),
            b"; nothing was written\n",
        ),
    }
}

fn say_refused(rt: &HostRuntime, why: Refusal) {
    let _ = eprintln!(rt;
        "final_sheet: SHEET REFUSED {}; nothing was written",
        why.number()
    );
}
