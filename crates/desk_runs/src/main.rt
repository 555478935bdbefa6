// Runs many sheets and writes what each prints, with an empty line after it. The sheets lie one after the other on standard
// input, each after its length in two bytes; sheets.txt says what they are. Then a sheet is run into memory that is too short.
#![tactic(auto)]

ghost use Rattle.std.specs.Prelude.{◌≤◌, ◌<◌, length, IfSome};

use printed::MOST_ROOM;
use std::io::Read;

// Fixed memory, no heap: how much a run uses is known.
fn main(rt: HostRuntime) {
    let mut memory = [0u8; 98304];
    let bytes = read_full(&mut rt.stdin(), &mut memory);
    run_all(&rt, &memory[..bytes]);
    let empty = [b'F', b'S', b'H', 0, 1, 3, 0, 0];
    run(&rt, &empty, &mut [0u8; 23]);
    run(&rt, &empty, &mut [0u8; 24]);
}

// Reads until the input ends, the memory is full or a read fails, and answers how many bytes came: these sheets are run, also after a read that failed, so
// `streams::read` does not serve here (this program may not change what it does).
fn read_full<R: Read>(reader: &mut R, memory: &mut [u8]) -> usize
    ensures { result ≤ length memory.new }
{
    let mut bytes = 0;
    while bytes < memory.len() {
        match reader.read(&mut memory[bytes..]) {
            Ok(0) => return bytes,
            Ok(more) => bytes += more,
            Err(_) => return bytes,
        }
    }
    bytes
}

// Runs each sheet until the input ends, or ends within one.
fn run_all(rt: &HostRuntime, sheets: &[u8]) {
    let mut rest = sheets;
    while let Some((sheet, after)) = next(rest) {
        run(rt, sheet, &mut [0u8; MOST_ROOM]);
        rest = after;
    }
}

// The first sheet, and what lies after it.
fn next<'a>(sheets: &'a [u8]) -> Option<(&'a [u8], &'a [u8])>
    ensures { IfSome result (λ parts. length parts.1.now < length sheets.now) }
{
    let (length, rest) = sheets.split_first_chunk::<2>()?;
    rest.split_at_checked(usize::from(u16::from_be_bytes(*length)))
}

// The arms do different things: a match is plainest.
fn run(rt: &HostRuntime, sheet: &[u8], memory: &mut [u8]) {
    match printer::run(sheet, memory) {
        Ok(bytes) => {
            show::word(rt, &memory[..bytes]);
            show::word(rt, b"\n");
        }
        Err(why) => {
            show::word(rt, b"MEMORY");
            show::refused(rt, why);
            show::word(rt, b"\n\n");
        }
    }
}
