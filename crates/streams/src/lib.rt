// A program's standard streams: reading standard input, writing standard output, and what is said on standard error. The words are the program's.
#![tactic(auto)]

mod complaints; // complaints.rt: what went wrong, on standard error

ghost use Rattle.std.specs.Prelude.{◌≡◌, length, IfSome};
ghost use Rattle.std.specs.Result.{result_ok};
ghost use Rattle.input.specs.Answers.{Within};
ghost use Rattle.streams.specs.Reads.{input_at, HoldsRead, CauseTold};

pub use complaints::{complain, say, say_number};
use std::io;
use std::io::Read;

// Reads until the input ends, the memory is full or a read fails, and answers how many bytes came, or why a read failed. A read may bring fewer
// bytes than there is room for. Where it is known what the reader gives, the memory holds that.
pub fn read<R: Read>(reader: &mut R, memory: &mut [u8]) -> io::Result<usize>
    ensures within { Within (length memory.new) (result_ok result) }
    ensures held { IfSome (R.remaining reader.old) (λ all. HoldsRead memory.new (result_ok result) all) }
{
    // no `for`: a turn brings any number of bytes
    let mut bytes = 0;
    while bytes < memory.len() {
        let answer = reader.read(&mut memory[bytes..]);
        match answer {
            Ok(0) | Err(_) => return input_at(bytes, answer),
            Ok(more) => bytes += more,
        }
    }
    Ok(bytes)
}

// What reading gives once a read brings no more bytes: those that came before, or why it failed.
fn input_at(bytes: usize, answer: io::Result<usize>) -> io::Result<usize>
    ensures value { result ≡ input_at bytes answer }
    ensures told { CauseTold answer result }
{
    answer.map(|_| bytes)
}

// Writes the text on standard output, or says on standard error that it was not taken, in these words, and the cause.
pub fn print(rt: &HostRuntime, text: &[u8], unwritten: &[u8]) {
    if let Err(error) = rt.write_all(text) {
        complain(rt, unwritten, Some(error), b"\n");
    }
}
