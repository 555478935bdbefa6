// docs/RULES.md, 'What is printed': the program that the desk runs. It reads a sheet on standard input, runs it, and writes
// the lines on standard output.
#![tactic(auto)]

ghost use Rattle.std.specs.Prelude.{◌≡◌, None};
ghost use Rattle.input.specs.Answers.{WritesText, Promised, text_printed};

// Fixed memory, no heap: how much a run uses is known.
fn main(rt: HostRuntime) {
    let mut sheet = [0u8; input::INPUT_ROOM];
    let read = streams::read(&mut rt.stdin(), &mut sheet);
    let mut lines = [0u8; input::TEXT_ROOM];
    let text = program::run(&sheet, read.ok(), &mut lines);
    if let Err(error) = read {
        streams::complain(
            &rt,
            b"desk: standard input could not be read",
            Some(error),
            b"; nothing was run\n",
        );
    }
    streams::print(
        &rt,
        printed(&lines, text),
        b"desk: standard output did not take all lines",
    );
}

// What goes to standard output: the text, or nothing.
fn printed<'a>(lines: &'a [u8], text: Option<usize>) -> &'a [u8]
    requires { Promised WritesText None lines.now text }
    ensures { result.now ≡ text_printed lines.now text }
{
    match text {
        Some(bytes) => &lines[..bytes],
        None => &[],
    }
}
