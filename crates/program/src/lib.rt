// docs/RULES.md, 'What is printed': from what was read on standard input to what is written on standard output.
#![tactic(auto)]

ghost use Rattle.std.specs.Prelude.{◌≤◌, length};
ghost use Rattle.input.specs.Rooms.{input_room, text_room};
ghost use Rattle.input.specs.Answers.{Within, AnswersText};

// Runs the input, of which so many bytes were read, or none where a read failed. The memory holds all of it, or as much of it as there is room for.
// The lines have room for the text of every sheet, so the run is not refused.
pub fn run(memory: &[u8], read: Option<usize>, lines: &mut [u8]) -> Option<usize>
    requires { (input_room ≤ length memory.now) × (text_room ≤ length lines.old) × Within (length memory.now) read }
    ensures { AnswersText memory.now read lines.old result lines.new }
{
    let bytes = read?;
    printer::run(&memory[..bytes], lines).ok()
}
