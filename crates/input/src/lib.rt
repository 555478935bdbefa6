// docs/RULES.md, 'What is printed': what is written on standard output, by what was read on standard input.
#![tactic(auto)]

use actions::{ACTION_LENGTH, HEADER_LENGTH};
use printed::MOST_ROOM;

// Memory for the input: the longest sheet that the header accepts, 4,096 actions of eleven bytes, and one byte more.
pub const INPUT_ROOM: usize = HEADER_LENGTH + ACTION_LENGTH * 4096 + 1;

// Memory for the lines of the longest sheet.
pub const TEXT_ROOM: usize = MOST_ROOM;
