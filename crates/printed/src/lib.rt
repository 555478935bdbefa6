// docs/RULES.md, 'What is printed': the definitions of what is printed, what a run asks for and what it answers. There is no code
// here: words, answers, lines and printer write it.
#![tactic(auto)]

// The room that a run asks for: 24 bytes for the first line and 48 for each action.
pub const FIRST_LINE_ROOM: usize = 24;

pub const ACTION_ROOM: usize = 48;

// The most that a run asks for: the room for 4,096 actions.
pub const MOST_ROOM: usize = FIRST_LINE_ROOM + ACTION_ROOM * 4096;
