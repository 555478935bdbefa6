// docs/RULES.md, 'Writing a book' and 'Classes': what writing a book as a sheet answers.
#![tactic(auto)]

use actions::{ACTION_LENGTH, HEADER_LENGTH};

// Memory in which the sheet of every book has room: one of version 2 with 48 filings.
pub const MOST_WRITTEN: usize = HEADER_LENGTH + ACTION_LENGTH * 48;
