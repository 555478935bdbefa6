// docs/RULES.md, 'The sheet' and 'Classes': the bytes of an action, read and written.
#![tactic(auto)]

mod filings; // filings.rt: a notice as eleven bytes
mod reader; // reader.rt: from ten bytes or eleven to the action

ghost use Rattle.std.specs.Prelude.{◌≡◌, ◌+◌, ◌≤◌, ◌<◌, length, get_or};
ghost use Rattle.actions.specs.Layout.{action_length};
ghost use Rattle.actions.specs.Format.{word};

use actions::{ACTION_LENGTH, TEN};
pub use filings::filing;
pub use reader::{fields, read_action};

// How many bytes an action has in a sheet of a version.
// Every number has a length: a narrower type would ask more.
pub fn action_length(version: u16) -> usize
    ensures { (result ≡ action_length version) × (result ≤ 11) }
{
    if version == 2 { ACTION_LENGTH } else { TEN }
}

// The class of a part: its eleventh byte, 0 where there is none.
pub fn class_of(part: &[u8]) -> u8
    ensures { result ≡ get_or part.now 10 0 }
{
    part.get(TEN).copied().unwrap_or(0)
}

// The number of 16 bits at a place.
pub fn word_at(bytes: &[u8], at: usize) -> u16
    requires { at + 1 < length bytes.now }
    ensures { result ≡ word bytes.now at }
{
    u16::from_be_bytes([bytes[at], bytes[at + 1]])
}
