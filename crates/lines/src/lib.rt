// docs/RULES.md, 'What is printed': the lines of actions by what their entries answered, written at a place of lent memory. Each
// function answers the place after its line.
#![tactic(auto)]

ghost use Rattle.std.specs.Prelude.{◌+◌, ◌≤◌, ◌++◌, length};
ghost use Rattle.printed.specs.Words.{decimal, ending};
ghost use Rattle.printed.specs.Told.{told};
ghost use Rattle.printed.specs.Text.{file_line, withdraw_line, route_line, fault_line};
ghost use Rattle.printed.specs.Runs.{action_room};
ghost use Rattle.words.specs.Wrote.{Wrote};

use answers::{answer_told, found_told};
use fabric::Fabric;
use routes::NoRoute;
use table::Refusal;
use words::{named_number, refusal_told, word};

// One call, under a promise of its own.
pub fn file_line(k: u16, answer: Result<(), Refusal>, out: &mut [u8], at: usize) -> usize
    requires { at + action_room ≤ length out.old }
    ensures { (Wrote out.old at (file_line k answer) out.new result) × (result ≤ at + action_room) }
{
    notice_line(b"FILE ", k, answer, out, at)
}

// One call, under a promise of its own.
pub fn withdraw_line(k: u16, answer: Result<(), Refusal>, out: &mut [u8], at: usize) -> usize
    requires { at + action_room ≤ length out.old }
    ensures { (Wrote out.old at (withdraw_line k answer) out.new result) × (result ≤ at + action_room) }
{
    notice_line(b"WITHDRAW ", k, answer, out, at)
}

// "After `FILE` or `WITHDRAW` come the number of the notice and `OK`, or `REFUSED` and the number of the refusal."
fn notice_line(name: &[u8], k: u16, answer: Result<(), Refusal>, out: &mut [u8], at: usize) -> usize
    requires { (length name.now ≤ 9) × (at + action_room ≤ length out.old) }
    ensures { (Wrote out.old at (name.now ++ decimal k ++ ending (told answer)) out.new result) × (result ≤ at + action_room) }
{
    let end = named_number(out, at, name, k);
    answer_told(out, end, answer)
}

// "After `ROUTE` come source and destination"
pub fn route_line(
    fabric: Fabric,
    source: u16,
    destination: u16,
    answer: Result<u32, NoRoute>,
    out: &mut [u8],
    at: usize,
) -> usize
    requires { at + action_room ≤ length out.old }
    ensures { (Wrote out.old at (route_line fabric.n source destination answer) out.new result) × (result ≤ at + action_room) }
{
    let between = named_number(out, at, b"ROUTE ", source);
    let end = named_number(out, between, b" ", destination);
    found_told(fabric, out, end, answer)
}

// "An action with a fault of layout prints `ACTION REFUSED 2`."
pub fn fault_line(why: Refusal, out: &mut [u8], at: usize) -> usize
    requires { at + action_room ≤ length out.old }
    ensures { (Wrote out.old at (fault_line why) out.new result) × (result ≤ at + action_room) }
{
    let end = word(out, at, b"ACTION");
    refusal_told(out, end, why)
}
