// docs/RULES.md, 'What is printed': what an answer prints at the end of its line, written at a place of lent memory.
#![tactic(auto)]

ghost use Rattle.std.specs.Prelude.{◌+◌, ◌≤◌, length};
ghost use Rattle.printed.specs.Words.{ending};
ghost use Rattle.printed.specs.Told.{told, none_told, found_told};
ghost use Rattle.words.specs.Wrote.{Wrote};

use fabric::Fabric;
use routes::NoRoute;
use table::Refusal;
use words::{bits, named_number, number_told, refusal_told, word};

// "`OK`, or `REFUSED` and the number of the refusal"
// No `write!`: std never promises that it is `Ok`, so `Wrote` does not close.
pub fn answer_told(out: &mut [u8], at: usize, answer: Result<(), Refusal>) -> usize
    requires { at + 15 ≤ length out.old }
    ensures { (Wrote out.old at (ending (told answer)) out.new result) × (result ≤ at + 15) }
{
    match answer {
        Ok(()) => word(out, at, b" OK\n"),
        Err(why) => refusal_told(out, at, why),
    }
}

// "`TAG` and the 2n bits of the tag, bit 0 first; `NONE`, the stage, `BY` and the number of the notice named; or `REFUSED` and the number of the refusal"
// No `write!`: std never promises that it is `Ok`, so `Wrote` does not close.
pub fn found_told(fabric: Fabric, out: &mut [u8], at: usize, answer: Result<u32, NoRoute>) -> usize
    requires { at + 30 ≤ length out.old }
    ensures { (Wrote out.old at (ending (found_told fabric.n answer)) out.new result) × (result ≤ at + 30) }
{
    match answer {
        Ok(tag) => tag_told(fabric, out, at, tag),
        Err(NoRoute::NoClearPath { stage, number }) => none_told(out, at, stage, number),
        Err(NoRoute::Refused(why)) => refusal_told(out, at, why),
    }
}

fn tag_told(fabric: Fabric, out: &mut [u8], at: usize, tag: u32) -> usize
    requires { at + 30 ≤ length out.old }
    ensures { (Wrote out.old at (ending (found_told fabric.n (Ok tag))) out.new result) × (result ≤ at + 30) }
{
    let mid = word(out, at, b" TAG ");
    let end = bits(out, mid, 2 * fabric.n, tag);
    word(out, end, b"\n")
}

// "`NONE`, the stage, `BY` and the number of the notice named"
// Two values out of a match.
fn none_told(out: &mut [u8], at: usize, stage: u8, by: u16) -> usize
    requires { at + 30 ≤ length out.old }
    ensures { (Wrote out.old at (ending (none_told stage by)) out.new result) × (result ≤ at + 30) }
{
    let end = named_number(out, at, b" NONE ", stage as u16);
    number_told(out, end, b" BY ", by)
}
