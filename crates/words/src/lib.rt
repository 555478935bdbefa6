// docs/RULES.md, 'What is printed': words and numbers, written at a place of lent memory. Each function answers the place after
// them.
#![tactic(auto)]

ghost use Rattle.std.specs.Prelude.{◌≡◌, [], ◌++◌, ◌+◌, ◌≤◌, length};
ghost use Rattle.printed.specs.Words.{decimal, bits_from, ending, refusal};
ghost use Rattle.words.specs.LastDigits.{last_digits, Reaches};
ghost use Rattle.words.specs.Wrote.{Wrote};

use table::Refusal;

pub fn word(out: &mut [u8], at: usize, text: &[u8]) -> usize
    requires { at + length text.now ≤ length out.old }
    ensures { Wrote out.old at text.now out.new result }
{
    lent::lay(out, at, text);
    at + text.len()
}

// A number in decimal, its last digit first.
// No `write!`: std never promises that it is `Ok`, so `Wrote` does not close.
fn number(out: &mut [u8], at: usize, x: u16) -> usize
    requires { at + 5 ≤ length out.old }
    ensures { (Wrote out.old at (decimal x) out.new result) × (result ≤ at + 5) }
{
    let end = at + digits(x);
    let mut rest = x;
    for i in (at..end).rev() {
        out[i] = 48 + (rest % 10) as u8;
        rest /= 10;
    }
    end
}

// How many digits a number has. A sum and no branches: which of them a label takes cannot be foreseen.
fn digits(x: u16) -> usize
    ensures { (last_digits result x ≡ decimal x) × (result ≤ 5) }
{
    1 + reaches(10, x) + reaches(100, x) + reaches(1000, x) + reaches(10000, x)
}

// 1 where a number is not below another one, and 0 where it is.
fn reaches(least: u16, x: u16) -> usize
    ensures { Reaches least x result }
{
    usize::from(least <= x)
}

// Bits 0 to count - 1, in that order.
// No `write!`: std never promises that it is `Ok`, so `Wrote` does not close.
pub fn bits(out: &mut [u8], at: usize, count: u8, x: u32) -> usize
    requires { (at + count ≤ length out.old) × (count ≤ 24) }
    ensures { (Wrote out.old at (bits_from 0 count x) out.new result) × (result ≡ at + count) }
{
    for i in 0..count {
        out[at + i as usize] = 48 + ((x >> i) % 2) as u8;
    }
    at + count as usize
}

// A word with its blanks, and a number after it.
pub fn named_number(out: &mut [u8], at: usize, name: &[u8], x: u16) -> usize
    requires { at + length name.now + 5 ≤ length out.old }
    ensures { (Wrote out.old at (name.now ++ decimal x) out.new result) × (result ≤ at + length name.now + 5) }
{
    let mid = word(out, at, name);
    number(out, mid, x)
}

// The end of a line: such a word and number, and LF.
pub fn number_told(out: &mut [u8], at: usize, name: &[u8], x: u16) -> usize
    requires { at + length name.now + 6 ≤ length out.old }
    ensures { (Wrote out.old at (name.now ++ decimal x ++ ending []) out.new result) × (result ≤ at + length name.now + 6) }
{
    let end = named_number(out, at, name, x);
    word(out, end, b"\n")
}

// "`REFUSED` and the number of the refusal"
pub fn refusal_told(out: &mut [u8], at: usize, why: Refusal) -> usize
    requires { at + 15 ≤ length out.old }
    ensures { (Wrote out.old at (ending (refusal why)) out.new result) × (result ≤ at + 15) }
{
    number_told(out, at, b" REFUSED ", u16::from(why.number()))
}
