// docs/RULES.md, 'The sheet' and 'Classes': a sheet's header, and the parts of a sheet that are its actions.
#![tactic(auto)]

ghost use Rattle.std.specs.Prelude.{◌≡◌, false, ◌+◌, ◌≤◌, length};
ghost use Rattle.actions.specs.Layout.{header_length};
ghost use Rattle.sheet.specs.Format.{each_in};
ghost use Rattle.sheet.specs.Entries.{wrong_version, wrong_mark, wrong_length, ReadsHeader, HasAction, start_of, part_of};

use action_bytes::word_at;
use actions::HEADER_LENGTH;
use sheet::Header;
use table::Refusal;

// "Sheets of version 1 are still run", beside version 2.
// A version stays a number: this is what judges it.
fn wrong_version(version: u16) -> bool
    ensures { result ≡ wrong_version version }
{
    version != 1 && version != 2
}

// How many bytes each action has.
pub fn each_in(sheet: &[u8]) -> usize
    requires { header_length ≤ length sheet.now }
    ensures { (result ≡ each_in sheet.now) × (result ≤ 11) }
{
    action_bytes::action_length(word_at(sheet, 3))
}

// 14
fn wrong_mark(sheet: &[u8]) -> bool
    ensures { (result ≡ wrong_mark sheet.now) × (result ≡ false → header_length ≤ length sheet.now) }
{
    sheet.len() < HEADER_LENGTH || !sheet.starts_with(b"FSH") || wrong_version(word_at(sheet, 3))
}

// 15
fn wrong_length(sheet: &[u8]) -> bool
    requires { header_length ≤ length sheet.now }
    ensures { result ≡ wrong_length sheet.now }
{
    let count = word_at(sheet, 6);
    4096 < count || sheet.len() != HEADER_LENGTH + each_in(sheet) * usize::from(count)
}

// "Header (sheet): 14, 1, 15. Past these it answers n, the count and the version."
pub fn read_header(sheet: &[u8]) -> Result<Header, Refusal>
    ensures { ReadsHeader sheet.now result }
{
    if wrong_mark(sheet) {
        return Err(Refusal::Mark);
    }
    let n = sheet[5];
    if fabric::outside_sizes(n) {
        return Err(Refusal::Size);
    }
    if wrong_length(sheet) {
        return Err(Refusal::Length);
    }
    Ok(Header {
        n,
        count: word_at(sheet, 6),
        version: word_at(sheet, 3),
    })
}

// "the header's number where that is refused, then 13 where the count is k or less"
pub fn has_action(sheet: &[u8], k: usize) -> Result<(), Refusal>
    ensures { HasAction sheet.now k result }
{
    let header = read_header(sheet)?;
    if usize::from(header.count) <= k {
        return Err(Refusal::Room);
    }
    Ok(())
}

// "where the entry before accepts, a part of the caller's own sheet, the ten or eleven bytes of the action"; "where it refuses, the empty part at the front of
// the sheet."
pub fn action_part<'a>(sheet: &'a [u8], k: usize) -> &'a [u8]
    ensures bytes { result.now ≡ part_of sheet.now k }
    ensures place { (result.ref_ptr.0 ≡ sheet.entry.ref_ptr.0) × (result.ref_ptr.1 ≡ start_of sheet.now k + sheet.entry.ref_ptr.1) }
{
    match has_action(sheet, k) {
        Ok(()) => {
            let each = each_in(sheet);
            let start = HEADER_LENGTH + each * k;
            &sheet[start..start + each]
        }
        Err(_) => &sheet[..0],
    }
}
