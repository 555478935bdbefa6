// docs/RULES.md, 'Writing a book' and 'Classes': writing a book as a sheet.
#![tactic(auto)]

ghost use Rattle.std.specs.Prelude.{◌≡◌, List};
ghost use Rattle.table.specs.Checks.{Check};
ghost use Rattle.sheet.specs.Format.{header_bytes};
ghost use Rattle.book.specs.declared.Book.{Book};
ghost use Rattle.book.specs.Standing.{Sound};
ghost use Rattle.book.specs.Entries.{HandsBack};
ghost use Rattle.written.specs.Sheets.{version_for, Writes, WritesSheet};

use actions::HEADER_LENGTH;
use book::{Book, Kept, SoundBook};
use notices::Notice;
use table::Refusal;

// "The numbers are 16, then 13."
// The test of 16 and one call, as in asked: one function for both is no plainer.
pub fn write(book: Book, memory: &mut [u8]) -> Result<u16, Refusal>
    ensures { Writes book memory.old memory.new result }
{
    if book.unsound() {
        return Err(Refusal::Book);
    }
    written(&SoundBook { book }, memory)
}

// write, over a book that 16 is not given for: 13.
pub fn written(book: &SoundBook, memory: &mut [u8]) -> Result<u16, Refusal>
    ensures { Writes book.now.book memory.old memory.new result }
{
    let notices = book.notices();
    let version = version_for(notices);
    let each = action_bytes::action_length(version);
    let bytes = HEADER_LENGTH + each * notices.len();
    if memory.len() < bytes {
        return Err(Refusal::Room);
    }
    let head = header(version, book.book.n, notices.len() as u16);
    memory[..HEADER_LENGTH].copy_from_slice(&head);
    places::laid(notices, each, &mut memory[HEADER_LENGTH..]);
    Ok(bytes as u16)
}

// "The sheet has version 2 where some notice that stands is busy"
fn version_for(notices: &[Notice]) -> u16
    ensures { result ≡ version_for notices.now }
{
    if places::busy_stands(notices) { 2 } else { 1 }
}

// The eight bytes of a header.
// A version stays a number: its two bytes are written.
fn header(version: u16, n: u8, count: u16) -> [u8; HEADER_LENGTH]
    ensures { result ≡ header_bytes version n count }
{
    let version = version.to_be_bytes();
    let count = count.to_be_bytes();
    [
        b'F', b'S', b'H', version[0], version[1], n, count[0], count[1],
    ]
}

// What a change hands back, as a sheet: the refusal, or the sheet of the book.
// It takes a `Kept`, and asks of an accepted one alone: its clause may not change.
pub fn handed_back(kept: Kept, memory: &mut [u8]) -> Result<u16, Refusal>
    requires { kept.answer ≡ Ok tt → Sound kept.book }
    ensures { (checks : List Check) → (given made : Book) → HandsBack checks given made kept → WritesSheet checks made memory.old memory.new result }
{
    kept.answer?;
    written(&SoundBook { book: kept.book }, memory)
}
