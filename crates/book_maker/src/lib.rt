// Making the book that a host hands over as a sheet: the one after all its actions.
#![tactic(auto)]

ghost use Rattle.std.specs.Prelude.{◌≡◌, [], IfOk, IfErr};
ghost use Rattle.book.specs.Standing.{book_of};
ghost use Rattle.changes.specs.Runs.{run};
ghost use Rattle.changes.specs.After.{changes_of};
ghost use Rattle.handed.specs.Books.{HandsOver};

use actions::Action;
use book::{Book, Kept, SoundBook};
use fabric::Fabric;
use table::Refusal;

// The book that a sheet makes. A header that is refused makes none: its refusal comes with a book of size 0, as a refused opening's does.
// A book beside a refusal: `HandsOver` says so, and may not change.
pub fn book_of(sheet: &[u8]) -> Kept
    ensures { HandsOver sheet.now result.book result.answer }
{
    match sound_book_of(sheet) {
        Ok(made) => Kept {
            book: made.book,
            answer: Ok(()),
        },
        Err(why) => Kept {
            book: Book::open(0).book,
            answer: Err(why),
        },
    }
}

// The same for whoever asks the book: it is sound from its opening on, so 16 is not tested. Only a header is refused; a part with a layout fault is no
// action.
pub fn sound_book_of(sheet: &[u8]) -> Result<SoundBook, Refusal>
    ensures ok { IfOk result (λ made. HandsOver sheet.now made.book (Ok tt)) }
    ensures err { IfErr result (λ why. HandsOver sheet.now (book_of 0 []) (Err why)) }
{
    let header = sheet_reader::read_header(sheet)?;
    let mut book = SoundBook::open(Fabric { n: header.n });
    for k in 0..usize::from(header.count) {
        let part = sheet_reader::action_part(sheet, k);
        if let Ok(action) = action_bytes::read_action(part) {
            change(&mut book, action);
        }
    }
    Ok(book)
}

// What an action changes: a route changes nothing. A refused change leaves the book as it was.
#[tactic(auto, using(changes::proofs::After::files_leave, changes::proofs::After::withdraws_leave, changes::proofs::After::nothing_changes))]
fn change(book: &mut SoundBook, action: Action)
    ensures { book.new.book ≡ run (changes_of (Ok action)) book.old.book }
{
    match action {
        Action::File(notice) => {
            let _ = book.file(notice);
        }
        Action::Withdraw(number) => {
            let _ = book.withdraw(number);
        }
        Action::Route { .. } => {}
    }
}
