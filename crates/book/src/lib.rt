// docs/RULES.md, 'The book': the book of notices, and the entries that hand it back: open, file, withdraw.
#![tactic(auto)]

mod sound; // sound.rt: a book that accepted changes left, and its changes

ghost use Rattle.std.specs.Prelude.{◌≡◌, false};
ghost use Rattle.book.specs.Standing.{unsound, Sound};
ghost use Rattle.book.specs.Entries.{Opens, Files, Withdraws};

use notices::Notice;
pub use sound::SoundBook;
use table::Refusal;

// The first `count` notices stand, by rising number; every place after them holds number 0, class 0 and the first target,
// all zero. An array and its count: fixed memory, no heap.
#[derive(Clone, Copy)]
pub struct Book {
    pub n: u8,
    pub count: usize,
    pub notices: [Notice; 48],
}

// The book handed back with the answer, together and by value: a rule of the project (docs/RULES.md, 'Forms in the code').
#[derive(Clone, Copy)]
pub struct Kept {
    pub book: Book,
    pub answer: Result<(), Refusal>,
}

impl Kept {
    // A refused change hands the book back as it was given.
    fn refused(book: Book, why: Refusal) -> Kept
        ensures { (result.book ≡ book) × (result.answer ≡ Err why) }
    {
        Kept {
            book,
            answer: Err(why),
        }
    }
}

impl Book {
    // Whether no accepted opening, filing and withdrawing produce the book.
    pub fn unsound(&self) -> bool
        ensures { (result ≡ unsound self.now) × (result ≡ false → Sound self.now) }
    {
        damage::damaged(self.n, &self.notices, self.count)
    }

    // docs/RULES.md, 'Entries': "Open (n): 1. It then hands back a book of size 0 without notices, to which every entry
    // over a book says 16. Otherwise it hands back an empty book of size n."
    pub fn open(n: u8) -> Kept
        ensures { Opens n result }
    {
        let notices = places::unused();
        if fabric::outside_sizes(n) {
            let none = Book {
                n: 0,
                count: 0,
                notices,
            };
            return Kept::refused(none, Refusal::Size);
        }
        Kept {
            book: Book {
                n,
                count: 0,
                notices,
            },
            answer: Ok(()),
        }
    }

    // "File (book, notice): 16, 3, 4, 5, 6, 7, 8."
    // The test of 16 and one call: one function for file and withdraw is no plainer.
    pub fn file(self, notice: Notice) -> Kept
        ensures { Files self notice result }
    {
        if self.unsound() {
            return Kept::refused(self, Refusal::Book);
        }
        let mut sound = SoundBook { book: self };
        let answer = sound.file(notice);
        Kept {
            book: sound.book,
            answer,
        }
    }

    // "Withdraw (book, number): 16, 3, 9."
    // The test of 16 and one call: one function for file and withdraw is no plainer.
    pub fn withdraw(self, number: u16) -> Kept
        ensures { Withdraws self number result }
    {
        if self.unsound() {
            return Kept::refused(self, Refusal::Book);
        }
        let mut sound = SoundBook { book: self };
        let answer = sound.withdraw(number);
        Kept {
            book: sound.book,
            answer,
        }
    }
}
