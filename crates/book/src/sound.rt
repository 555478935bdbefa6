// docs/RULES.md, 'Numbers handed back', 16: a book that an accepted opening, filing and withdrawing produce, which 16 is not given for, and its changes in
// their place.
ghost use Rattle.std.specs.Prelude.{◌≡◌, ◌≤◌, false};
ghost use Rattle.book.specs.Standing.{unsound};

use super::Book;
use fabric::Fabric;
use notices::Notice;
use table::Refusal;

// A sound book, for whoever asks it more than once: 16 is judged where it is made, and never again.
#[derive(Clone, Copy)]
pub struct SoundBook {
    pub book: Book,
    pub ghost sound: { unsound book ≡ false },
}

impl SoundBook {
    ghost use Rattle.book.specs.Standing.{standing};
    ghost use Rattle.book.specs.Entries.{opened, Files, Withdraws};

    // An empty book of a fabric.
    pub fn open(fabric: Fabric) -> SoundBook
        requires { 1 ≤ fabric.n }
        ensures { result.book ≡ opened fabric.n }
    {
        SoundBook {
            book: Book {
                n: fabric.n,
                count: 0,
                notices: places::unused(),
            },
        }
    }

    // The fabric whose links its notices stop.
    pub fn fabric(&self) -> Fabric
        ensures { result.n ≡ self.now.book.n }
    {
        Fabric { n: self.book.n }
    }

    // The notices that stand, by rising number.
    pub fn notices(&self) -> &[Notice]
        ensures { result.now ≡ standing self.now.book }
    {
        &self.book.notices[..self.book.count]
    }

    // file, past 16: 3, 4, 5, 6, 7, 8.
    pub fn file(&mut self, notice: Notice) -> Result<(), Refusal>
        ensures { Files self.old.book notice (record { book = self.new.book; answer = result }) }
    {
        let fabric = Fabric { n: self.book.n };
        if notice.number == 0 {
            return Err(Refusal::Zero);
        }
        if targets::outside_fabric(fabric, notice) {
            return Err(Refusal::Place);
        }
        if targets::bad_field(fabric, notice) {
            return Err(Refusal::Field);
        }
        if targets::too_wide(notice) {
            return Err(Refusal::Wide);
        }
        if places::stands(self.notices(), notice.number) {
            return Err(Refusal::Stands);
        }
        if 48 <= self.book.count {
            return Err(Refusal::Full);
        }
        places::insert(&mut self.book.notices, self.book.count, notice);
        self.book.count += 1;
        Ok(())
    }

    // withdraw, past 16: 3, 9.
    pub fn withdraw(&mut self, number: u16) -> Result<(), Refusal>
        ensures { Withdraws self.old.book number (record { book = self.new.book; answer = result }) }
    {
        if number == 0 {
            return Err(Refusal::Zero);
        }
        if !places::stands(self.notices(), number) {
            return Err(Refusal::Absent);
        }
        places::remove(&mut self.book.notices, self.book.count, number);
        self.book.count -= 1;
        Ok(())
    }
}
