// docs/RULES.md, 'Entries', 'The book' and 'Classes': what a book is asked: link stopped or not, and listing.
#![tactic(auto)]

mod one_link; // one_link.rt: a link, and whether a notice names it
mod pass; // pass.rt: the link test in one pass over the notices
mod three; // three.rt: the three links of a switch in one pass

ghost use Rattle.std.specs.Prelude.{◌≡◌, true, false, ◌||◌, ◌≤◌, ◌<◌};
ghost use Rattle.table.specs.Checks.{◌not_below◌};
ghost use Rattle.fabric.specs.Labels.{size};
ghost use Rattle.book.specs.Standing.{standing, stopper, unsound};
ghost use Rattle.questions.specs.Entries.{number_or_none, Tests, Lists};

use actions::ACTION_LENGTH;
use book::{Book, SoundBook};
use fabric::Fabric;
use one_link::OneLink;
use table::Refusal;
pub use three::{Lowest, stoppers};

// A code stays a number here: 12 judges one above 2 (docs/RULES.md, 'Numbers handed back').

// The lowest number of a standing notice that names the link, if one does.
pub fn stopper(book: &SoundBook, stage: u8, switch: u16, code: u8) -> Option<u16>
    requires { (stage < book.now.book.n) × (switch < size book.now.book.n) × (code < 3) }
    ensures { result ≡ number_or_none (stopper book.now.book.n (standing book.now.book) stage switch code) }
{
    let fabric = Fabric { n: book.book.n };
    let link = OneLink {
        fabric,
        stage,
        switch,
        code,
        end: fabric.landing(stage, code, switch),
    };
    link.first_number(book.notices())
}

// "Link test (book, stage, switch, code): 16, 4, 12." Where there is such a link, one pass judges 16 and finds what stops the link.
pub fn link(book: Book, stage: u8, switch: u16, code: u8) -> Result<Option<u16>, Refusal>
    ensures { Tests book stage switch code result }
{
    let n = book.n;
    if fabric::outside_sizes(n) {
        return Err(Refusal::Book);
    }
    if no_such_switch(Fabric { n }, stage, switch) {
        return Err(judged_first(&book, Refusal::Place));
    }
    if 2 < code {
        return Err(judged_first(&book, Refusal::Tag));
    }
    pass::in_one_pass(&book, stage, switch, code)
}

// 4: whether the stage or the switch lies outside the fabric.
fn no_such_switch(fabric: Fabric, stage: u8, switch: u16) -> bool
    ensures { (result ≡ (stage not_below fabric.n || switch not_below size fabric.n)) × (result ≡ false → (stage < fabric.n) × (switch < size fabric.n)) }
{
    fabric.n <= stage || fabric.outside_labels(switch)
}

// 16, and where it is not given the refusal that comes after it.
fn judged_first(book: &Book, why: Refusal) -> Refusal
    ensures { (unsound book.now ≡ true → result ≡ Refusal.Book) × (unsound book.now ≡ false → result ≡ why) }
{
    if book.unsound() { Refusal::Book } else { why }
}

// link stopped or not, over a book that 16 is not given for: 4, 12.
pub fn tested(book: &SoundBook, stage: u8, switch: u16, code: u8) -> Result<Option<u16>, Refusal>
    ensures { Tests book.now.book stage switch code result }
{
    let fabric = Fabric { n: book.book.n };
    if no_such_switch(fabric, stage, switch) {
        return Err(Refusal::Place);
    }
    if 2 < code {
        return Err(Refusal::Tag);
    }
    Ok(stopper(book, stage, switch, code))
}

// "Listing (book, memory): 16, 13.", "the eleven bytes of its filing, the class at the end"
// The test of 16 and one call, as in writer: one function for both is no plainer.
pub fn listing(book: Book, memory: &mut [u8]) -> Result<usize, Refusal>
    ensures { Lists book memory.old memory.new result }
{
    if book.unsound() {
        return Err(Refusal::Book);
    }
    listed(&SoundBook { book }, memory)
}

// listing, over a book that 16 is not given for: 13.
pub fn listed(book: &SoundBook, memory: &mut [u8]) -> Result<usize, Refusal>
    ensures { Lists book.now.book memory.old memory.new result }
{
    let notices = book.notices();
    if memory.len() < ACTION_LENGTH * notices.len() {
        return Err(Refusal::Room);
    }
    places::laid(notices, ACTION_LENGTH, memory);
    Ok(notices.len())
}
