// docs/RULES.md, 'Entries' and 'Walks': walking a tag over the links that a book stops.
#![tactic(auto)]

ghost use Rattle.std.specs.Prelude.{◌≡◌, cond, ◌≤◌, ◌<◌, eqb};
ghost use Rattle.fabric.specs.Labels.{size};
ghost use Rattle.scheme.specs.Tags.{destination};
ghost use Rattle.book.specs.Standing.{stops_of};
ghost use Rattle.walks.specs.Entries.{Walked, Walks};

use book::{Book, SoundBook};
use fabric::Fabric;
use table::Refusal;
use walks::NotClear;

// "Walk (book, source, tag): 16, 10, 12, 11, 17. Past these the walk is clear."
pub fn walk(book: Book, source: u16, tag: u32) -> Result<(), NotClear>
    ensures { Walks book source tag result }
{
    if book.unsound() {
        return Err(NotClear::Refused(Refusal::Book));
    }
    walked(&SoundBook { book }, source, tag)
}

// walk, over a book that 16 is not given for: 10, 12, 11, 17; otherwise clear.
pub fn walked(book: &SoundBook, source: u16, tag: u32) -> Result<(), NotClear>
    ensures { Walks book.now.book source tag result }
{
    let fabric = Fabric { n: book.book.n };
    if fabric.outside_labels(source) {
        return Err(NotClear::Refused(Refusal::Label));
    }
    if scheme::outside_tags(fabric, tag) {
        return Err(NotClear::Refused(Refusal::Tag));
    }
    along(book, source, tag)
}

// The walk along the steps of a tag: a loop that is left by break, a rule of the project (docs/RULES.md, 'Forms in the code').
fn along(book: &SoundBook, source: u16, tag: u32) -> Result<(), NotClear>
    requires { source < size book.now.book.n }
    ensures { Walked book.now.book.n (stops_of book.now.book) source tag result }
{
    let fabric = Fabric { n: book.book.n };
    let mut j = source;
    let mut i = 0;
    loop {
        if i == fabric.n {
            break end_at(fabric, j, tag);
        }
        let code = scheme::step_of(fabric, tag, i, j);
        if let Some(number) = asked::stopper(book, i, j, code) {
            break Err(NotClear::Stopped { stage: i, number });
        }
        j = fabric.landing(i, code, j);
        i += 1;
    }
}

// What a walk answers that met no stopped link and ends at a label.
fn end_at(fabric: Fabric, j: u16, tag: u32) -> Result<(), NotClear>
    ensures { result ≡ cond (eqb j (destination fabric.n tag)) (Ok tt) (Err NotClear.Astray) }
{
    if u32::from(j) != tag % u32::from(fabric.size()) {
        return Err(NotClear::Astray);
    }
    Ok(())
}
