// docs/RULES.md, 'Numbers handed back': the link test in one pass over the notices that holds the lowest number found so far. It goes from the last notice to the
// first, so that what it holds at a place is what the definitions say of the notices from there on.
ghost use Rattle.std.specs.Prelude.{◌≡◌, ◌||◌, ◌≤◌, ◌<◌};
ghost use Rattle.fabric.specs.Labels.{size};
ghost use Rattle.notices.specs.Notices.{unfit};
ghost use Rattle.questions.specs.Entries.{Tests};
ghost use Rattle.asked.specs.Lower.{lower, out_of_order};

use book::Book;
use fabric::Fabric;
use notices::Notice;
use table::Refusal;

// The lower of the number found so far, if there is one, and the next.
pub fn lower(found: Option<u16>, number: u16) -> u16
    ensures { result ≡ lower found number }
{
    match found {
        Some(lowest) => lowest.min(number),
        None => number,
    }
}

// Whether a number does not lie below that of the next notice, if there is one.
fn out_of_order(number: u16, next: Option<u16>) -> bool
    ensures { result ≡ out_of_order number next }
{
    match next {
        Some(next) => next <= number,
        None => false,
    }
}

// Whether a notice is out of order before the next one, or one that filing refuses.
fn misplaced(fabric: Fabric, x: Notice, next: Option<u16>) -> bool
    ensures { result ≡ (out_of_order x.number next || unfit fabric.n x) }
{
    out_of_order(x.number, next) || targets::unfit(fabric, x)
}

// The link test where there is such a link. 16 is judged on the way: each number lies below that of the notice after it, the first one above 0, and each notice
// is such as filing accepts. The places that are not in use come last.
pub fn in_one_pass(book: &Book, stage: u8, switch: u16, code: u8) -> Result<Option<u16>, Refusal>
    requires { (1 ≤ book.now.n) × (book.now.n ≤ 12) × (stage < book.now.n) × (switch < size book.now.n) × (code < 3) }
    ensures { Tests book.now stage switch code result }
{
    let fabric = Fabric { n: book.n };
    let count = book.count;
    if 48 < count {
        return Err(Refusal::Book);
    }
    let end = fabric.landing(stage, code, switch);
    let mut lowest = None;
    let mut next = None;
    for x in book.notices[..count].iter().rev() {
        if misplaced(fabric, *x, next) {
            return Err(Refusal::Book);
        }
        next = Some(x.number);
        if targets::names(*x, stage, switch, code, end) {
            lowest = Some(lower(lowest, x.number));
        }
    }
    if out_of_order(0, next) {
        return Err(Refusal::Book);
    }
    if damage::littered(&book.notices[count..]) {
        return Err(Refusal::Book);
    }
    Ok(lowest)
}
