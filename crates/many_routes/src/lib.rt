// Routes for many pairs of labels over one book and of one choice, for C and Rust: numbers of 16 bits, a source and its destination one after the other, and one
// answer of 64 bits for each pair.
#![tactic(auto)]

ghost use Rattle.std.specs.Prelude.{◌*◌, ◌≤◌, ◌≡◌, length};
ghost use Rattle.table.specs.Reply.{answer_says};
ghost use Rattle.packing.specs.Packed.{packed};
ghost use Rattle.pairs.specs.Pairs.{pairs_in, RoutesPairs};
ghost use Rattle.pairs.specs.Answered.{Answered};

use book::SoundBook;
use packer::found;
use table::Refusal;

// "Route", for each pair, where there is room for their answers.
pub fn routes(
    book: &SoundBook,
    choice: u8,
    pairs: &[u16],
    answers: &mut [u64],
) -> Result<(), Refusal>
    ensures { RoutesPairs book.now.book choice pairs.now answers.old answers.new (packed (answer_says result)) }
{
    if pairs.len() % 2 != 0 || answers.len() < pairs.len() / 2 {
        return Err(Refusal::Room);
    }
    answer(book, choice, pairs, answers);
    Ok(())
}

// The answers, one after the other.
fn answer(book: &SoundBook, choice: u8, pairs: &[u16], answers: &mut [u64])
    requires { (length pairs.now ≡ 2 * pairs_in pairs.now) × (pairs_in pairs.now ≤ length answers.old) }
    ensures { Answered book.now.book choice pairs.now (pairs_in pairs.now) answers.old answers.new }
{
    for k in 0..pairs.len() / 2 {
        let source = pairs[2 * k];
        let destination = pairs[2 * k + 1];
        answers[k] = found(router::routed(book, source, destination, choice));
    }
}
