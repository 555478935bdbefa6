// For bench/ alone: the router asked many pairs in one call, as `tabashfar_routes` takes them, so that a program in Rust can link it and measure
// it. The promises here are about memory; what the answers mean is said by `Routes` in the router.
#![tactic(auto)]

ghost use Rattle.std.specs.Prelude.{◌≡◌, false};

use book::Book;
use book_maker::{book_of, sound_book_of};
use packer::{found, told};
use table::Refusal;

// How many notices stand in the book that a sheet makes.
#[unsafe(no_mangle)]
pub extern "C" fn bench_standing(sheet: &[u8]) -> usize {
    book_of(sheet).book.count
}

// The entry `route`, which judges the book for each pair. Refused where there is not room for one answer a pair; then nothing is written.
// A bool: the C interface.
#[unsafe(no_mangle)]
pub extern "C" fn bench_routes(sheet: &[u8], choice: u8, pairs: &[u16], answers: &mut [u64]) -> bool
    ensures { result ≡ false → answers.new ≡ answers.old }
{
    if pairs.len() / 2 != answers.len() {
        return false;
    }
    answer(book_of(sheet).book, choice, pairs, answers);
    true
}

fn answer(book: Book, choice: u8, pairs: &[u16], answers: &mut [u64]) {
    for (pair, answer) in pairs.chunks_exact(2).zip(answers.iter_mut()) {
        *answer = found(router::route(book, pair[0], pair[1], choice));
    }
}

// `routed`, over a book that is sound by proof, as a host asks it.
// A number: the C interface.
#[unsafe(no_mangle)]
pub extern "C" fn bench_routed(
    sheet: &[u8],
    choice: u8,
    pairs: &[u16],
    answers: &mut [u64],
) -> u64 {
    told(routed(sheet, choice, pairs, answers))
}

fn routed(sheet: &[u8], choice: u8, pairs: &[u16], answers: &mut [u64]) -> Result<(), Refusal> {
    many_routes::routes(&sound_book_of(sheet)?, choice, pairs, answers)
}
