// "A book has room for 48 notices standing together."
use super::{file, open, withdraw};
use book::Book;
use show::{links, word};

// Files 48 notices, the highest number first.
pub fn filled(empty: Book) -> Book {
    let mut book = empty;
    for number in (1..=48).rev() {
        book = book.file(links(number, 0, number % 8, 1)).book;
    }
    book
}

pub fn run(rt: &HostRuntime) {
    word(rt, b"a full book\n");
    let b0 = filled(open(rt, 3));
    let _ = println!(rt; "standing {}", b0.count);
    let b1 = file(rt, b0, links(49, 1, 0, 1));
    let b2 = file(rt, b1, links(5, 1, 0, 1));
    let b3 = withdraw(rt, b2, 20);
    let b4 = file(rt, b3, links(49, 1, 0, 1));
    let b5 = file(rt, b4, links(50, 1, 0, 1));
    let b6 = withdraw(rt, b5, 49);
    file(rt, b6, links(65535, 1, 0, 1));
}
