// 16: "a book to which no accepted opening, filings and withdrawals lead", in each entry over a book.
use super::{classed, file, link, listing, withdraw, write};
use book::Book;
use notices::Notice;
use show::{links, pattern, switch, word};

fn entries(rt: &HostRuntime, why: &[u8], book: Book) {
    word(rt, why);
    word(rt, b"\n");
    file(rt, book, links(5, 0, 0, 1));
    withdraw(rt, book, 3);
    link(rt, book, 0, 0, 0);
    listing(rt, book, &mut [0u8; 33]);
    write(rt, book, &mut []);
}

// A book of size 3 in which the three notices lie in this order.
pub fn holding(a: Notice, b: Notice, c: Notice) -> Book {
    let mut book = Book::open(3).book;
    book.notices[..3].copy_from_slice(&[a, b, c]);
    book.count = 3;
    book
}

fn sizes(rt: &HostRuntime) {
    let mut book = Book::open(3).book;
    book.n = 0;
    entries(rt, b"size 0", book);
    book.n = 13;
    entries(rt, b"size 13", book);
    book.n = 255;
    entries(rt, b"size 255", book);
}

fn counts(rt: &HostRuntime) {
    let mut book = Book::open(3).book;
    book.count = 1;
    entries(rt, b"count 1, and no notice", book);
    book.count = 49;
    entries(rt, b"count 49", book);
    book.count = 18446744073709551615;
    entries(rt, b"the largest count", book);
}

fn numbers(rt: &HostRuntime) {
    let x = links(1, 0, 0, 1);
    let y = links(3, 1, 1, 2);
    let z = links(4, 2, 2, 4);
    entries(rt, b"numbers out of order", holding(x, z, y));
    entries(rt, b"a number twice", holding(x, y, y));
    entries(rt, b"number 0", holding(links(0, 0, 0, 1), x, y));
}

fn places(rt: &HostRuntime) {
    let x = links(1, 0, 0, 1);
    let z = links(4, 2, 2, 4);
    entries(rt, b"stage outside", holding(x, links(3, 3, 0, 1), z));
    entries(rt, b"switch outside", holding(x, switch(3, 3, 8), z));
    entries(rt, b"set outside", holding(x, links(3, 0, 0, 8), z));
    entries(
        rt,
        b"pattern too wide",
        holding(x, pattern(3, 0, 1, 1, 1), z),
    );
    let mut book = holding(x, z, z);
    book.count = 2;
    entries(rt, b"rubbish in an unused place", book);
    let mut last = Book::open(3).book;
    last.notices[47] = switch(0, 0, 0);
    entries(rt, b"rubbish in the last place", last);
}

// docs/RULES.md, 'Classes': a class above 1, and a class in a place that is not in use.
fn classes(rt: &HostRuntime) {
    let x = links(1, 0, 0, 1);
    let z = links(4, 2, 2, 4);
    let y = switch(3, 3, 1);
    entries(rt, b"class 2", holding(x, classed(y, 2), z));
    entries(rt, b"class 255", holding(x, y, classed(z, 255)));
    let mut book = holding(x, y, z);
    book.notices[3] = classed(links(0, 0, 0, 0), 1);
    entries(rt, b"a class in an unused place", book);
    entries(
        rt,
        b"two busy, and no damage",
        holding(classed(x, 1), classed(y, 1), z),
    );
}

pub fn run(rt: &HostRuntime) {
    word(rt, b"damaged books\n");
    sizes(rt);
    counts(rt);
    numbers(rt);
    places(rt);
    classes(rt);
    entries(
        rt,
        b"no damage",
        holding(links(1, 0, 0, 1), links(3, 1, 1, 2), links(4, 2, 2, 4)),
    );
}
