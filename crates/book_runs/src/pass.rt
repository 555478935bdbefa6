// docs/RULES.md, 'Entries': the link test's pass looks at every place, goes on where it has found a notice that stops the link, and judges 16 before 4 and 12.
use super::damaged::holding;
use super::full::filled;
use super::{link, open};
use book::Book;
use notices::Notice;
use show::{links, pattern, switch, word};

// A link that each of three notices names.
fn asked(rt: &HostRuntime, what: &[u8], book: Book) {
    word(rt, what);
    word(rt, b"\n");
    link(rt, book, 0, 0, 0);
    link(rt, book, 1, 1, 1);
    link(rt, book, 2, 2, 2);
}

fn damage_around_a_match(rt: &HostRuntime) {
    let x = links(1, 0, 0, 1);
    let y = links(3, 1, 1, 2);
    let z = links(4, 2, 2, 4);
    asked(rt, b"no damage", holding(x, y, z));
    asked(rt, b"number 0 first", holding(links(0, 0, 0, 1), y, z));
    asked(rt, b"unfit first", holding(pattern(1, 0, 0, 0, 1), y, z));
    asked(rt, b"unfit between", holding(x, switch(3, 4, 1), z));
    asked(rt, b"unfit last", holding(x, y, links(4, 2, 2, 0)));
    asked(rt, b"as high as the next", holding(links(3, 0, 0, 1), y, z));
    let mut book = holding(x, y, z);
    book.notices[3] = links(0, 0, 0, 1);
    asked(rt, b"rubbish after the last", book);
}

// A book of size 3 with 48 notices, of which the last place holds this one.
fn ending_in(rt: &HostRuntime, last: Notice) -> Book {
    let mut book = filled(open(rt, 3));
    book.notices[47] = last;
    book
}

fn full_books(rt: &HostRuntime) {
    asked(rt, b"a full book", filled(open(rt, 3)));
    asked(
        rt,
        b"its last notice elsewhere",
        ending_in(rt, links(65535, 2, 2, 4)),
    );
    asked(
        rt,
        b"its last notice too low",
        ending_in(rt, links(47, 2, 2, 4)),
    );
    let mut book = filled(open(rt, 3));
    book.notices[0] = links(0, 0, 1, 1);
    asked(rt, b"its first notice without a number", book);
}

fn no_such_link(rt: &HostRuntime) {
    word(rt, b"no such link, in a sound book and in a damaged one\n");
    let book = holding(links(1, 0, 0, 1), links(3, 1, 1, 2), links(4, 2, 2, 4));
    let damaged = holding(links(3, 0, 0, 1), links(3, 1, 1, 2), links(4, 2, 2, 4));
    link(rt, book, 3, 0, 0);
    link(rt, damaged, 3, 0, 0);
    link(rt, book, 0, 8, 3);
    link(rt, damaged, 0, 8, 3);
    link(rt, book, 0, 7, 3);
    link(rt, damaged, 0, 7, 3);
}

pub fn run(rt: &HostRuntime) {
    word(rt, b"one pass\n");
    damage_around_a_match(rt);
    full_books(rt);
    no_such_link(rt);
}
