// docs/RULES.md, 'Writing a book': "the header, then a filing of every notice that stands, the lowest number first"; "the bytes after it are left"; "version 2
// where some notice that stands is busy".
use super::{classed, file, open, withdraw, write};
use book::Book;
use show::{links, pattern, switch, word};

// A book written, and the bytes of the memory after it.
fn held(rt: &HostRuntime, book: Book, memory: &mut [u8]) {
    write(rt, book, memory);
    show::bytes(rt, memory);
    word(rt, b"\n");
}

pub fn run(rt: &HostRuntime) {
    word(rt, b"sheets\n");
    let b0 = open(rt, 12);
    held(rt, b0, &mut [170u8; 8]);
    let b1 = file(rt, b0, pattern(8, 0, 1, 3, 4));
    let b2 = file(rt, b1, switch(258, 12, 4095));
    let b3 = file(rt, b2, links(7, 0, 1, 4));
    held(rt, b3, &mut [170u8; 37]);
    held(rt, b3, &mut [170u8; 38]);
    let mut long = [170u8; 41];
    held(rt, b3, &mut long);
    held(rt, open(rt, 0), &mut long);
    with_busy(rt, b3);
}

// A busy notice more, and gone again.
fn with_busy(rt: &HostRuntime, book: Book) {
    let b4 = file(rt, book, classed(links(9, 1, 2, 2), 1));
    held(rt, b4, &mut [170u8; 51]);
    let mut just = [170u8; 52];
    held(rt, b4, &mut just);
    let b5 = withdraw(rt, b4, 9);
    held(rt, b5, &mut just);
}
