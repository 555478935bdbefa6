// "the notices that stand, the lowest number first, each as the eleven bytes of its filing, the class at the end. They lie at the front of the memory, and what
// follows them is left."
use super::{classed, file, listing, open};
use book::Book;
use show::{links, pattern, switch, word};

// A listing, and the bytes of the memory after it.
fn held(rt: &HostRuntime, book: Book, memory: &mut [u8]) {
    listing(rt, book, memory);
    show::bytes(rt, memory);
    word(rt, b"\n");
}

pub fn run(rt: &HostRuntime) {
    word(rt, b"listings\n");
    let b0 = open(rt, 3);
    listing(rt, b0, &mut []);
    let b1 = file(rt, b0, pattern(8, 0, 1, 3, 4));
    let b2 = file(rt, b1, classed(switch(258, 2, 5), 1));
    let b3 = file(rt, b2, links(7, 0, 1, 4));
    held(rt, b3, &mut [170u8; 32]);
    held(rt, b3, &mut [170u8; 33]);
    let mut long = [170u8; 36];
    held(rt, b3, &mut long);
    held(rt, open(rt, 0), &mut long);
}
