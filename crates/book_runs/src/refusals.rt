// Each number of the table that open, file, withdraw and the link test give, and which comes first where several lines hold.
use super::{classed, file, link, open, withdraw};
use book::Book;
use show::{links, pattern, switch, word};

// 1: n outside 1 to 12; and the book then handed back.
fn sizes(rt: &HostRuntime) {
    word(rt, b"sizes\n");
    let b = open(rt, 0);
    file(rt, b, links(0, 255, 0, 0));
    withdraw(rt, b, 0);
    link(rt, b, 255, 0, 3);
    for n in [1, 12, 13, 255] {
        open(rt, n);
    }
}

// 3 and 4.
fn numbers_and_places(rt: &HostRuntime, b: Book) {
    word(rt, b"numbers and places\n");
    for notice in [
        links(0, 3, 0, 0),
        links(1, 3, 0, 0),
        links(1, 2, 8, 8),
        switch(1, 4, 0),
        switch(1, 3, 8),
        switch(1, 3, 7),
        pattern(1, 3, 8, 8, 0),
        links(65535, 255, 65535, 255),
        switch(65535, 255, 65535),
        pattern(65535, 255, 65535, 65535, 255),
    ] {
        file(rt, b, notice);
    }
}

// 5.
fn fields(rt: &HostRuntime, b: Book) {
    word(rt, b"fields\n");
    for notice in [
        links(1, 2, 7, 0),
        links(1, 2, 7, 8),
        links(1, 2, 7, 7),
        pattern(1, 0, 0, 3, 0),
        pattern(1, 0, 0, 3, 8),
        pattern(1, 0, 0, 11, 1),
        pattern(1, 0, 4, 3, 1),
        pattern(1, 0, 8, 0, 1),
        pattern(1, 0, 65535, 65535, 7),
        pattern(65535, 2, 7, 7, 7),
    ] {
        file(rt, b, notice);
    }
}

// docs/RULES.md, 'Classes': a class above 1 is 5 too, after 4 and before 6; classes 0 and 1 are none, and number 7 runs over both.
fn classes(rt: &HostRuntime, b: Book) {
    word(rt, b"classes\n");
    for notice in [
        classed(links(0, 0, 0, 1), 2),
        classed(links(1, 3, 0, 1), 2),
        classed(links(1, 2, 7, 7), 2),
        classed(switch(1, 3, 7), 255),
        classed(pattern(1, 0, 1, 1, 7), 2),
        classed(pattern(1, 0, 1, 1, 7), 1),
    ] {
        file(rt, b, notice);
    }
    let b1 = file(rt, b, classed(links(7, 0, 0, 1), 1));
    file(rt, b1, classed(links(7, 1, 1, 1), 2));
    file(rt, b1, links(7, 1, 1, 1));
    link(rt, b1, 0, 0, 0);
}

// 6: at n = 1 no pattern is accepted.
fn widths(rt: &HostRuntime, b: Book) {
    word(rt, b"widths\n");
    patterns(rt, b);
    patterns(rt, open(rt, 1));
}

// Masks of one bit, of none and of two.
fn patterns(rt: &HostRuntime, b: Book) {
    for (value, mask) in [(1, 1), (0, 0), (1, 3)] {
        file(rt, b, pattern(9, 0, value, mask, 7));
    }
}

// 7 and 9.
fn standing(rt: &HostRuntime, b: Book) {
    word(rt, b"standing\n");
    let b1 = file(rt, b, links(7, 0, 0, 1));
    file(rt, b1, links(7, 1, 1, 1));
    file(rt, b1, links(7, 3, 1, 1));
    for number in [0, 8, 7] {
        withdraw(rt, b1, number);
    }
    withdraw(rt, b, 7);
}

// 4 and 12 of the link test.
fn tests(rt: &HostRuntime, b: Book) {
    word(rt, b"links\n");
    for (stage, switch, code) in [
        (3, 0, 0),
        (2, 8, 3),
        (2, 7, 3),
        (2, 7, 2),
        (255, 65535, 255),
    ] {
        link(rt, b, stage, switch, code);
    }
}

pub fn run(rt: &HostRuntime) {
    sizes(rt);
    let b = open(rt, 3);
    numbers_and_places(rt, b);
    fields(rt, b);
    classes(rt, b);
    widths(rt, b);
    standing(rt, b);
    tests(rt, b);
}
