// Runs the book's entries on example 13, on a full book, on every refusal that they give, and on damaged books, and writes a
// line for each call.
#![tactic(auto)]

use book::{Book, Kept};
use notices::Notice;
use show::{links, pattern, refused, switch, word};

mod full; // full.rt: 48 filings and the 49th
mod refusals; // refusals.rt: each number of the table
mod damaged; // damaged.rt: books that no entry hands back
mod pass; // pass.rt: every place in one pass
mod lists; // lists.rt: the listing's bytes
mod sheets; // sheets.rt: a book's sheet

fn main(rt: HostRuntime) {
    example_13(&rt);
    used_again(&rt);
    inputs(&rt);
    outputs(&rt);
    lowest(&rt);
    full::run(&rt);
    refusals::run(&rt);
    damaged::run(&rt);
    pass::run(&rt);
    lists::run(&rt);
    sheets::run(&rt);
}

// Writes the answer, and hands on the book.
// The arms do different things: a match is plainest.
fn told(rt: &HostRuntime, kept: Kept) -> Book {
    match kept.answer {
        Ok(()) => word(rt, b" OK"),
        Err(why) => refused(rt, why),
    }
    word(rt, b"\n");
    kept.book
}

// The notice with another class.
pub fn classed(notice: Notice, class: u8) -> Notice {
    Notice { class, ..notice }
}

pub fn open(rt: &HostRuntime, n: u8) -> Book {
    let _ = print!(rt; "open {n}");
    told(rt, Book::open(n))
}

pub fn file(rt: &HostRuntime, book: Book, notice: Notice) -> Book {
    let _ = print!(rt; "file {}", notice.number);
    told(rt, book.file(notice))
}

pub fn withdraw(rt: &HostRuntime, book: Book, number: u16) -> Book {
    let _ = print!(rt; "withdraw {number}");
    told(rt, book.withdraw(number))
}

// A link by stage, switch and code.
pub fn link(rt: &HostRuntime, book: Book, stage: u8, switch: u16, code: u8) {
    let _ = print!(rt; "link {stage} {switch} {code}");
    let _ = match asked::link(book, stage, switch, code) {
        Ok(None) => println!(rt; " CLEAR"),
        Ok(Some(by)) => println!(rt; " STOPPED BY {by}"),
        Err(why) => println!(rt; " REFUSED {}", why.number()),
    };
}

pub fn listing(rt: &HostRuntime, book: Book, memory: &mut [u8]) {
    let _ = print!(rt; "listing in {}", memory.len());
    let _ = match asked::listing(book, memory) {
        Ok(count) => println!(rt; " LISTED {count}"),
        Err(why) => println!(rt; " REFUSED {}", why.number()),
    };
}

pub fn write(rt: &HostRuntime, book: Book, memory: &mut [u8]) {
    let _ = print!(rt; "write in {}", memory.len());
    let _ = match writer::write(book, memory) {
        Ok(bytes) => println!(rt; " SHEET {bytes}"),
        Err(why) => println!(rt; " REFUSED {}", why.number()),
    };
}

// Example 13: "One link is named by 7 and by 8, and 7 is withdrawn: the link stays stopped."
fn example_13(rt: &HostRuntime) {
    word(rt, b"example 13\n");
    let b0 = open(rt, 3);
    let b1 = file(rt, b0, links(7, 0, 1, 4));
    let b2 = file(rt, b1, pattern(8, 0, 1, 3, 4));
    link(rt, b2, 0, 1, 2);
    let b3 = withdraw(rt, b2, 7);
    link(rt, b3, 0, 1, 2);
    let b4 = withdraw(rt, b3, 8);
    link(rt, b4, 0, 1, 2);
}

// "After a withdrawal the number is free again, and so is the place."
fn used_again(rt: &HostRuntime) {
    word(rt, b"used again\n");
    let b0 = open(rt, 3);
    let b1 = file(rt, b0, links(7, 1, 6, 1));
    let b2 = file(rt, b1, links(7, 2, 0, 1));
    let b3 = withdraw(rt, b2, 7);
    let b4 = file(rt, b3, links(7, 2, 0, 1));
    link(rt, b4, 1, 6, 0);
    link(rt, b4, 2, 0, 0);
    let b5 = withdraw(rt, b4, 7);
    let b6 = withdraw(rt, b5, 7);
    link(rt, b6, 2, 0, 0);
}

// "it names three links of stage i-1, those that end at j", reduced modulo N; plus and minus at the last stage.
fn inputs(rt: &HostRuntime) {
    word(rt, b"input links\n");
    let b0 = open(rt, 3);
    let b1 = file(rt, b0, switch(1, 1, 2));
    link(rt, b1, 0, 2, 0);
    link(rt, b1, 0, 1, 1);
    link(rt, b1, 0, 3, 2);
    link(rt, b1, 0, 1, 2);
    link(rt, b1, 1, 2, 0);
    let b2 = file(rt, b1, switch(2, 3, 0));
    link(rt, b2, 2, 0, 0);
    link(rt, b2, 2, 4, 1);
    link(rt, b2, 2, 4, 2);
    link(rt, b2, 2, 0, 1);
    let b3 = file(rt, b2, links(4, 2, 5, 2));
    link(rt, b3, 2, 5, 1);
    link(rt, b3, 2, 5, 2);
}

// docs/RULES.md, 'Notices': "In column 0, where no link ends, it names the three links of stage 0 that leave the switch", and no others.
fn outputs(rt: &HostRuntime) {
    word(rt, b"output links\n");
    let b0 = open(rt, 3);
    let b1 = file(rt, b0, switch(3, 0, 5));
    link(rt, b1, 0, 5, 0);
    link(rt, b1, 0, 5, 1);
    link(rt, b1, 0, 5, 2);
    link(rt, b1, 0, 4, 0);
    link(rt, b1, 0, 4, 1);
    link(rt, b1, 0, 6, 2);
    link(rt, b1, 1, 5, 0);
    let b2 = withdraw(rt, b1, 3);
    link(rt, b2, 0, 5, 0);
}

// docs/RULES.md, 'The book': the lowest number among the notices that stop the link, whatever was filed first and whatever its target.
fn lowest(rt: &HostRuntime) {
    word(rt, b"lowest number\n");
    let b0 = open(rt, 3);
    let b1 = file(rt, b0, links(300, 1, 5, 7));
    let b2 = file(rt, b1, pattern(44, 1, 1, 3, 2));
    let b3 = file(rt, b2, switch(600, 2, 7));
    link(rt, b3, 1, 5, 1);
    link(rt, b3, 1, 5, 0);
    link(rt, b3, 1, 1, 1);
    let b4 = file(rt, b3, links(1, 1, 5, 4));
    link(rt, b4, 1, 5, 1);
    link(rt, b4, 1, 5, 2);
    let b5 = withdraw(rt, b4, 44);
    link(rt, b5, 1, 5, 1);
    let b6 = withdraw(rt, b5, 300);
    link(rt, b6, 1, 5, 1);
    link(rt, b6, 1, 5, 0);
}
