// Runs routes and walks on the examples of docs/RULES.md and on bad input, through open, file, route and walk, and prints
// a line for each call.
#![tactic(auto)]

use book::Book;
use notices::Notice;
use routes::NoRoute;
use show::{links, switch};
use walks::NotClear;

fn main(rt: HostRuntime) {
    one_to_six(&rt);
    eight_to_twelve(&rt);
    bad_input(&rt);
    damaged(&rt);
    tags_walked(&rt);
    both_arms(&rt);
    not_reached(&rt);
    last_stage(&rt);
    dead_card(&rt);
    choices(&rt);
    bad_choices(&rt);
}

fn empty(n: u8) -> Book {
    Book::open(n).book
}

fn with(book: Book, notice: Notice) -> Book {
    book.file(notice).book
}

// Examples 1 to 6: n = 3, from 1 to 0.
fn one_to_six(rt: &HostRuntime) {
    let nothing = empty(3);
    route(rt, 1, nothing, 1, 0);
    let one = with(nothing, links(1, 0, 1, 4));
    route(rt, 2, one, 1, 0);
    let two = with(one, links(2, 1, 2, 4));
    route(rt, 3, two, 1, 0);
    let three = with(two, links(3, 2, 4, 4));
    route(rt, 4, three, 1, 0);
    let four = with(three, links(4, 2, 4, 2));
    route(rt, 5, four, 1, 0);
    let straight = with(nothing, links(1, 1, 0, 1));
    route(rt, 6, straight, 1, 0);
}

// Examples 8 to 12.
fn eight_to_twelve(rt: &HostRuntime) {
    route(rt, 8, with(empty(3), links(1, 1, 5, 1)), 5, 5);
    let small = empty(1);
    route(rt, 9, small, 0, 1);
    let plus = with(small, links(1, 0, 0, 2));
    route(rt, 9, plus, 0, 1);
    route(rt, 10, with(plus, links(2, 0, 0, 4)), 0, 1);
    route(rt, 11, with(empty(2), links(1, 1, 1, 1)), 0, 1);
    route(rt, 12, empty(12), 0, 4095);
}

// Source or destination N or 65,535: 10.
fn bad_input(rt: &HostRuntime) {
    let book = empty(3);
    route(rt, 0, book, 8, 0);
    route(rt, 0, book, 0, 8);
    route(rt, 0, book, 65535, 65535);
    walk(rt, book, 8, 64);
    walk(rt, book, 0, 64);
    walk(rt, book, 0, 4294967295);
}

// 16 before anything else is looked at.
fn damaged(rt: &HostRuntime) {
    let none = empty(13);
    route(rt, 0, none, 65535, 65535);
    walk(rt, none, 65535, 4294967295);
    let full = Book {
        count: 49,
        ..empty(3)
    };
    route(rt, 0, full, 65535, 0);
    walk(rt, full, 65535, 0);
}

// The first stopped link of a tag's path, and a path that is clear.
fn tags_walked(rt: &HostRuntime) {
    let book = with(empty(3), links(1, 1, 2, 4));
    for tag in [0, 8, 24, 40] {
        walk(rt, book, 1, tag);
    }
}

// docs/RULES.md, 'Routes': both arms of a fork count, other stages and other switches do not, and a walk names the notice that it meets.
fn both_arms(rt: &HostRuntime) {
    let plus = with(empty(3), links(9, 0, 1, 2));
    let both = with(plus, links(5, 0, 1, 4));
    route(rt, 0, both, 1, 0);
    let later = with(both, links(1, 1, 2, 7));
    let beside = with(later, links(2, 0, 0, 7));
    route(rt, 0, beside, 1, 0);
    walk(rt, beside, 1, 0);
    walk(rt, beside, 1, 8);
    route(rt, 0, with(beside, links(4, 0, 1, 6)), 1, 0);
}

// Nothing out of a switch that no clear walk reaches: 3 stops the straight link of switch 0, which minus from 1 would lead to.
fn not_reached(rt: &HostRuntime) {
    let closed = with(empty(3), links(20, 0, 1, 4));
    let straight = with(closed, links(3, 1, 0, 1));
    let one = with(straight, links(40, 1, 2, 2));
    route(rt, 0, with(one, links(30, 1, 2, 4)), 1, 0);
}

// At stage n-1 plus and minus are two ways.
fn last_stage(rt: &HostRuntime) {
    let plus = with(empty(1), links(65535, 0, 0, 2));
    route(rt, 0, with(plus, links(65534, 0, 0, 4)), 0, 1);
}

// docs/RULES.md, 'Notices': no route leaves a dead card of column 0, whatever the destination, and no walk does; its neighbour's do, and routes to the same
// label.
fn dead_card(rt: &HostRuntime) {
    let dead = with(empty(3), switch(6, 0, 5));
    route(rt, 0, dead, 5, 5);
    route(rt, 0, dead, 5, 2);
    walk(rt, dead, 5, 5);
    walk(rt, dead, 5, 2);
    route(rt, 0, dead, 4, 5);
    route(rt, 0, dead, 6, 5);
    let beside = with(dead, links(3, 0, 5, 1));
    route(rt, 0, beside, 5, 5);
    route(rt, 0, beside, 5, 2);
    label_of_a_dead_card(rt);
}

// Where its label is reached at a later stage the card's notice stops nothing, and neither does one of an earlier column.
fn label_of_a_dead_card(rt: &HostRuntime) {
    let cards = with(with(empty(3), switch(1, 0, 4)), switch(2, 1, 0));
    let straight = with(cards, links(9, 1, 4, 1));
    route(rt, 0, with(straight, links(8, 1, 6, 6)), 5, 4);
}

// The same links, only reserved.
fn busy(notice: Notice) -> Notice {
    Notice { class: 1, ..notice }
}

// docs/RULES.md, 'Classes': over all notices and over broken ones only. A walk counts all.
fn choices(rt: &HostRuntime) {
    let reserved = with(empty(3), busy(links(1, 0, 1, 4)));
    both_choices(rt, reserved, 1, 0);
    walk(rt, reserved, 1, 0);
    let plus = with(reserved, links(2, 0, 1, 2));
    both_choices(rt, plus, 1, 0);
    let minus = with(plus, links(3, 0, 1, 4));
    both_choices(rt, minus, 1, 0);
    let card = with(empty(3), busy(switch(6, 0, 5)));
    both_choices(rt, card, 5, 2);
    both_choices(rt, with(card, switch(7, 0, 5)), 5, 2);
}

// 5, after 16 and 10 and before 11.
fn bad_choices(rt: &HostRuntime) {
    let stuck = with(empty(1), links(1, 0, 0, 7));
    chosen(rt, 0, stuck, 0, 1, 2);
    chosen(rt, 0, stuck, 0, 1, 255);
    chosen(rt, 0, stuck, 0, 2, 2);
    chosen(rt, 0, empty(13), 0, 0, 2);
}

fn both_choices(rt: &HostRuntime, book: Book, source: u16, destination: u16) {
    for choice in [0, 1] {
        chosen(rt, 0, book, source, destination, choice);
    }
}

fn route(rt: &HostRuntime, example: u64, book: Book, source: u16, destination: u16) {
    chosen(rt, example, book, source, destination, 0);
}

fn chosen(rt: &HostRuntime, example: u64, book: Book, source: u16, destination: u16, choice: u8) {
    let _ = print!(rt; "ROUTE {example} {source} {destination}");
    let _ = match router::route(book, source, destination, choice) {
        Ok(tag) => println!(rt; " TAG {tag}"),
        Err(NoRoute::NoClearPath { stage, number }) => println!(rt; " NONE {stage} BY {number}"),
        Err(NoRoute::Refused(why)) => println!(rt; " REFUSED {}", why.number()),
    };
}

fn walk(rt: &HostRuntime, book: Book, source: u16, tag: u32) {
    let _ = print!(rt; "WALK {source} {tag}");
    let _ = match walker::walk(book, source, tag) {
        Ok(()) => println!(rt; " CLEAR"),
        Err(NotClear::Stopped { stage, number }) => println!(rt; " STOPPED {stage} BY {number}"),
        Err(NotClear::Astray) => println!(rt; " ASTRAY"),
        Err(NotClear::Refused(why)) => println!(rt; " REFUSED {}", why.number()),
    };
}
