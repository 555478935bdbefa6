// Runs the entries of the crate tags on the examples of docs/RULES.md and on bad input, and prints a line for each call.
#![tactic(auto)]

ghost use Rattle.std.specs.Prelude.{◌≤◌};

use show::{bytes, refused, word};
use table::Refusal;

fn main(rt: HostRuntime) {
    figure_seven(&rt);
    every_plus(&rt);
    normal_forms(&rt);
    sizes(&rt);
    labels(&rt);
    tag_bounds(&rt);
    codes(&rt);
    rooms(&rt);
}

// docs/RULES.md, 'Tags and steps': the tags 000000, 000100 and 000110 lead from 1 to 0 by three paths.
fn figure_seven(rt: &HostRuntime) {
    steps(rt, 3, 1, 0, 4);
    steps(rt, 3, 1, 8, 4);
    steps(rt, 3, 1, 24, 4);
    back(rt, 3, 1, &[2, 0, 0, 9]);
    back(rt, 3, 1, &[1, 2, 0, 9]);
    back(rt, 3, 1, &[1, 1, 2, 9]);
}

// docs/RULES.md, 'Examples', 12: from 0 to 4095 at n = 12 every step is plus.
fn every_plus(rt: &HostRuntime) {
    steps(rt, 12, 0, 4095, 13);
}

// docs/RULES.md, 'Examples', 7, and a tag whose every state bit is set.
fn normal_forms(rt: &HostRuntime) {
    normal(rt, 3, 1, 40);
    normal(rt, 3, 1, 8);
    normal(rt, 3, 5, 61);
    normal(rt, 1, 0, 3);
}

// Number 1, before everything else.
fn sizes(rt: &HostRuntime) {
    steps(rt, 0, 65535, 4294967295, 0);
    steps(rt, 13, 65535, 4294967295, 0);
    steps(rt, 255, 65535, 4294967295, 0);
    back(rt, 0, 65535, &[]);
    back(rt, 13, 65535, &[]);
    normal(rt, 0, 65535, 4294967295);
    normal(rt, 255, 65535, 4294967295);
}

// Number 10, before 12 and 13.
fn labels(rt: &HostRuntime) {
    steps(rt, 3, 8, 64, 2);
    steps(rt, 3, 65535, 64, 2);
    back(rt, 3, 8, &[3, 3]);
    back(rt, 3, 65535, &[3, 3]);
    normal(rt, 3, 8, 64);
    normal(rt, 12, 4096, 16777216);
}

// Number 12 for a tag, before 13.
fn tag_bounds(rt: &HostRuntime) {
    steps(rt, 3, 7, 64, 2);
    steps(rt, 3, 7, 4294967295, 4);
    steps(rt, 3, 7, 63, 3);
    normal(rt, 3, 7, 64);
    normal(rt, 12, 0, 16777216);
    normal(rt, 12, 0, 4294967295);
    normal(rt, 12, 0, 16777215);
}

// Number 12 for a code, after 13; bytes after the first n are not read.
fn codes(rt: &HostRuntime) {
    back(rt, 3, 1, &[1, 2, 3, 0]);
    back(rt, 3, 1, &[255, 2, 0, 0]);
    back(rt, 3, 1, &[3, 2]);
    back(rt, 3, 1, &[1, 2, 0, 255]);
    back(rt, 3, 1, &[1, 2, 0]);
}

// Number 13: nothing is written; with room to spare the rest stays.
fn rooms(rt: &HostRuntime) {
    steps(rt, 3, 1, 8, 0);
    steps(rt, 3, 1, 8, 2);
    steps(rt, 3, 1, 8, 3);
    steps(rt, 3, 1, 8, 4);
    back(rt, 3, 1, &[]);
    back(rt, 3, 1, &[1, 2]);
}

// Tag to steps into a room of nines.
fn steps(rt: &HostRuntime, n: u8, source: u16, tag: u32, room: usize)
    requires { room ≤ 16 }
{
    let mut memory = [9u8; 16];
    steps_into(rt, n, source, tag, &mut memory[..room]);
}

// The arms do different things: a match is plainest.
fn steps_into(rt: &HostRuntime, n: u8, source: u16, tag: u32, memory: &mut [u8]) {
    let answer = tagging::tag_to_steps(n, source, tag, memory);
    let _ = print!(rt; "STEPS {n} {source} {tag}");
    match answer {
        Ok(()) => word(rt, b" DONE"),
        Err(why) => refused(rt, why),
    }
    bytes(rt, memory);
    word(rt, b"\n");
}

// Steps to tag.
fn back(rt: &HostRuntime, n: u8, source: u16, steps: &[u8]) {
    let _ = print!(rt; "TAG {n} {source}");
    bytes(rt, steps);
    told(rt, tagging::steps_to_tag(n, source, steps));
}

fn normal(rt: &HostRuntime, n: u8, source: u16, tag: u32) {
    let _ = print!(rt; "NORMAL {n} {source} {tag}");
    told(rt, tagging::normal_form(n, source, tag));
}

// The tag that is answered, and the end of the line.
fn told(rt: &HostRuntime, answer: Result<u32, Refusal>) {
    let _ = match answer {
        Ok(tag) => println!(rt; " IS {tag}"),
        Err(why) => println!(rt; " REFUSED {}", why.number()),
    };
}
