// What the programs that run examples print: words, refusals and bytes, on standard output; and the notices that they file.
#![tactic(auto)]

mod filed; // filed.rt: notices of broken links

pub use filed::{links, pattern, switch};
use table::Refusal;

pub fn word(rt: &HostRuntime, text: &[u8]) {
    let _ = rt.write_all(text);
}

// A blank, the word REFUSED and the refusal's number (docs/RULES.md, 'Numbers handed back').
// The one place that prints a refusal: a Display in table is no plainer.
pub fn refused(rt: &HostRuntime, why: Refusal) {
    let _ = print!(rt; " REFUSED {}", why.number());
}

// The bytes of a part, between brackets.
pub fn bytes(rt: &HostRuntime, part: &[u8]) {
    word(rt, b" [");
    for byte in part {
        let _ = print!(rt; " {byte}");
    }
    word(rt, b" ]");
}
