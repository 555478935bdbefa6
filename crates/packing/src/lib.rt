// How an entry's answer crosses the border to C and Rust: one number.
#![tactic(auto)]
