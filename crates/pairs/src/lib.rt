// Routes for many pairs of labels over one book, for C and Rust: what one call answers. There is no code here.
#![tactic(auto)]
