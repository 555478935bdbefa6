// The action reader for C and Rust: which action a part holds, and its eight fields. There is no code here.
#![tactic(auto)]
