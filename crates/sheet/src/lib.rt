// docs/RULES.md, 'The sheet' and 'Classes': what the entries over a sheet answer.
#![tactic(auto)]

// What a sheet's header says: the fabric's size, how many actions follow, and the version, 1 or 2.
// A version stays a number: 14 judges one that is none.
#[derive(Clone, Copy, Debug, PartialEq, Eq)]
pub struct Header {
    pub n: u8,
    pub count: u16,
    pub version: u16,
}
