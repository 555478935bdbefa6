// docs/RULES.md, 'The sheet' and 'Classes': an action, and the fields of its bytes. Its layout is defined in specs/; there is no code here.
#![tactic(auto)]

use notices::Notice;

// The bytes of an action, class last.
pub const ACTION_LENGTH: usize = 11;

// "An action has ten bytes in version 1": those before the class.
pub const TEN: usize = 10;

// The bytes of a sheet's header.
pub const HEADER_LENGTH: usize = 8;

// What an action asks for. The choice of a route is 0 where all notices count, and 1 where broken ones alone do.
// Numbers, as they lie in the bytes: 2 judges them.
#[derive(Clone, Copy, Debug, PartialEq, Eq)]
pub enum Action {
    File(Notice),
    Withdraw(u16),
    Route {
        source: u16,
        destination: u16,
        choice: u8,
    },
}

// The fields of an action's bytes, in their order, whatever they hold.
// Numbers, as they lie in the bytes: 2 judges them.
#[derive(Clone, Copy, Debug, PartialEq, Eq)]
pub struct Fields {
    pub action: u8,
    pub number: u16,
    pub kind: u8,
    pub stage: u8,
    pub switch: u16,
    pub mask: u16,
    pub set: u8,
    pub class: u8,
}
