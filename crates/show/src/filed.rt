// Notices of broken links, as the examples file them.
use notices::{Notice, Target};

// Links of one switch.
pub fn links(number: u16, stage: u8, switch: u16, set: u8) -> Notice {
    Notice {
        number,
        target: Target::Links { stage, switch, set },
        class: 0,
    }
}

// A switch.
pub fn switch(number: u16, column: u8, switch: u16) -> Notice {
    Notice {
        number,
        target: Target::Switch { column, switch },
        class: 0,
    }
}

// Links of every switch that has the value under the mask.
pub fn pattern(number: u16, stage: u8, value: u16, mask: u16, set: u8) -> Notice {
    Notice {
        number,
        target: Target::Pattern {
            stage,
            value,
            mask,
            set,
        },
        class: 0,
    }
}
