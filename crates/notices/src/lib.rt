// docs/RULES.md, 'Notices' and 'Classes': a notice, its target and its class. Which links it names, when filing refuses it and which routes
// count it is defined in specs/.
#![tactic(auto)]

// One of the three targets of a notice.
#[derive(Clone, Copy, Debug, PartialEq, Eq)]
pub enum Target {
    Links {
        stage: u8,
        switch: u16,
        set: u8,
    },
    Switch {
        column: u8,
        switch: u16,
    },
    Pattern {
        stage: u8,
        value: u16,
        mask: u16,
        set: u8,
    },
}

// Its class is 0 where its links are broken, and 1 where they are only busy; a number, since 5 judges one above 1 (docs/RULES.md, 'Classes').
#[derive(Clone, Copy, Debug, PartialEq, Eq)]
pub struct Notice {
    pub number: u16,
    pub target: Target,
    pub class: u8,
}

impl Notice {
    // What the places of an array hold in which no notice stands.
    pub const FILLER: Notice = Notice {
        number: 0,
        target: Target::Links {
            stage: 0,
            switch: 0,
            set: 0,
        },
        class: 0,
    };
}
