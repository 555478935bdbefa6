// docs/RULES.md, 'Numbers handed back': the reasons for which an entry refuses.
#![tactic(auto)]

ghost use Rattle.std.specs.Prelude.{◌≡◌};
ghost use Rattle.table.specs.Numbers.{number_of};

// One case for each number of the table that comes alone. Number 11 comes with a stage and number 17 ends a walk: they
// are cases of the answers that give them.
#[derive(Clone, Copy, Debug, PartialEq, Eq)]
pub enum Refusal {
    // n outside 1 to 12
    Size,
    // unknown action or kind, a spare field not zero, a class above 1 or of a withdrawal
    Layout,
    // notice number 0
    Zero,
    // stage, column or switch outside the fabric
    Place,
    // set outside 1 to 7, mask bit at n or above, value outside the mask, class or choice above 1
    Field,
    // pattern too wide
    Wide,
    // number already stands
    Stands,
    // 48 stand already
    Full,
    // number does not stand
    Absent,
    // source or destination not below N
    Label,
    // tag not below 2^(2n), or a code above 2
    Tag,
    // lent memory too short, no action k in the sheet, or an action part of neither ten bytes nor eleven
    Room,
    // sheet under 8 bytes, wrong mark or version
    Mark,
    // action count above 4,096, or wrong sheet length
    Length,
    // a book that an accepted opening, filing and withdrawing cannot produce
    Book,
}

impl Refusal {
    // The number that the table gives it.
    // A match: 11 and 17 are no cases, so no discriminant would read better.
    pub fn number(self) -> u8
        ensures { result ≡ number_of self }
    {
        match self {
            Refusal::Size => 1,
            Refusal::Layout => 2,
            Refusal::Zero => 3,
            Refusal::Place => 4,
            Refusal::Field => 5,
            Refusal::Wide => 6,
            Refusal::Stands => 7,
            Refusal::Full => 8,
            Refusal::Absent => 9,
            Refusal::Label => 10,
            Refusal::Tag => 12,
            Refusal::Room => 13,
            Refusal::Mark => 14,
            Refusal::Length => 15,
            Refusal::Book => 16,
        }
    }
}
