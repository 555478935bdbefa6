// docs/RULES.md, 'Entries' and 'Walks': why walking a tag does not end clear.
#![tactic(auto)]

ghost use Rattle.std.specs.Prelude.{◌≡◌};
ghost use Rattle.walks.specs.declared.NotClear.{NotClear};

use table::Refusal;

// Why a walk is not clear: what was asked is refused; the first stage whose link is stopped, with the lowest number of a notice that stops that link; or it ended
// away from its tag's destination.
#[derive(Clone, Copy, Debug, PartialEq, Eq)]
pub enum NotClear {
    Refused(Refusal),
    Stopped { stage: u8, number: u16 },
    Astray,
}

impl From<Refusal> for NotClear {
    ghost from_gives = { λ why e. e ≡ NotClear.Refused why };

    fn from(why: Refusal) -> NotClear {
        NotClear::Refused(why)
    }
}
