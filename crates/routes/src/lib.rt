// docs/RULES.md, 'Entries', 'Routes' and 'Classes': why a route answers no tag.
#![tactic(auto)]

ghost use Rattle.std.specs.Prelude.{◌≡◌};
ghost use Rattle.routes.specs.declared.NoRoute.{NoRoute};

use table::Refusal;

// Why there is no tag: what was asked is refused; or there is no clear path, since no clear walk can cross this stage, with the lowest number of a counted
// notice that stops a way onward there.
#[derive(Clone, Copy, Debug, PartialEq, Eq)]
pub enum NoRoute {
    Refused(Refusal),
    NoClearPath { stage: u8, number: u16 },
}

impl From<Refusal> for NoRoute {
    ghost from_gives = { λ why e. e ≡ NoRoute.Refused why };

    fn from(why: Refusal) -> NoRoute {
        NoRoute::Refused(why)
    }
}
