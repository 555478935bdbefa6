// docs/RULES.md, 'Numbers handed back', for whoever asks for all three links of a switch: one pass finds the three lowest numbers together.
ghost use Rattle.std.specs.Prelude.{◌≡◌, ◌<◌};
ghost use Rattle.fabric.specs.Labels.{size};
ghost use Rattle.book.specs.Standing.{stops_of};
ghost use Rattle.questions.specs.Entries.{number_or_none};
ghost use Rattle.asked.specs.Lower.{held};

use super::pass::lower;
use book::SoundBook;
use fabric::Fabric;

// The lowest numbers that stop the three links of a switch.
#[derive(Clone, Copy, Debug, PartialEq, Eq)]
pub struct Lowest {
    pub straight: Option<u16>,
    pub plus: Option<u16>,
    pub minus: Option<u16>,
}

// What is held once a notice has been tested.
fn held(named: bool, found: Option<u16>, number: u16) -> Option<u16>
    ensures { result ≡ held named found number }
{
    if named {
        return Some(lower(found, number));
    }
    found
}

// What stops the three links of a switch, for whoever asks for all of them.
pub fn stoppers(book: &SoundBook, stage: u8, switch: u16) -> Lowest
    requires { (stage < book.now.book.n) × (switch < size book.now.book.n) }
    ensures straight { result.straight ≡ number_or_none (stops_of book.now.book stage switch 0) }
    ensures plus { result.plus ≡ number_or_none (stops_of book.now.book stage switch 1) }
    ensures minus { result.minus ≡ number_or_none (stops_of book.now.book stage switch 2) }
{
    let fabric = Fabric { n: book.book.n };
    let up = fabric.landing(stage, 1, switch);
    let down = fabric.landing(stage, 2, switch);
    let mut found = Lowest {
        straight: None,
        plus: None,
        minus: None,
    };
    for x in book.notices().iter().rev() {
        let straight = targets::names(*x, stage, switch, 0, switch);
        let plus = targets::names(*x, stage, switch, 1, up);
        let minus = targets::names(*x, stage, switch, 2, down);
        found = Lowest {
            straight: held(straight, found.straight, x.number),
            plus: held(plus, found.plus, x.number),
            minus: held(minus, found.minus, x.number),
        };
    }
    found
}
