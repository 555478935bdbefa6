// Which links on ways to a destination are stopped: a set at each stage, as a notice has it.
ghost use Rattle.std.specs.Prelude.{◌≡◌, ◌<◌, ◌≤◌};
ghost use Rattle.frontier.specs.Stops.{set_of, share};

// Of the links that lead toward the destination out of a column's two switches, those that are stopped: the straight link of the switch
// whose bit is right, and the nonstraight links of the other, which forks. A set of them at each stage, straight 1, plus 2, minus 4, in four
// bits a stage, stage 0 lowest. One word in place of an array: three words of bits were measured slower (docs/SPEED.md).
#[derive(Clone, Copy)]
pub struct Stops {
    pub sets: u64,
}

impl Stops {
    ghost use Rattle.frontier.specs.Stops.{none_stopped, SetMore};

    pub fn none() -> Stops
        ensures { result ≡ none_stopped }
    {
        Stops { sets: 0 }
    }

    // What is stopped, with the links of a set more at stage i.
    pub fn with(self, i: u8, set: u8) -> Stops
        requires { (i ≤ 12) × (set < 8) }
        ensures { SetMore i set self result }
    {
        Stops {
            sets: self.sets | (u64::from(set) << (4 * i)),
        }
    }
}

// The set of those of a stage's three links that are meant.
pub fn set_of(straight: bool, plus: bool, minus: bool) -> u8
    ensures { (result ≡ set_of straight plus minus) × (result < 8) }
{
    u8::from(straight) + 2 * u8::from(plus) + 4 * u8::from(minus)
}

// Whether two sets have a link in common.
#[tactic(auto, using(crate::proofs::Sets::shared_exactly))]
pub fn in_common(a: u8, b: u8) -> bool
    requires { a < 8 }
    ensures { result ≡ share a b }
{
    a & b != 0
}
