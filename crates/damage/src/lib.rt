// docs/RULES.md, 'Numbers handed back', 16: whether the places of an array are such as accepted changes leave.
#![tactic(auto)]

ghost use Rattle.std.specs.Prelude.{◌≡◌, ◌||◌, ◌≤◌, take, drop};
ghost use Rattle.table.specs.Checks.{◌below◌};
ghost use Rattle.fabric.specs.Labels.{outside_sizes};
ghost use Rattle.notices.specs.Notices.{unfit};
ghost use Rattle.standing.specs.Rising.{littered, misfiled};

use fabric::Fabric;
use notices::Notice;

// Whether one of these notices is out of order, or one that filing refuses.
#[tactic(auto, using(standing::proofs::Filings::misfiled_number, standing::proofs::Filings::misfiled_bad, standing::proofs::Filings::misfiled_next, standing::proofs::Filings::misfiled_end))]
fn misfiled(fabric: Fabric, notices: &[Notice]) -> bool
    ensures { result ≡ misfiled (unfit fabric.n) 0 notices.now }
{
    let mut last = 0;
    for x in notices {
        if x.number <= last || targets::unfit(fabric, *x) {
            return true;
        }
        last = x.number;
    }
    false
}

// Whether one of the places in which no notice stands holds anything but the filler.
pub fn littered(unused: &[Notice]) -> bool
    ensures { result ≡ littered unused.now }
{
    unused.iter().any(|x| *x != Notice::FILLER)
}

// Whether no accepted opening, filing and withdrawing put the first `count` notices there, in a fabric of n stages, and nothing after them.
// An array and a count, not a slice: a count above 48 is damage too, and is judged here (`unsound`).
pub fn damaged(n: u8, notices: &[Notice; 48], count: usize) -> bool
    ensures { result ≡ (outside_sizes n || 48 below count || misfiled (unfit n) 0 (take count notices.now) || littered (drop count notices.now)) }
{
    fabric::outside_sizes(n)
        || 48 < count
        || misfiled(Fabric { n }, &notices[..count])
        || littered(&notices[count..])
}
