// docs/RULES.md, 'Routes': crossing the fabric from a source toward a destination, over whatever stops the links there. Every router finds what is
// stopped in its own way and then crosses; where there is no path it looks, in its own way again, for who stops the ways onward.
#![tactic(auto)]

ghost use Rattle.std.specs.Prelude.{◌≤◌, ◌<◌};
ghost use Rattle.fabric.specs.Labels.{size};
ghost use Rattle.paths.specs.Clear.{Rule};
ghost use Rattle.frontier.specs.Stops.{StopsUnder};
ghost use Rattle.crossing.specs.Crossed.{CrossedBy};

use fabric::Fabric;
use frontier::{Front, Stops};

// The stage that no clear walk can cross, with the ways onward there: a set of the three links that lead toward the destination out of the column's
// two switches.
#[derive(Clone, Copy, Debug, PartialEq, Eq)]
pub struct Stuck {
    pub stage: u8,
    pub ways: u8,
}

// The tag of the first clear path, or where crossing is stuck. The frontier goes from the source to the last column, or to the stage where it is
// empty, for whatever rule stops those links. The sets are read from their word's low end, stage by stage: a shift by each stage's place was slower
// (docs/SPEED.md).
pub fn cross(fabric: Fabric, source: u16, destination: u16, stops: Stops) -> Result<u32, Stuck>
    requires { (source < size fabric.n) × (destination < size fabric.n) }
    ensures { (rule : Rule) → StopsUnder fabric.n rule source destination stops → CrossedBy fabric.n rule source destination result }
{
    let distance = frontier::distance(source, destination);
    let mut front = Front::at_source(fabric);
    let mut sets = stops.sets;
    for i in 0..fabric.n {
        let t = fabric::bit_of(i, destination);
        let right = fabric::bit_of(i, distance) == 0;
        let next = front.advance(fabric, right, t, (sets % 16) as u8);
        if !next.reached(fabric) {
            let ways = front.ways_onward(fabric, right);
            return Err(Stuck { stage: i, ways });
        }
        front = next;
        sets /= 16;
    }
    Ok(scheme::tag_of(fabric, destination, front.first_states(fabric)))
}
