// The frontier of clear walks toward a destination, carried forward stage by stage: at most two switches in each column.
#![tactic(auto)]

ghost use Rattle.std.specs.Prelude.{◌≡◌, ◌+◌, ◌*◌, ◌<◌, ◌≤◌, true, false, if◌then◌else◌};
ghost use Rattle.fabric.specs.Labels.{size};
ghost use Rattle.frontier.specs.Frontier.{lost_by, through};

use fabric::Fabric;
use std::hint::select_unpredictable;

mod ways; // ways.rt: the two switches of each column
mod links; // links.rt: which of their links are stopped

pub use links::{Stops, in_common, set_of};
pub use ways::{Column, Columns, distance};

// The two switches of a column: the high one, and the low one 2^i below it. Of each is held the first clear walk that reaches
// it, as the states of its steps in one number, that of stage 0 highest: of two walks the lesser comes first. N or more is
// no walk: with a flag beside each number a route took 1.69 times as long as plain (docs/DECISIONS.md).
#[derive(Clone, Copy)]
pub struct Front {
    pub high: u32,
    pub low: u32,
}

impl Front {
    ghost use Rattle.frontier.specs.Stops.{links_of};
    ghost use Rattle.frontier.specs.Frontier.{start, lesser, advanced, mirrored};
    ghost use Rattle.frontier.specs.WaysOnward.{ways_onward};

    // In column 0 the source alone is reached.
    pub fn at_source(fabric: Fabric) -> Front
        ensures { result ≡ start fabric.n }
    {
        Front {
            high: 0,
            low: u32::from(fabric.size()),
        }
    }

    // The frontier one stage on, toward a destination with bit t, where the links of a set are stopped. The switch whose bit is right goes
    // straight; the other one forks, plus up and minus down.
    // A bit stays a number: it is added. Which switch is right cannot be foreseen, so each number is chosen and none is jumped over: with an `if` around
    // the two fronts a route was a fifth slower (docs/SPEED.md).
    #[tactic(auto, using(crate::proofs::Places::advanced_high, crate::proofs::Places::advanced_low))]
    pub fn advance(self, fabric: Fabric, right: bool, t: u8, set: u8) -> Front
        requires { (t < 2) × (self.high < 33554432) × (self.low < 33554432) }
        ensures { result ≡ advanced fabric.n right t (links_of set) self }
    {
        let (stays, forks) = self.stays_and_forks(right);
        let straight = by_link(fabric, stays, fabric::in_set(set, 0), 0);
        let up = by_link(fabric, forks, fabric::in_set(set, 1), 1 - t);
        let down = by_link(fabric, forks, fabric::in_set(set, 2), t);
        let met = straight.min(select_unpredictable(right, up, down));
        Front {
            high: select_unpredictable(right, met, up),
            low: select_unpredictable(right, down, met),
        }
    }

    // The walk to the switch that goes straight, and the one to the switch that forks.
    fn stays_and_forks(self, right: bool) -> (u32, u32)
        ensures { (result.0 ≡ (if right then self.high else self.low)) × (result.1 ≡ (if right then self.low else self.high)) }
    {
        if right {
            (self.high, self.low)
        } else {
            (self.low, self.high)
        }
    }

    // Whether one of the two switches is reached.
    #[tactic(auto, using(crate::proofs::Places::lesser_min))]
    pub fn reached(self, fabric: Fabric) -> bool
        ensures { (result ≡ true → lesser self.high self.low < size fabric.n) × (result ≡ false → size fabric.n ≤ lesser self.high self.low) }
    {
        self.high.min(self.low) < u32::from(fabric.size())
    }

    // The links that lead on from those of the two switches that are reached, as a set: straight out of the one whose bit is right, plus and minus out
    // of the other.
    pub fn ways_onward(self, fabric: Fabric, right: bool) -> u8
        ensures { (result ≡ ways_onward fabric.n right self) × (result < 8) }
    {
        let all = u32::from(fabric.size());
        let (stays, forks) = self.stays_and_forks(right);
        links::set_of(stays < all, forks < all, forks < all)
    }

    // The states of the first of all walks to column n, that of stage 0 lowest, as a tag has them.
    #[tactic(auto, using(crate::proofs::Mirrored::states_read), unfolding(crate::specs::Frontier::mirrored))]
    pub fn first_states(self, fabric: Fabric) -> u32
        requires { lesser self.high self.low < size fabric.n }
        ensures { (result ≡ mirrored fabric.n (lesser self.high self.low)) × (result < size fabric.n) }
    {
        let walk = self.high.min(self.low) as u16;
        let mut states: u32 = 0;
        for i in 0..fabric.n {
            states = states * 2 + u32::from(fabric::bit_of(i, walk));
        }
        states
    }
}

// What makes a walk none where its link is stopped.
fn lost_by(fabric: Fabric, stopped: bool) -> u32
    ensures { result ≡ lost_by fabric.n stopped }
{
    if stopped { u32::from(fabric.size()) } else { 0 }
}

// A walk with one link more, stopped or not, taken in a state. After 12 links its number is still below 2^26.
// A bit stays a number: it is added.
#[tactic(auto, unfolding(crate::specs::Frontier::through))]
fn by_link(fabric: Fabric, walk: u32, stopped: bool, state: u8) -> u32
    requires { (state < 2) × (walk < 33554432) }
    ensures { result ≡ through fabric.n walk stopped state }
{
    walk * 2 + u32::from(state) + lost_by(fabric, stopped)
}
