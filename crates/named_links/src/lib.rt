// Which links on ways from a source to a destination a notice names. It is held against the two switches of its stage, or of its
// column where it is of a switch. A notice of one switch names neither in most questions, and is passed over; a pattern is not, since a
// test of it is wrong too often.
#![tactic(auto)]

ghost use Rattle.std.specs.Prelude.{◌≡◌, false, ℕ, ◌≤◌, ◌<◌};
ghost use Rattle.notices.specs.declared.Target.TheVariants.{Links, Switch, Pattern};
ghost use Rattle.notices.specs.Notices.{unfit};
ghost use Rattle.named_links.specs.Named.{Ways, WithTarget, WithSet, WithInputs};

use at_stage::{inputs, meant};
use fabric::Fabric;
use frontier::{Columns, Stops};
use notices::{Notice, Target};

mod at_stage; // at_stage.rt: which of one stage's links a notice names

pub use at_stage::named_at;

// What is stopped, with the links more that a notice names.
pub fn with_notice(fabric: Fabric, columns: &Columns, x: Notice, stops: Stops) -> Stops
    requires { (unfit fabric.n x ≡ false) × Ways fabric.n columns.now }
    ensures { WithTarget fabric.n columns.now x.target stops result }
{
    match x.target {
        Target::Links { stage, switch, set } => with_links(columns, stage, switch, set, stops),
        Target::Switch { column, switch } => with_switch(fabric, columns, column, switch, stops),
        Target::Pattern {
            stage,
            value,
            mask,
            set,
        } => with_pattern(columns, stage, value, mask, set, stops),
    }
}

fn with_links(columns: &Columns, stage: u8, switch: u16, set: u8, stops: Stops) -> Stops
    requires { stage ≤ 12 }
    ensures { (n : ℕ) → WithTarget n columns.now (Links stage switch set) stops result }
{
    let switches = columns.at(stage);
    let straight = switches.straight == switch;
    let fork = switches.fork == switch;
    if straight || fork {
        with_set(stage, straight, fork, set, stops)
    } else {
        stops
    }
}

fn with_pattern(columns: &Columns, stage: u8, value: u16, mask: u16, set: u8, stops: Stops) -> Stops
    requires { stage ≤ 12 }
    ensures { (n : ℕ) → WithTarget n columns.now (Pattern stage value mask set) stops result }
{
    let switches = columns.at(stage);
    let straight = switches.straight & mask == value;
    let fork = switches.fork & mask == value;
    with_set(stage, straight, fork, set, stops)
}

// The links of a set, where it is of the switch that goes straight and where it is of the one that forks.
// Two tests, no switches.
fn with_set(stage: u8, straight: bool, fork: bool, set: u8, stops: Stops) -> Stops
    requires { stage ≤ 12 }
    ensures { WithSet stage straight fork set stops result }
{
    stops.with(stage, meant(straight, fork, set))
}

// The links that leave a switch of column 0, set 7, and the input links of any other, which leave the column before its own. Every link on ways leads to
// one of a column's two switches.
#[tactic(auto, using(crate::proofs::Naming::column_0_more, crate::proofs::Naming::switch_more))]
fn with_switch(fabric: Fabric, columns: &Columns, column: u8, switch: u16, stops: Stops) -> Stops
    requires { (column ≤ fabric.n) × Ways fabric.n columns.now }
    ensures { WithTarget fabric.n columns.now (Switch column switch) stops result }
{
    if column == 0 {
        return with_links(columns, 0, switch, 7, stops);
    }
    let switches = columns.at(column);
    if switches.straight == switch || switches.fork == switch {
        with_inputs(fabric, columns, column - 1, switch, stops)
    } else {
        stops
    }
}

// The links of stage i that lead to a switch.
fn with_inputs(fabric: Fabric, columns: &Columns, i: u8, switch: u16, stops: Stops) -> Stops
    requires { (i < fabric.n) × Ways fabric.n columns.now }
    ensures { WithInputs fabric.n columns.now i switch stops result }
{
    stops.with(i, inputs(fabric, i, columns.at(i), switch))
}
