// Which of a stage's three links on ways a notice names, as a set: straight from the one switch, plus and minus from the one that forks.
ghost use Rattle.std.specs.Prelude.{cond, ◌&&◌, ◌≤◌, ◌<◌, eqb};
ghost use Rattle.fabric.specs.Labels.{size};
ghost use Rattle.fabric.specs.Links.{lands};
ghost use Rattle.notices.specs.Notices.{names};
ghost use Rattle.notices.specs.declared.Target.TheVariants.{Switch};
ghost use Rattle.notices.specs.Targets.{set_has, target_names};
ghost use Rattle.named_links.specs.Named.{SetWhere, of_two};

use fabric::Fabric;
use frontier::Column;
use notices::{Notice, Target};

// Those of stage i that a notice names.
pub fn named_at(fabric: Fabric, i: u8, switches: Column, x: Notice) -> u8
    requires { (i < fabric.n) × (switches.fork < size fabric.n) }
    ensures { SetWhere (λ c. names fabric.n x i (of_two switches c) c) result }
{
    match x.target {
        Target::Links { stage, switch, set } if i == stage => meant(
            switches.straight == switch,
            switches.fork == switch,
            set,
        ),
        Target::Pattern {
            stage,
            value,
            mask,
            set,
        } if i == stage => meant(
            switches.straight & mask == value,
            switches.fork & mask == value,
            set,
        ),
        Target::Switch { column, switch } => of_switch(fabric, i, switches, column, switch),
        _ => 0,
    }
}

// Those of a set, where it is of the switch that goes straight and where it is of the one that forks.
// Two tests, no switches.
pub fn meant(straight: bool, fork: bool, set: u8) -> u8
    ensures { SetWhere (λ c. cond (eqb c 0) straight fork && set_has set c) result }
{
    frontier::set_of(straight, fork, fork) & set
}

// Those that a switch notice names: in column 0 the ones that leave its switch, set 7, elsewhere the ones that lead to it.
fn of_switch(fabric: Fabric, i: u8, switches: Column, column: u8, switch: u16) -> u8
    requires { (i < fabric.n) × (switches.fork < size fabric.n) }
    ensures { SetWhere (λ c. target_names fabric.n (Switch column switch) i (of_two switches c) c) result }
{
    if column == 0 && i == 0 {
        meant(switches.straight == switch, switches.fork == switch, 7)
    } else if column == i + 1 {
        inputs(fabric, i, switches, switch)
    } else {
        0
    }
}

// Those that lead to a switch.
pub fn inputs(fabric: Fabric, i: u8, switches: Column, switch: u16) -> u8
    requires { (i < fabric.n) × (switches.fork < size fabric.n) }
    ensures { SetWhere (λ c. eqb (lands fabric.n i c (of_two switches c)) switch) result }
{
    let plus = fabric.landing(i, 1, switches.fork) == switch;
    let minus = fabric.landing(i, 2, switches.fork) == switch;
    frontier::set_of(switches.straight == switch, plus, minus)
}
