// docs/RULES.md, 'Notices' and 'Classes': which links a notice names, the checks 4, 5 and 6 of a notice, and which routes count it.
#![tactic(auto)]

ghost use Rattle.std.specs.Prelude.{◌≡◌, ℕ, ◌≤◌, ◌<◌};
ghost use Rattle.fabric.specs.Links.{lands};
ghost use Rattle.notices.specs.declared.Target.TheVariants.{Switch};
ghost use Rattle.notices.specs.Classes.{bad_class, counts};
ghost use Rattle.notices.specs.Targets.{bad_set, target_names, target_bad};
ghost use Rattle.notices.specs.Notices.{names, outside_fabric, bad_field, too_wide, unfit};

use fabric::Fabric;
use notices::{Notice, Target};

// Whether a notice names the link of a code that leaves a switch at a stage and lands on `end`.
pub fn names(x: Notice, stage: u8, switch: u16, code: u8, end: u16) -> bool
    requires { (stage < 12) × (code < 3) }
    ensures { (n : ℕ) → end ≡ lands n stage code switch → result ≡ names n x stage switch code }
{
    match x.target {
        Target::Links {
            stage: s,
            switch: w,
            set,
        } => stage == s && switch == w && fabric::in_set(set, code),
        Target::Switch { column, switch: w } => names_of_switch(column, w, stage, switch, end),
        Target::Pattern {
            stage: s,
            value,
            mask,
            set,
        } => stage == s && switch & mask == value && fabric::in_set(set, code),
    }
}

// Whether a switch notice does, of switch w: in column 0 it names the links that leave w, elsewhere those that land on it.
fn names_of_switch(column: u8, w: u16, stage: u8, switch: u16, end: u16) -> bool
    requires { stage < 12 }
    ensures { (n c : ℕ) → end ≡ lands n stage c switch → result ≡ target_names n (Switch column w) stage switch c }
{
    if column == 0 {
        return stage == 0 && switch == w;
    }
    stage + 1 == column && end == w
}

// 4
pub fn outside_fabric(fabric: Fabric, x: Notice) -> bool
    ensures { result ≡ outside_fabric fabric.n x }
{
    match x.target {
        Target::Links { stage, switch, .. } => fabric.n <= stage || fabric.outside_labels(switch),
        Target::Switch { column, switch } => fabric.n < column || fabric.outside_labels(switch),
        Target::Pattern { stage, .. } => fabric.n <= stage,
    }
}

fn bad_set(set: u8) -> bool
    ensures { result ≡ bad_set set }
{
    set < 1 || 7 < set
}

// 5, of the target
fn bad_target(fabric: Fabric, x: Notice) -> bool
    ensures { result ≡ target_bad fabric.n x.target }
{
    match x.target {
        Target::Links { set, .. } => bad_set(set),
        Target::Switch { .. } => false,
        Target::Pattern {
            value,
            mask,
            set,
            ..
        } => bad_set(set) || fabric.outside_labels(mask) || value & mask != value,
    }
}

// A class above 1, or a choice. Both stay numbers, here and above: 5 judges them (docs/RULES.md, 'Classes').
pub fn bad_class(class: u8) -> bool
    ensures { result ≡ bad_class class }
{
    1 < class
}

// 5
pub fn bad_field(fabric: Fabric, x: Notice) -> bool
    ensures { result ≡ bad_field fabric.n x }
{
    bad_target(fabric, x) || bad_class(x.class)
}

// Whether a route of this choice counts the notice. Choice and class are 0 or 1, and it does where one of them is 0.
pub fn counts(choice: u8, x: Notice) -> bool
    requires { (choice ≤ 1) × (x.class ≤ 1) }
    ensures { result ≡ counts choice x }
{
    choice & x.class == 0
}

// 6
pub fn too_wide(x: Notice) -> bool
    ensures { result ≡ too_wide x }
{
    match x.target {
        Target::Links { .. } | Target::Switch { .. } => false,
        Target::Pattern { mask, .. } => mask.count_ones() < 2,
    }
}

// Whether filing refuses the notice for itself.
pub fn unfit(fabric: Fabric, x: Notice) -> bool
    ensures { result ≡ unfit fabric.n x }
{
    outside_fabric(fabric, x) || bad_field(fabric, x) || too_wide(x)
}
