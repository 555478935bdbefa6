// From ten bytes, or eleven, to the action.
ghost use Rattle.std.specs.Prelude.{◌≡◌, false, ◌≤◌, length};
ghost use Rattle.table.specs.Reply.{Reply};
ghost use Rattle.actions.specs.Layout.{filing_of};
ghost use Rattle.actions.specs.Format.{fields_of, with_class, field_bytes, kind_fault, filing_fault, withdrawing_fault, routing_fault, layout_fault};
ghost use Rattle.actions.specs.Entries.{no_part, action_says, ReadsAction};

use crate::{class_of, word_at};
use actions::{ACTION_LENGTH, Action, Fields, TEN};
use notices::{Notice, Target};
use table::Refusal;

// "Action reader (part): 13, 2. Past these it answers the action and its fields."
pub fn read_action(part: &[u8]) -> Result<Action, Refusal>
    ensures { ReadsAction part.now result }
{
    if no_part(part) {
        return Err(Refusal::Room);
    }
    let f = fields(part);
    if layout_fault(f) {
        return Err(Refusal::Layout);
    }
    Ok(action(f))
}

// 13: "A part of either length is read"
fn no_part(part: &[u8]) -> bool
    ensures { (result ≡ no_part part.now) × (result ≡ false → (10 ≤ length part.now) × (length part.now ≤ 11)) }
{
    part.len() != TEN && part.len() != ACTION_LENGTH
}

// The fields of a part, whatever they hold.
#[tactic(auto, using(actions::proofs::Layouts::fields_written))]
pub fn fields(part: &[u8]) -> Fields
    requires { (10 ≤ length part.now) × (length part.now ≤ 11) }
    ensures { (result ≡ fields_of part.now) × (field_bytes result ≡ with_class part.now) }
{
    Fields {
        action: part[0],
        number: word_at(part, 1),
        kind: part[3],
        stage: part[4],
        switch: word_at(part, 5),
        mask: word_at(part, 7),
        set: part[9],
        class: class_of(part),
    }
}

// 2
fn layout_fault(f: Fields) -> bool
    ensures { result ≡ layout_fault f }
{
    match f.action {
        1 => filing_fault(f),
        2 => withdrawing_fault(f),
        3 => routing_fault(f),
        _ => true,
    }
}

fn kind_fault(f: Fields) -> bool
    ensures { result ≡ kind_fault f }
{
    match f.kind {
        1 => f.mask != 0,
        2 => f.mask != 0 || f.set != 0,
        3 => false,
        _ => true,
    }
}

// "In bytes a class of 2 or more is a fault, number 2, and so is any class but 0 on a withdrawal"
fn filing_fault(f: Fields) -> bool
    ensures { result ≡ filing_fault f }
{
    kind_fault(f) || 1 < f.class
}

fn withdrawing_fault(f: Fields) -> bool
    ensures { result ≡ withdrawing_fault f }
{
    f.kind != 0 || f.stage != 0 || f.switch != 0 || f.mask != 0 || f.set != 0 || f.class != 0
}

fn routing_fault(f: Fields) -> bool
    ensures { result ≡ routing_fault f }
{
    f.number != 0 || f.kind != 0 || f.stage != 0 || f.set != 0 || 1 < f.class
}

// The action that has these fields.
// No `From`: it would stand in a crate of definitions alone.
fn action(f: Fields) -> Action
    requires { layout_fault f ≡ false }
    ensures { action_says (Ok result) ≡ Reply.accepted (field_bytes f) }
{
    match f.action {
        1 => Action::File(Notice {
            number: f.number,
            target: target(f),
            class: f.class,
        }),
        2 => Action::Withdraw(f.number),
        _ => Action::Route {
            source: f.switch,
            destination: f.mask,
            choice: f.class,
        },
    }
}

// What a filing action that has these fields takes out of service.
// No `From`: it would stand in a crate of definitions alone.
fn target(f: Fields) -> Target
    requires { (f.action ≡ 1) × (kind_fault f ≡ false) }
    ensures { filing_of f.number result f.class ≡ field_bytes f }
{
    match f.kind {
        1 => Target::Links {
            stage: f.stage,
            switch: f.switch,
            set: f.set,
        },
        2 => Target::Switch {
            column: f.stage,
            switch: f.switch,
        },
        _ => Target::Pattern {
            stage: f.stage,
            value: f.switch,
            mask: f.mask,
            set: f.set,
        },
    }
}
