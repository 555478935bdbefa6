// docs/RULES.md, 'The sheet': a notice as a filing action, class last ('Classes').
ghost use Rattle.std.specs.Prelude.{◌≡◌};
ghost use Rattle.actions.specs.Layout.{filing};
ghost use Rattle.actions.specs.Format.{field_bytes};

use actions::{ACTION_LENGTH, Fields};
use notices::{Notice, Target};

// The action that files a notice.
pub fn filing(x: Notice) -> [u8; ACTION_LENGTH]
    ensures { result ≡ filing x }
{
    field_bytes(fields(x))
}

// Its fields: those that the kind of its target does not use are zero.
fn fields(x: Notice) -> Fields
    ensures { field_bytes result ≡ filing x }
{
    let unused = Fields {
        action: 1,
        number: x.number,
        kind: 0,
        stage: 0,
        switch: 0,
        mask: 0,
        set: 0,
        class: x.class,
    };
    match x.target {
        Target::Links { stage, switch, set } => Fields {
            kind: 1,
            stage,
            switch,
            set,
            ..unused
        },
        Target::Switch { column, switch } => Fields {
            kind: 2,
            stage: column,
            switch,
            ..unused
        },
        Target::Pattern {
            stage,
            value,
            mask,
            set,
        } => Fields {
            kind: 3,
            stage,
            switch: value,
            mask,
            set,
            ..unused
        },
    }
}

// The eleven bytes of an action's fields.
fn field_bytes(f: Fields) -> [u8; ACTION_LENGTH]
    ensures { result ≡ field_bytes f }
{
    let number = f.number.to_be_bytes();
    let switch = f.switch.to_be_bytes();
    let mask = f.mask.to_be_bytes();
    [
        f.action, number[0], number[1], f.kind, f.stage, switch[0], switch[1], mask[0], mask[1],
        f.set, f.class,
    ]
}
