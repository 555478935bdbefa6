// The action reader for C and Rust: which action a part holds, and its eight fields written into lent memory.
#![tactic(auto)]

ghost use Rattle.std.specs.Prelude.{◌≡◌};
ghost use Rattle.table.specs.Reply.{alone, says};
ghost use Rattle.packing.specs.Packed.{packed};
ghost use Rattle.fields.specs.Fields.{kind_says, in_order, ReadsFields};

use actions::{Action, Fields};
use packer::{refused, told, value};
use table::Refusal;

// Which action it is: 1 files, 2 withdraws, 3 routes.
// One match: a function for the kinds beside `told` is no plainer.
pub fn kind(action: Result<Action, Refusal>) -> u64
    ensures { result ≡ packed (kind_says action) }
{
    match action {
        Ok(Action::File(_)) => value(1),
        Ok(Action::Withdraw(_)) => value(2),
        Ok(Action::Route { .. }) => value(3),
        Err(why) => refused(why),
    }
}

// "Action reader (part): 13, 2. Past these it answers the action and its fields.": the fields at the front of the memory, where there is room.
pub fn read_fields(part: &[u8], memory: &mut [u16]) -> u64
    ensures { ReadsFields part.now memory.old memory.new result }
{
    told(written(part, memory))
}

// Writes the fields of a part that holds an action, and answers the first of them, which action it is.
#[tactic(auto, using(crate::proofs::Writing::room_short))]
fn written(part: &[u8], memory: &mut [u16]) -> Result<u16, Refusal>
    ensures { ReadsFields part.now memory.old memory.new (packed (says alone result)) }
{
    action_bytes::read_action(part)?;
    if memory.len() < 8 {
        return Err(Refusal::Room);
    }
    let fields = action_bytes::fields(part);
    memory[..8].copy_from_slice(&in_order(fields));
    Ok(u16::from(fields.action))
}

// The eight fields, as numbers of 16 bits.
fn in_order(f: Fields) -> [u16; 8]
    ensures { result ≡ in_order f }
{
    [
        u16::from(f.action),
        f.number,
        u16::from(f.kind),
        u16::from(f.stage),
        f.switch,
        f.mask,
        u16::from(f.set),
        u16::from(f.class),
    ]
}
