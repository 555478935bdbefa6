// docs/RULES.md, 'Entries', steps to tag.
ghost use Rattle.std.specs.Prelude.{◌≡◌, ◌≤◌, ◌<◌, length, take};
ghost use Rattle.fabric.specs.Labels.{size};
ghost use Rattle.scheme.specs.Tags.{normal_tag};
ghost use Rattle.tags.specs.Entries.{some_above_two, StepsToTag};

use fabric::Fabric;
use scheme::{state_bit, state_for, tag_of};
use table::Refusal;

// Whether one of the bytes is no code of a link.
fn some_above_two(bytes: &[u8]) -> bool
    ensures { result ≡ some_above_two bytes.now }
{
    bytes.iter().any(|code| 2 < *code)
}

// The normal tag of the steps at the front of the memory.
pub fn read_steps(fabric: Fabric, source: u16, memory: &[u8]) -> u32
    requires { (source < size fabric.n) × (fabric.n ≤ length memory.now) }
    ensures { result ≡ normal_tag fabric.n source (take fabric.n memory.now) }
{
    let mut states = 0;
    let mut j = source;
    for i in 0..fabric.n {
        let code = memory[i as usize];
        let state = state_for(fabric::bit_of(i, j), code);
        states += state_bit(state, i);
        j = fabric.landing(i, code, j);
    }
    tag_of(fabric, j, states)
}

// docs/RULES.md, 'Entries', steps to tag: 1, 10, 13, 12.
pub fn steps_to_tag(n: u8, source: u16, memory: &[u8]) -> Result<u32, Refusal>
    ensures { StepsToTag n source memory.now result }
{
    let fabric = Fabric::try_from(n)?;
    if fabric.outside_labels(source) {
        return Err(Refusal::Label);
    }
    if memory.len() < n as usize {
        return Err(Refusal::Room);
    }
    let steps = &memory[..n as usize];
    if some_above_two(steps) {
        return Err(Refusal::Tag);
    }
    Ok(read_steps(fabric, source, steps))
}
