// docs/RULES.md, 'Entries', tag to steps.
ghost use Rattle.std.specs.Prelude.{◌≡◌, ◌++◌, ◌≤◌, ◌<◌, length, drop};
ghost use Rattle.fabric.specs.Labels.{size};
ghost use Rattle.scheme.specs.Tags.{steps_of};
ghost use Rattle.tags.specs.Entries.{TagToSteps};

use fabric::Fabric;
use scheme::{outside_tags, step_of};
use table::Refusal;

// The steps of a tag at the front of the memory; the rest stays.
pub fn write_steps(fabric: Fabric, source: u16, tag: u32, memory: &mut [u8])
    requires { (source < size fabric.n) × (fabric.n ≤ length memory.old) }
    ensures { memory.new ≡ steps_of fabric.n source tag ++ drop fabric.n memory.old }
{
    let mut j = source;
    for i in 0..fabric.n {
        let code = step_of(fabric, tag, i, j);
        memory[i as usize] = code;
        j = fabric.landing(i, code, j);
    }
}

// docs/RULES.md, 'Entries', tag to steps: 1, 10, 12, 13.
pub fn tag_to_steps(n: u8, source: u16, tag: u32, memory: &mut [u8]) -> Result<(), Refusal>
    ensures { TagToSteps n source tag memory.old result memory.new }
{
    let fabric = Fabric::try_from(n)?;
    if fabric.outside_labels(source) {
        return Err(Refusal::Label);
    }
    if outside_tags(fabric, tag) {
        return Err(Refusal::Tag);
    }
    if memory.len() < n as usize {
        return Err(Refusal::Room);
    }
    write_steps(fabric, source, tag, memory);
    Ok(())
}
