// docs/RULES.md, 'Entries', normal form.
ghost use Rattle.std.specs.Prelude.{◌≡◌, ◌≤◌, ◌<◌};
ghost use Rattle.fabric.specs.Labels.{size};
ghost use Rattle.scheme.specs.Tags.{steps_of, normal_tag};
ghost use Rattle.tags.specs.Entries.{NormalForm};

use crate::to_steps::write_steps;
use crate::to_tag::read_steps;
use fabric::Fabric;
use scheme::outside_tags;
use table::Refusal;

// The normal tag of a tag's steps.
fn normal_of(fabric: Fabric, source: u16, tag: u32) -> u32
    requires { source < size fabric.n }
    ensures { result ≡ normal_tag fabric.n source (steps_of fabric.n source tag) }
{
    let mut steps = [0u8; 12];
    write_steps(fabric, source, tag, &mut steps);
    read_steps(fabric, source, &steps)
}

// docs/RULES.md, 'Entries', normal form: 1, 10, 12.
pub fn normal_form(n: u8, source: u16, tag: u32) -> Result<u32, Refusal>
    ensures { NormalForm n source tag result }
{
    let fabric = Fabric::try_from(n)?;
    if fabric.outside_labels(source) {
        return Err(Refusal::Label);
    }
    if outside_tags(fabric, tag) {
        return Err(Refusal::Tag);
    }
    Ok(normal_of(fabric, source, tag))
}
