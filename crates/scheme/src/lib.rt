// docs/RULES.md, 'Tags and steps': the two-bit scheme. What a tag is, and the table of links, forward and backward.
#![tactic(auto)]

ghost use Rattle.std.specs.Prelude.{◌≡◌, false, ◌+◌, ◌*◌, ◌^◌, ◌≤◌, ◌<◌};
ghost use Rattle.table.specs.Checks.{◌not_below◌};
ghost use Rattle.fabric.specs.Labels.{size, bit};
ghost use Rattle.scheme.specs.Scheme.{link, state_for};
ghost use Rattle.scheme.specs.Tags.{tags, state};

use fabric::Fabric;

// Whether a number is no tag of a fabric of n stages.
pub fn outside_tags(fabric: Fabric, tag: u32) -> bool
    ensures { (result ≡ (tag not_below tags fabric.n)) × (result ≡ false → tag < tags fabric.n) }
{
    tag_count(fabric) <= tag
}

// How many tags there are.
fn tag_count(fabric: Fabric) -> u32
    ensures { result ≡ tags fabric.n }
{
    1u32 << (2 * fabric.n)
}

// Bits, codes and states stay numbers here: a tag is made of them.

// The link that a switch with bit b uses for a destination bit and a state: straight where b is right; otherwise plus
// where b is the state, and minus where it is not.
fn link_for(b: u8, t: u8, state: u8) -> u8
    requires { (b < 2) × (t < 2) × (state < 2) }
    ensures { (result ≡ link b t state) × (result < 3) }
{
    if b == t {
        0
    } else if b == state {
        1
    } else {
        2
    }
}

// The state for which a switch with bit b uses the link of a code; 0 for straight.
pub fn state_for(b: u8, code: u8) -> u8
    requires { b < 2 }
    ensures { (result ≡ state_for b code) × (result < 2) }
{
    match code {
        0 => 0,
        1 => b,
        _ => 1 - b,
    }
}

// The code of the link that a tag makes switch j use at stage i.
pub fn step_of(fabric: Fabric, tag: u32, i: u8, j: u16) -> u8
    requires { i < fabric.n }
    ensures { (result ≡ link (bit i j) (bit i tag) (state fabric.n tag i)) × (result < 3) }
{
    link_for(
        fabric::bit_of(i, j),
        fabric::bit_of(i, tag),
        fabric::bit_of(fabric.n + i, tag),
    )
}

// A state as bit i of a number.
pub fn state_bit(state: u8, i: u8) -> u32
    requires { (state < 2) × (i < 12) }
    ensures { result ≡ state * 2 ^ i }
{
    u32::from(state) << i
}

// The tag of a destination and a number that holds the states.
pub fn tag_of(fabric: Fabric, destination: u16, states: u32) -> u32
    requires { (destination < size fabric.n) × (states < size fabric.n) }
    ensures { result ≡ destination + size fabric.n * states }
{
    u32::from(destination) + (states << fabric.n)
}
