// Memory that a caller lends: laying bytes at a place of it.
#![tactic(auto)]

ghost use Rattle.std.specs.Prelude.{◌≡◌, ◌+◌, ◌≤◌, length};
ghost use Rattle.std.proofs.Math.Seq.{paste};

// The bytes stand at their place afterwards, and all else is as it was.
// Room for these bytes at this place: a type would be made for one call.
pub fn lay(memory: &mut [u8], at: usize, bytes: &[u8])
    requires { at + length bytes.now ≤ length memory.old }
    ensures { memory.new ≡ paste memory.old at bytes.now (length bytes.now) }
{
    memory[at..at + bytes.len()].copy_from_slice(bytes);
}
