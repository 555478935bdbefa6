// docs/RULES.md, 'Entries', 'Writing a book' and 'Classes': notices as filing actions, of ten bytes or eleven.
ghost use Rattle.std.specs.Prelude.{◌≡◌, ◌*◌, ◌≤◌, ◌++◌, length, drop};
ghost use Rattle.actions.specs.Rows.{rows};

use notices::Notice;

// Lays the notices at the front of the memory, so many bytes each.
pub fn laid(notices: &[Notice], each: usize, memory: &mut [u8])
    requires { (each ≤ 11) × (each * length notices.now ≤ length memory.old) }
    ensures { memory.new ≡ rows each notices.now ++ drop (each * length notices.now) memory.old }
{
    let mut at = 0;
    for x in notices {
        let row = action_bytes::filing(*x);
        lent::lay(memory, at, &row[..each]);
        at += each;
    }
}
