// What comes with an accepted call, as one number (`value_of`): a byte for each value but the last.
ghost use Rattle.std.specs.Prelude.{◌≡◌, List, [], ℕ, ◌<◌, ◌^◌};
ghost use Rattle.table.specs.Reply.{alone};
ghost use Rattle.questions.specs.Entries.{link_value};
ghost use Rattle.packing.specs.Packed.{value_of};
ghost use Rattle.packer.specs.Headers.{header_values};

use crate::BYTE;
use sheet::Header;

pub trait Values: Drop {
    ghost values: { Self → List ℕ };

    // Where there is room for them above the low byte; of most types there always is.
    ghost fits: { Self → Type 0 };

    fn value(self) -> u64
        requires { fits self }
        ensures same { result ≡ value_of (values self) }
        ensures small { result < 2 ^ 56 };
}

// An answer without a value.
impl Values for () {
    ghost values = { λ _. [] };

    ghost fits = { λ _. Unit };

    fn value(self) -> u64 {
        0
    }
}

// How many bytes.
impl Values for u16 {
    ghost values = { alone };

    ghost fits = { λ _. Unit };

    fn value(self) -> u64 {
        u64::from(self)
    }
}

// A tag.
impl Values for u32 {
    ghost values = { alone };

    ghost fits = { λ _. Unit };

    fn value(self) -> u64 {
        u64::from(self)
    }
}

// How many notices, or how many bytes: a type of 64 bits, of which the low 56 cross.
impl Values for usize {
    ghost values = { alone };

    ghost fits = { λ x. x < 2 ^ 56 };

    fn value(self) -> u64 {
        self as u64
    }
}

// The number of the notice that stops a link; 0 where it is clear.
impl Values for Option<u16> {
    ghost values = { link_value };

    ghost fits = { λ _. Unit };

    fn value(self) -> u64 {
        u64::from(self.unwrap_or(0))
    }
}

// n in the low byte, the count from bit 8 on, the version from bit 24 on.
// One number, put together by hand: the C interface has it so.
impl Values for Header {
    ghost values = { header_values };

    ghost fits = { λ _. Unit };

    fn value(self) -> u64 {
        u64::from(self.n)
            + BYTE * u64::from(self.count)
            + BYTE * BYTE * BYTE * u64::from(self.version)
    }
}
