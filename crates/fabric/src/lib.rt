// docs/RULES.md, 'Fabric': the size of a fabric, its labels, and where a link lands.
#![tactic(auto)]

ghost use Rattle.std.specs.Prelude.{◌≡◌, ℕ, ◌+◌, ◌-◌, ◌*◌, ◌/◌, ◌%◌, ◌^◌, ◌<◌, ◌≤◌, true, false, eqb};
ghost use Rattle.table.specs.Checks.{◌not_below◌};
ghost use Rattle.fabric.specs.Labels.{size, bit, outside_sizes};
ghost use Rattle.fabric.specs.Links.{lands};

use table::Refusal;

// Whether n lies outside 1 to 12.
// Here the fact is found that `Fabric` carries.
pub fn outside_sizes(n: u8) -> bool
    ensures { (result ≡ outside_sizes n) × (result ≡ false → (1 ≤ n) × (n ≤ 12)) }
{
    n < 1 || 12 < n
}

// How far plus and minus lead at stage i.
pub fn stride(i: u8) -> u16
    requires { i ≤ 12 }
    ensures { result ≡ 2 ^ i }
{
    1u16 << i
}

// A fabric of n stages, 12 at most.
#[derive(Clone, Copy, Debug, PartialEq, Eq)]
pub struct Fabric {
    pub n: u8,
    pub ghost few: { n ≤ 12 },
}

impl TryFrom<u8> for Fabric {
    ghost use Rattle.fabric.specs.Sizes.{Sizes};

    type Error = Refusal;

    ghost try_from_gives = { Sizes };

    // "1: n is 0 or above 12"
    fn try_from(n: u8) -> Result<Fabric, Refusal> {
        if outside_sizes(n) {
            return Err(Refusal::Size);
        }
        Ok(Fabric { n })
    }
}

impl Fabric {
    // N, the number of labels.
    pub fn size(self) -> u16
        ensures { result ≡ size self.n }
    {
        1u16 << self.n
    }

    // Whether j is no label.
    pub fn outside_labels(self, j: u16) -> bool
        ensures { (result ≡ (j not_below size self.n)) × (result ≡ false → j < size self.n) }
    {
        self.size() <= j
    }

    // Where the link of a code lands that leaves switch j at stage i. A code stays a number here and above: steps are bytes of lent memory, and 12 judges one above 2
    // (docs/RULES.md, 'Numbers handed back').
    #[tactic(auto, using(crate::proofs::Wrapping::minus_lands_within))]
    pub fn landing(self, i: u8, code: u8, j: u16) -> u16
        requires { (i ≤ self.n) × (j < size self.n) }
        ensures { (result ≡ lands self.n i code j) × (result < size self.n) }
    {
        match code {
            0 => j,
            1 => j.wrapping_add(stride(i)) % self.size(),
            _ => j.wrapping_sub(stride(i)) % self.size(),
        }
    }
}

// Bit i of a number: of a label, of a tag, or of a set.
// A bit stays a number: it is added and shifted above.
pub fn bit_of<T: Into<u32>>(i: u8, x: T) -> u8
    requires { i < 32 }
    ensures { (k : ℕ) × T.converts x k × (result ≡ bit i k) × (result < 2) }
{
    let bits: u32 = x.into();
    ((bits >> i) % 2) as u8
}

// Whether a set of links has the link of a code. A set stays the bits of a byte: a notice's set is one, and 5 judges it (docs/RULES.md, 'Notices').
pub fn in_set(set: u8, code: u8) -> bool
    requires { code ≤ 12 }
    ensures { result ≡ eqb (bit code set) 1 }
{
    bit_of(code, set) == 1
}
