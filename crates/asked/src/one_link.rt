// docs/RULES.md, 'Fabric': a link that is asked about, and whether a notice names it.
ghost use Rattle.std.specs.Prelude.{◌≡◌, ◌<◌};
ghost use Rattle.fabric.specs.Links.{lands};

use fabric::Fabric;
use notices::Notice;

// The link of a code that leaves a switch at a stage, in a fabric, and the switch on which it lands, which is computed once for all notices.
#[derive(Clone, Copy)]
pub struct OneLink {
    pub fabric: Fabric,
    pub stage: u8,
    pub switch: u16,
    pub code: u8,
    pub end: u16,
    pub ghost inside: { (stage < 12) × (code < 3) },
    pub ghost ends: { end ≡ lands fabric.n stage code switch },
}

impl OneLink {
    ghost use Rattle.notices.specs.Notices.{names};
    ghost use Rattle.asked.specs.Lower.{first_number};

    // Whether a notice names it.
    fn named_by(&self, x: &Notice) -> bool
        ensures { result ≡ names self.now.fabric.n x.now self.now.stage self.now.switch self.now.code }
    {
        targets::names(*x, self.stage, self.switch, self.code, self.end)
    }

    // The number of the first of these notices that names it.
    pub fn first_number(&self, notices: &[Notice]) -> Option<u16>
        ensures { result ≡ first_number (λ x. names self.now.fabric.n x self.now.stage self.now.switch self.now.code) notices.now }
    {
        notices.iter().find(|x| self.named_by(x)).map(|x| x.number)
    }
}
