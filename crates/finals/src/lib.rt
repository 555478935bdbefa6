// docs/RULES.md, 'Writing a book', for the desk: the sheet of the final book of a sheet. Why none is written, by what was read.
#![tactic(auto)]

ghost use Rattle.std.specs.Prelude.{◌≡◌};
ghost use Rattle.finals.specs.declared.NoSheet.{NoSheet};

use table::Refusal;

// Why there is no sheet: the header is refused, or the input could not be read.
#[derive(Clone, Copy, Debug, PartialEq, Eq)]
pub enum NoSheet {
    Refused(Refusal),
    Unread,
}

impl From<Refusal> for NoSheet {
    ghost from_gives = { λ why e. e ≡ NoSheet.Refused why };

    fn from(why: Refusal) -> NoSheet {
        NoSheet::Refused(why)
    }
}
