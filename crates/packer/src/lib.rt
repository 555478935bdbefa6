// An answer as one number (`packed`): the table's number in the low byte, 0 where the call was accepted, and the value after it.
#![tactic(auto)]

mod values; // values.rt: what comes with an accepted call, as one number

ghost use Rattle.std.specs.Prelude.{◌≡◌, [], ◌∷◌, ◌*◌, ◌^◌, ◌<◌, IfOk};
ghost use Rattle.table.specs.Numbers.{number_of};
ghost use Rattle.table.specs.Reply.{says};
ghost use Rattle.walks.specs.Entries.{walk_says};
ghost use Rattle.routes.specs.Routed.{route_says};
ghost use Rattle.packing.specs.Packed.{byte, value_of, packed};

use routes::NoRoute;
use table::Refusal;
pub use values::Values;
use walks::NotClear;

// What fits a byte.
pub const BYTE: u64 = 256;

// A refusal that comes alone.
// One number, put together by hand: the C interface has it so.
pub fn refused(why: Refusal) -> u64
    ensures { result ≡ number_of why }
{
    u64::from(why.number())
}

// A value that comes with 0, the table's number of a call that was accepted.
// One number, put together by hand: the C interface has it so.
pub fn value(x: u64) -> u64
    requires { x < 2 ^ 56 }
    ensures { result ≡ byte * x }
{
    BYTE * x
}

// What an entry answers that is accepted with its values, or refused by a number alone.
#[tactic(auto, using(packing::proofs::Unpacking::accepted_packs))]
pub fn told<T: Values>(answer: Result<T, Refusal>) -> u64
    requires { IfOk answer T.fits }
    ensures { result ≡ packed (says T.values answer) }
{
    match answer {
        Ok(x) => value(x.value()),
        Err(why) => refused(why),
    }
}

// What comes with 11: the stage in the low byte, and the notice's number from bit 8 on.
// One number, put together by hand: the C interface has it so.
fn stopped_at(stage: u8, number: u16) -> u64
    ensures { (result ≡ value_of (stage ∷ number ∷ [])) × (result < 2 ^ 24) }
{
    u64::from(stage) + BYTE * u64::from(number)
}

// What a walk answers. 11 comes with two values and 17 is no refusal: a match reads plainer than a second trait, for what an error says.
pub fn ended(answer: Result<(), NotClear>) -> u64
    ensures { result ≡ packed (walk_says answer) }
{
    match answer {
        Ok(()) => 0,
        Err(NotClear::Stopped { stage, number }) => 11 + value(stopped_at(stage, number)),
        Err(NotClear::Astray) => 17,
        Err(NotClear::Refused(why)) => refused(why),
    }
}

// What a route answers. 11 comes with two values: a match, as above.
pub fn found(answer: Result<u32, NoRoute>) -> u64
    ensures { result ≡ packed (route_says answer) }
{
    match answer {
        Ok(tag) => value(u64::from(tag)),
        Err(NoRoute::NoClearPath { stage, number }) => 11 + value(stopped_at(stage, number)),
        Err(NoRoute::Refused(why)) => refused(why),
    }
}
