// docs/RULES.md, 'The book': notices in the places of an array, by rising number, and what an unused place holds.
#![tactic(auto)]

mod rows; // rows.rt: the bytes of a listing, and of a sheet's filings

ghost use Rattle.std.specs.Prelude.{◌≡◌, Bool, true, [], ◌+◌, ◌-◌, ◌≤◌, ◌<◌, leb, length, take, drop, replicate, position};
ghost use Rattle.std.proofs.Math.Seq.{paste};
ghost use Rattle.notices.specs.Classes.{busy};
ghost use Rattle.standing.specs.Picked.{some};
ghost use Rattle.standing.specs.Rising.{filler, in_places, stands, insert, without, Filed};
ghost use Rattle.places.specs.Places.{place_of};

use notices::Notice;
pub use rows::laid;

// The places in which nothing stands.
#[tactic(auto, unfolding(standing::specs::Rising::in_places))]
pub fn unused() -> [Notice; 48]
    ensures { result ≡ in_places [] }
{
    [Notice::FILLER; 48]
}

// Whether one of the notices has the number k.
pub fn stands(notices: &[Notice], k: u16) -> bool
    ensures { result ≡ stands k notices.now }
{
    notices.iter().any(|x| x.number == k)
}

// Whether one of the notices is busy.
pub fn busy_stands(notices: &[Notice]) -> bool
    ensures { result ≡ some busy notices.now }
{
    notices.iter().any(|x| x.class == 1)
}

// Where the first notice is whose number is k or more. No search by halves: `insert` asks nothing of the notices' order, and so may not ask it now.
fn first_from(notices: &[Notice], k: u16) -> Option<usize>
    ensures { result ≡ position (λ x. leb k x.number) notices.now }
{
    notices.iter().position(|x| k <= x.number)
}

// How many of the notices come before the first whose number is k or more: all, where there is none.
fn place(notices: &[Notice], k: u16) -> usize
    ensures { (result ≡ place_of k notices.now) × (result ≤ length notices.now) × (stands k notices.now ≡ true → result < length notices.now) }
{
    first_from(notices, k).unwrap_or(notices.len())
}

// The places with `len` notices from `from` on laid from `to` on. A copy: to move them in their place would have a host give memmove too, and it is asked for memcpy
// and memset alone (include/tabashfar.h).
fn moved(notices: &[Notice; 48], from: usize, to: usize, len: usize) -> [Notice; 48]
    requires { (from + len ≤ 48) × (to + len ≤ 48) }
    ensures { result ≡ paste notices.now to (drop from notices.now) len }
{
    let mut out = *notices;
    out[to..to + len].copy_from_slice(&notices[from..from + len]);
    out
}

// Puts x at its place among the first `count` notices, which are not all in use. Array and count: fixed memory, no heap.
pub fn insert(notices: &mut [Notice; 48], count: usize, x: Notice)
    requires { (count < 48) × (drop count notices.old ≡ replicate (48 - count) filler) }
    ensures { notices.new ≡ in_places (insert x (take count notices.old)) }
{
    let p = place(&notices[..count], x.number);
    *notices = moved(notices, p, p + 1, count - p);
    notices[p] = x;
}

// Takes the notice of number k out, one of the first `count`.
pub fn remove(notices: &mut [Notice; 48], count: usize, k: u16)
    requires { (count ≤ 48) × (drop count notices.old ≡ replicate (48 - count) filler) × (stands k (take count notices.old) ≡ true) × ((bad : Notice → Bool) × Filed bad 0 (take count notices.old)) }
    ensures { notices.new ≡ in_places (without k (take count notices.old)) }
{
    let p = place(&notices[..count], k);
    *notices = moved(notices, p + 1, p, count - p - 1);
    notices[count - 1] = Notice::FILLER;
}
