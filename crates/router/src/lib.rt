// docs/RULES.md, 'Entries', 'Routes' and 'Classes': the first clear path over the links that counted notices of a book stop, or the stage that no clear walk
// can cross and which counted notice stops the ways onward there.
#![tactic(auto)]

ghost use Rattle.std.specs.Prelude.{◌≡◌, ◌≤◌, ◌<◌, [], All, find, option_map};
ghost use Rattle.notices.specs.Notices.{unfit};
ghost use Rattle.notices.specs.Classes.{counts};
ghost use Rattle.standing.specs.Picked.{those};
ghost use Rattle.standing.specs.Rising.{Filed};
ghost use Rattle.routes.specs.Routed.{Routes};
ghost use Rattle.named_links.specs.Named.{Ways};
ghost use Rattle.router.specs.Told.{Told, counted_stops_one_of};

use book::{Book, SoundBook};
use crossing::{Stuck, cross};
use fabric::Fabric;
use frontier::{Columns, Stops};
use named_links::{named_at, with_notice};
use notices::Notice;
use routes::NoRoute;
use table::Refusal;

// "Route (book, source, destination, choice): 16, 10, 5, 11."
pub fn route(book: Book, source: u16, destination: u16, choice: u8) -> Result<u32, NoRoute>
    ensures { Routes book source destination choice result }
{
    if book.unsound() {
        return Err(NoRoute::Refused(Refusal::Book));
    }
    routed(&SoundBook { book }, source, destination, choice)
}

// A route over a book that 16 does not refuse: 10, 5, and then the first clear path over the links that the counted notices stop, or 11 with the stage and
// the lowest number of a counted notice that stops a way onward there.
pub fn routed(book: &SoundBook, source: u16, destination: u16, choice: u8) -> Result<u32, NoRoute>
    ensures { Routes book.now.book source destination choice result }
{
    let fabric = book.fabric();
    if fabric.outside_labels(source) || fabric.outside_labels(destination) {
        return Err(NoRoute::Refused(Refusal::Label));
    }
    if targets::bad_class(choice) {
        return Err(NoRoute::Refused(Refusal::Field));
    }
    let columns = Columns::between(fabric, source, destination);
    let stops = stopped(fabric, choice, &columns, book.notices());
    match cross(fabric, source, destination, stops) {
        Ok(tag) => Ok(tag),
        Err(stuck) => {
            let named = first_stopping(fabric, choice, &columns, stuck, book.notices());
            Err(NoRoute::NoClearPath {
                stage: stuck.stage,
                number: named.unwrap_or(0),
            })
        }
    }
}

// The links on ways that counted notices stop.
#[tactic(auto, using(crate::proofs::Telling::fit_at, crate::proofs::Telling::class_at))]
fn stopped(fabric: Fabric, choice: u8, columns: &Columns, notices: &[Notice]) -> Stops
    requires { (choice ≤ 1) × Ways fabric.n columns.now × Filed (unfit fabric.n) 0 notices.now }
    ensures { Told fabric.n columns.now (those (counts choice) notices.now) [] result }
{
    let mut stops = Stops::none();
    for x in notices {
        if targets::counts(choice, *x) {
            stops = with_notice(fabric, columns, *x, stops);
        }
    }
    stops
}

// The number of the first of these notices that is counted and stops one of a stage's ways onward. They stand by rising number, so it is the lowest.
fn first_stopping(
    fabric: Fabric,
    choice: u8,
    columns: &Columns,
    stuck: Stuck,
    notices: &[Notice],
) -> Option<u16>
    requires { (choice ≤ 1) × (stuck.stage < fabric.n) × Ways fabric.n columns.now × All (λ x. x.class ≤ 1) notices.now }
    ensures { result ≡ option_map (λ x. x.number) (find (counted_stops_one_of choice fabric.n columns.now stuck.stage stuck.ways) notices.now) }
{
    notices
        .iter()
        .find(|x| stops_onward(fabric, choice, columns, stuck, **x))
        .map(|x| x.number)
}

// Whether a notice is counted and stops one of a stage's ways onward.
fn stops_onward(fabric: Fabric, choice: u8, columns: &Columns, stuck: Stuck, x: Notice) -> bool
    requires { (choice ≤ 1) × (stuck.stage < fabric.n) × Ways fabric.n columns.now × (x.class ≤ 1) }
    ensures { result ≡ counted_stops_one_of choice fabric.n columns.now stuck.stage stuck.ways x }
{
    let named = named_at(fabric, stuck.stage, columns.at(stuck.stage), x);
    targets::counts(choice, x) && frontier::in_common(named, stuck.ways)
}
