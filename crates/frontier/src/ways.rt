// The two switches of each column that lie on ways from a source to a destination.
ghost use Rattle.std.specs.Prelude.{◌≡◌, ◌+◌, ◌%◌, ◌^◌, ◌<◌, ◌≤◌};
ghost use Rattle.fabric.specs.Labels.{size};
ghost use Rattle.fabric.specs.Links.{lands};
ghost use Rattle.frontier.specs.Columns.{Distance};

use fabric::Fabric;

// The two switches of a column by what they do there: the one whose bit is right goes straight, the other one forks.
#[derive(Clone, Copy)]
pub struct Column {
    pub straight: u16,
    pub fork: u16,
}

impl Column {
    ghost use Rattle.frontier.specs.Columns.{IsColumn};

    // The two switches of column i.
    fn between(fabric: Fabric, i: u8, source: u16, destination: u16) -> Column
        requires { (i ≤ 12) × (source < size fabric.n) }
        ensures { i ≤ fabric.n → IsColumn fabric.n source destination i result }
    {
        let distance = distance(source, destination);
        let high = above(fabric, i, source, distance);
        let low = below(fabric, i, high);
        if fabric::bit_of(i, distance) == 0 {
            Column {
                straight: high,
                fork: low,
            }
        } else {
            Column {
                straight: low,
                fork: high,
            }
        }
    }
}

// The two switches of each column, from column 0 to the last: those that go straight, and those that fork. Two arrays: they are filled as two vectors, and
// one array of columns was measured slower (docs/SPEED.md).
#[derive(Clone, Copy)]
pub struct Columns {
    pub straight: [u16; 13],
    pub fork: [u16; 13],
}

impl Columns {
    ghost use Rattle.frontier.specs.Columns.{column_at, ColumnsOf};

    pub fn between(fabric: Fabric, source: u16, destination: u16) -> Columns
        requires { source < size fabric.n }
        ensures { ColumnsOf fabric.n source destination result }
    {
        let mut straight = [0; 13];
        let mut fork = [0; 13];
        for i in 0..13u8 {
            let column = Column::between(fabric, i, source, destination);
            straight[i as usize] = column.straight;
            fork[i as usize] = column.fork;
        }
        Columns { straight, fork }
    }

    // The two switches of column i.
    pub fn at(&self, i: u8) -> Column
        requires { i ≤ 12 }
        ensures { result ≡ column_at self.now i }
    {
        Column {
            straight: self.straight[i as usize],
            fork: self.fork[i as usize],
        }
    }
}

// How far the destination lies above the source, modulo 65,536. N divides that, so its low n bits are the distance modulo N.
pub fn distance(source: u16, destination: u16) -> u16
    ensures { Distance source destination result }
{
    destination.wrapping_sub(source)
}

// The high switch of column i, above the source by the low i bits of the distance.
fn above(fabric: Fabric, i: u8, source: u16, distance: u16) -> u16
    requires { i ≤ 12 }
    ensures { result ≡ (source + distance % 2 ^ i) % 2 ^ fabric.n }
{
    source.wrapping_add(distance % fabric::stride(i)) % fabric.size()
}

// The low one, 2^i below it.
fn below(fabric: Fabric, i: u8, high: u16) -> u16
    requires { i ≤ 12 }
    ensures { i ≤ fabric.n → result ≡ lands fabric.n i 2 high }
{
    high.wrapping_sub(fabric::stride(i)) % fabric.size()
}
