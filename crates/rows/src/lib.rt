// The rows of the driver's page, from the words in which what ended is kept (02, CR 8).
// The page itself is the door's; where what stands in the words `memory` knows.
#![tactic(auto)]

ghost use Rattle.std.specs.Prelude.{◌≡◌, ◌<◌};
ghost use Rattle.rows.specs.Rows.{rows, row_in, row_at, sixteen, page_number};

use rules::{Past, Refusal};

// How many rows the page has.
pub const ROWS: usize = memory::PAST_PLACES;

// A row has 32-bit numbers.
const U32: u64 = 4294967296;

// One that ended: kept is 1, or 0 in a row that is unused, whose numbers are all 0. A flag and no Option: it is C's struct, which
// splicer_7_ended fills.
#[repr(C)]
#[derive(Clone, Copy, Default)]
pub struct Row {
    pub kept: u32,
    pub connection: u32,
    pub session: u32,
    pub event: u32,
    pub result: u32,
    pub played: u32,
}

// The row of one that ended, or of a place that keeps none.
impl From<Past> for Row {
    ghost from_gives = { λ x r. r ≡ row_in x };

    #[tactic(auto, unfolding(crate::specs::Rows::row_in))]
    fn from(x: Past) -> Row {
        if x.result == 0 {
            return Row::default();
        }
        Row {
            kept: 1,
            connection: (x.conn % U32) as u32,
            session: (x.id % U32) as u32,
            event: (x.event % U32) as u32,
            result: (x.result % U32) as u32,
            played: (x.played % U32) as u32,
        }
    }
}

// The row i, the newest being 0.
pub fn row_at(e: &[u64], i: usize) -> Row
    requires { i < rows }
    ensures { result ≡ row_at e.now i }
{
    Row::from(memory::ended_at(e, i))
}

// How many rows are filled: all of sixteen, or none.
pub fn to_fill(n: usize) -> usize
    ensures { result ≡ sixteen n }
{
    if n == ROWS { ROWS } else { 0 }
}

// What the page answers: 0, or the house number for other than sixteen rows.
#[tactic(auto, unfolding(crate::specs::Rows::page_number))]
pub fn page_number(n: usize) -> u64
    ensures { result ≡ page_number n }
{
    if n != ROWS {
        return u64::from(reply::house_number(Refusal::NotSixteen));
    }
    0
}
