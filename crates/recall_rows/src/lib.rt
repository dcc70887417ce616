// Verdicts in rows of lent words, and the few scans that look through them.
// The words are the caller's, of the C interface, and there is no heap: so a verdict is a row of them, and is named by its place.
#![tactic(auto)]

ghost use Rattle.std.specs.Prelude.{◌≡◌, ◌+◌, ◌*◌, ◌/◌, ◌≤◌, ◌<◌, length, get_or, set, IfSome};
ghost use Rattle.rules.specs.Lists.{count};
ghost use Rattle.recall_rules.specs.Verdicts.{none, standing, stands, which};
ghost use Rattle.recall_rows.specs.Rows.{width, phase_of, code_of, nth_of, result_of, all};
ghost use Rattle.recall_rows.specs.Scans.{stand_test, session_test, order_stand, order_test, place_in, or_length, first_in, is_better};

use recall_rules::{Phase, Verdict};
use rules::{Ninths, Session};

// What a scan looks for is data and no closure: with a closure each contract here and in recall_ends would need a ghost function beside it,
// which `stand_test`, `session_test` and `order_test` make of the data.

// How those stand that a scan looks through: `stand_test` of specs/ gives each its test.
#[derive(Clone, Copy)]
pub enum Stand {
    Waiting,
    Started,
    Held,
    Ended,
}

// Which of them it looks for: `session_test` gives each its test.
#[derive(Clone, Copy)]
pub enum Test {
    Any,
    Of(u64),
    Is(u64, u64),
    Follows(u64, u64),
    StartsAt(u64),
    StartsAfter(u64),
    EndsAt(u64),
    Unranked(u64, u64),
}

// In which order: of the started from the highest AccessType down, of the waiting by start, of the started by end.
#[derive(Clone, Copy)]
pub enum Order {
    Highest,
    Earliest,
    Ending,
}

// The words of a row, and which of them is which part.
pub const WIDTH: usize = 13;

const PHASE: usize = 0;

const NTH: usize = 1;

const RESULT: usize = 2;

const CONN: usize = 3;

const ID: usize = 4;

const PRIOR: usize = 5;

const START: usize = 6;

const END: usize = 7;

const ACCESS: usize = 8;

const OVERRIDES: usize = 9;

const MUX: usize = 10;

const EVENT: usize = 11;

const PLAYED: usize = 12;

// How many rows the words have.
pub fn rows_in(m: &[u64]) -> usize
    ensures { result ≡ length m.now / width }
{
    m.len() / WIDTH
}

// The phase that three words say.
// No From: Phase is of recall_rules, and a tuple is nobody's.
fn phase_of(code: u64, nth: u64, res: u64) -> Phase
    ensures { result ≡ phase_of code nth res }
{
    match code {
        1 => Phase::Waits,
        2 => Phase::Started,
        3 => Phase::Ended(nth, res),
        _ => Phase::Out,
    }
}

// How the session of row i stands.
fn phase_at(m: &[u64], i: usize) -> Phase
    requires { i < length m.now / width }
    ensures { result ≡ (get_or (all m.now) i none).phase }
{
    let b = i * WIDTH;
    phase_of(m[b + PHASE], m[b + NTH], m[b + RESULT])
}

// The verdict of row i.
pub fn load(m: &[u64], i: usize) -> Verdict
    requires { i < length m.now / width }
    ensures { result ≡ get_or (all m.now) i none }
{
    let b = i * WIDTH;
    let phase = phase_at(m, i);
    let session = Session {
        conn: m[b + CONN],
        id: m[b + ID],
        prior: m[b + PRIOR],
        start: Ninths(m[b + START]),
        end: Ninths(m[b + END]),
        access: m[b + ACCESS],
        overrides: m[b + OVERRIDES],
        mux: m[b + MUX],
        event: m[b + EVENT],
        played: Ninths(m[b + PLAYED]),
    };
    Verdict { phase, session }
}

// The words that say a phase: its code, the number of its end and the result.
fn words_of(phase: Phase) -> (u64, u64, u64)
    ensures { result ≡ (code_of phase, nth_of phase, result_of phase) }
{
    match phase {
        Phase::Out => (0, 0, 0),
        Phase::Waits => (1, 0, 0),
        Phase::Started => (2, 0, 0),
        Phase::Ended(nth, result) => (3, nth, result),
    }
}

// v as the verdict of row i.
pub fn store(m: &mut [u64], i: usize, v: Verdict)
    requires { i < length m.old / width }
    ensures { all m.new ≡ set (all m.old) i v }
{
    let (code, nth, result) = words_of(v.phase);
    let x = v.session;
    let b = i * WIDTH;
    m[b + PHASE] = code;
    m[b + NTH] = nth;
    m[b + RESULT] = result;
    m[b + CONN] = x.conn;
    m[b + ID] = x.id;
    m[b + PRIOR] = x.prior;
    m[b + START] = x.start.0;
    m[b + END] = x.end.0;
    m[b + ACCESS] = x.access;
    m[b + OVERRIDES] = x.overrides;
    m[b + MUX] = x.mux;
    m[b + EVENT] = x.event;
    m[b + PLAYED] = x.played.0;
}

// ---- Scans

// Whether a phase is one of those.
fn does_stand(phase: Phase, stand: Stand) -> bool
    ensures { result ≡ stand_test stand phase }
{
    match stand {
        Stand::Waiting => matches!(phase, Phase::Waits),
        Stand::Started => matches!(phase, Phase::Started),
        Stand::Held => matches!(phase, Phase::Waits | Phase::Started),
        Stand::Ended => matches!(phase, Phase::Ended(_, _)),
    }
}

// Whether a session passes the test.
fn does_pass(x: Session, test: Test) -> bool
    ensures { result ≡ session_test test x }
{
    match test {
        Test::Any => true,
        Test::Of(conn) => conn == x.conn,
        Test::Is(conn, id) => conn == x.conn && id == x.id,
        Test::Follows(conn, id) => conn == x.conn && id == x.prior,
        Test::StartsAt(t) => t == x.start.0,
        Test::StartsAfter(t) => t < x.start.0,
        Test::EndsAt(t) => t == x.end.0,
        Test::Unranked(t, rank) => t == x.start.0 && rank <= x.access,
    }
}

// Whether the verdict of row i stands so, and its session passes the test.
fn is_one(m: &[u64], i: usize, stand: Stand, test: Test) -> bool
    requires { i < length m.now / width }
    ensures { result ≡ stands (stand_test stand) (session_test test) (get_or (all m.now) i none) }
{
    does_stand(phase_at(m, i), stand) && does_pass(load(m, i).session, test)
}

// The first row that stands so and passes the test.
pub fn find(m: &[u64], stand: Stand, test: Test) -> Option<usize>
    ensures first { result ≡ place_in (all m.now) (which (stand_test stand) (session_test test) (all m.now)) }
    ensures in_bounds { IfSome result (λ i. i < length m.now / width) }
{
    for i in 0..rows_in(m) {
        if is_one(m, i, stand, test) {
            return Some(i);
        }
    }
    None
}

// How many stand so and pass the test.
pub fn count(m: &[u64], stand: Stand, test: Test) -> usize
    ensures { result ≡ count (session_test test) (standing (stand_test stand) (all m.now)) }
{
    let mut found = 0;
    for i in 0..rows_in(m) {
        if is_one(m, i, stand, test) {
            found += 1;
        }
    }
    found
}

// How those stand that an order looks through.
fn stand_of(order: Order) -> Stand
    ensures { stand_test result ≡ order_stand order }
{
    match order {
        Order::Earliest => Stand::Waiting,
        Order::Highest | Order::Ending => Stand::Started,
    }
}

// Whether x comes before y.
// No Ord: of a session there are three orders.
fn comes_before(x: Session, y: Session, order: Order) -> bool
    ensures { result ≡ order_test order x y }
{
    match order {
        Order::Highest => y.access < x.access,
        Order::Earliest => x.start.0 < y.start.0,
        Order::Ending => x.end.0 < y.end.0,
    }
}

// Whether the verdict of row i is one, and comes before the best so far, if there is any.
fn is_better(m: &[u64], i: usize, best: Option<usize>, order: Order, test: Test) -> bool
    requires i_in_bounds { i < length m.now / width }
    requires best_in_bounds { IfSome best (λ b. b < length m.now / width) }
    ensures { result ≡ is_better order test (all m.now) i (or_length (all m.now) best) }
{
    is_one(m, i, stand_of(order), test)
        && match best {
            Some(b) => comes_before(load(m, i).session, load(m, b).session, order),
            None => true,
        }
}

// Of those that stand so and pass the test, the first that none comes before.
pub fn first_of(m: &[u64], order: Order, test: Test) -> Option<usize>
    ensures first { result ≡ place_in (all m.now) (first_in order test (all m.now)) }
    ensures in_bounds { IfSome result (λ i. i < length m.now / width) }
{
    let mut best = None;
    for i in 0..rows_in(m) {
        if is_better(m, i, best, order, test) {
            best = Some(i);
        }
    }
    best
}
