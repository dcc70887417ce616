// A Splice_Request's checks b to e, and the session that it asks for.
#![tactic(auto)]

ghost use Rattle.std.specs.Prelude.{◌≡◌, ◌||◌, eqb, ◌+◌, ◌^◌, ◌≤◌, ◌<◌, Some, sum_by};
ghost use Rattle.rules.specs.Lists.{some, place};
ghost use Rattle.rules.specs.State.{starts_at, holds};
ghost use Rattle.rules.specs.Follows.Wires.{Sorted};
ghost use Rattle.rules.specs.Instants.{outranks};
ghost use Rattle.rules.specs.Splicing.{prior_of, session_at, too_late, collides, raised, full, splice_result};
ghost use Rattle.rules.specs.Request.{nobody};
ghost use Rattle.rules.specs.Units.{horizon};
ghost use Rattle.rules.specs.Follows.Sound.{Holding};
ghost use Rattle.rules.specs.Follows.Asked.{Within};
ghost use Rattle.places.specs.Places.{starts_from};
ghost use Rattle.memory.specs.Memory.{Form, see};
ghost use Rattle.checks.specs.Found.{where_in, end_in, start_in};

use memory::Which;
use places::Key;
use rules::{Ninths, Request, Session, Start};

// c. "Less than 3 s".
const NOTICE: u32 = 3;

// e. "This connection has 20 waiting; or it has 10 or more and the four counts, each raised to 10 if lower, sum to 64."
const MOST_OF_ONE: u64 = 20;

const OWN: u64 = 10;

const MOST: u64 = 64;

// Where a session is held: the place of a list.
#[derive(Clone, Copy)]
pub struct Place {
    pub which: Which,
    pub at: usize,
}

// Where a start falls among those that wait: the place of the first that starts then or later, and whether that one starts then. Not an
// Option: the place counts either way.
#[derive(Clone, Copy)]
pub struct Spot {
    pub at: usize,
    pub taken: bool,
}

// Where the connection's session of that number is, if it holds one.
pub fn where_held(m: &[u64], conn: u64, id: u64) -> Option<Place>
    requires { Form m.now }
    ensures { result ≡ where_in conn id (see m.now).queue }
{
    let i = memory::find(m, Which::Waiting, Key::Held(conn, id));
    if i < memory::count(m, Which::Waiting) {
        return Some(Place {
            which: Which::Waiting,
            at: i,
        });
    }
    let j = memory::find(m, Which::Started, Key::Held(conn, id));
    if j < memory::count(m, Which::Started) {
        return Some(Place {
            which: Which::Started,
            at: j,
        });
    }
    None
}

// Whether the connection holds the number.
#[tactic(auto, using(crate::proofs::Laws::held_some))]
fn is_held(m: &[u64], conn: u64, id: u64) -> bool
    requires { Form m.now }
    ensures { result ≡ holds conn id (see m.now).queue }
{
    where_held(m, conn, id).is_some()
}

// The end of the connection's session of that number, if it holds one.
fn end_of(m: &[u64], conn: u64, id: u64) -> Option<Ninths>
    requires { Form m.now }
    ensures { result ≡ end_in conn id (see m.now).queue }
{
    let place = where_held(m, conn, id)?;
    let x = memory::load(m, place.which, place.at);
    Some(x.end)
}

// A timed start is the request's time; a linked start is the prior session's end, if the connection holds it.
#[tactic(auto, unfolding(crate::specs::Found::start_in))]
pub fn start_of(m: &[u64], conn: u64, start: Start) -> Option<Ninths>
    requires form { Form m.now }
    requires within { Within start }
    ensures { result ≡ start_in conn start (see m.now).queue }
{
    match start {
        Start::Timed(t) => Some(units::from_micros(t)),
        Start::Linked(p) => end_of(m, conn, p as u64),
    }
}

// The PriorSession: 0xFFFFFFFF if timed.
// No From: Start is of rules.
fn prior_of(start: Start) -> u64
    ensures { result ≡ prior_of start }
{
    match start {
        Start::Timed(_) => 0xFFFFFFFF,
        Start::Linked(p) => p as u64,
    }
}

// The session that a request asks for: the one place where a session is made.
pub fn session_at(t: Ninths, conn: u64, r: Request) -> Session
    requires { t.0 + 429496729600 < 18446744073709551616 }
    ensures { result ≡ session_at t.0 conn r }
{
    let prior = prior_of(r.start);
    let d = units::from_ticks(r.duration);
    Session {
        conn,
        id: r.id as u64,
        prior,
        start: t,
        end: Ninths(t.0 + d.0),
        access: r.access as u64,
        overrides: r.overrides as u64,
        mux: r.mux as u64,
        event: r.event as u64,
        played: Ninths(0),
    }
}

// b. A number that no session has, or that the connection holds already; its prior, if it names one, is held.
fn is_wrong_number(m: &[u64], conn: u64, id: u64) -> bool
    requires { Form m.now }
    ensures { result ≡ (eqb id nobody || holds conn id (see m.now).queue) }
{
    id == 0xFFFFFFFF || is_held(m, conn, id)
}

// c. Timed, and the start is less than 3 s after the clock.
#[tactic(auto, unfolding(rules::specs::Splicing::too_late))]
fn is_too_late(clock: Ninths, start: Start) -> bool
    requires clock_lt_horizon { clock.0 < horizon }
    requires within { Within start }
    ensures { result ≡ too_late clock.0 start }
{
    match start {
        Start::Timed(t) => {
            let soon = units::from_micros(units::time_of(NOTICE, 0));
            let s = units::from_micros(t);
            s.0 < clock.0 + soon.0
        }
        Start::Linked(_) => false,
    }
}

// A count, raised to 10 if lower.
fn raise(n: u64) -> u64
    ensures { result ≡ raised n }
{
    n.max(OWN)
}

// The four counts, each raised to 10 if lower.
fn raised_sum(t: [u64; 4]) -> u64
    requires { sum_by raised t < 2 ^ 64 }
    ensures { result ≡ sum_by raised t }
{
    t.iter().map(|n| raise(*n)).sum()
}

// e. Whether the connection's queue is full.
fn is_full(m: &[u64], conn: u64) -> bool
    requires form { Form m.now }
    requires conn_bound { conn ≤ 3 }
    ensures { result ≡ full conn (see m.now).queue.waiting }
{
    let t = memory::tally(m);
    let c = conn as usize;
    let n = t[c];
    if n == MOST_OF_ONE {
        return true;
    }
    if n < OWN {
        return false;
    }
    raised_sum(t) == MOST
}

// Whether one that waits starts at t. `at` is the place of the first from t on: no two that wait start together, so it decides.
pub fn is_taken(m: &[u64], t: Ninths, at: usize) -> bool
    requires form { Form m.now }
    requires sorted { Sorted (see m.now).queue.waiting }
    requires at_value { at ≡ place (starts_from t.0) (see m.now).queue.waiting }
    ensures { result ≡ some (starts_at t.0) (see m.now).queue.waiting }
{
    at < memory::count(m, Which::Waiting) && t.0 == memory::load(m, Which::Waiting, at).start.0
}

// Where the start t falls.
pub fn spot_of(m: &[u64], t: Ninths) -> Spot
    requires form { Form m.now }
    requires sorted { Sorted (see m.now).queue.waiting }
    ensures at { result.at ≡ place (starts_from t.0) (see m.now).queue.waiting }
    ensures taken { result.taken ≡ some (starts_at t.0) (see m.now).queue.waiting }
{
    let at = memory::find_start(m, t);
    let taken = is_taken(m, t, at);
    Spot { at, taken }
}

// d, f and the start itself: whether a new session outranks an old one: a higher one does, and with the flag at 1 an equal one.
pub fn outranks(new: Session, old: Session) -> bool
    ensures { result ≡ outranks new old }
{
    old.access < new.access || old.access - new.access < new.overrides
}

// d. Whether a waiting session has the same start and is not outranked. spot: where the start falls.
fn does_collide(m: &[u64], new: Session, spot: Spot) -> bool
    requires form { Form m.now }
    requires sorted { Sorted (see m.now).queue.waiting }
    requires at_value { spot.at ≡ place (starts_from new.start.0) (see m.now).queue.waiting }
    requires taken_value { spot.taken ≡ some (starts_at new.start.0) (see m.now).queue.waiting }
    ensures { result ≡ collides new (see m.now).queue.waiting }
{
    spot.taken && !outranks(new, memory::load(m, Which::Waiting, spot.at))
}

// The first of b to f that applies to a request whose start is known. new: the session that it asks for; spot: where its
// start falls. The results stay numbers, which the documents give them and the wire has.
pub fn splice_result(m: &[u64], conn: u64, r: Request, new: Session, spot: Spot) -> u16
    requires form { Form m.now }
    requires holding { Holding (see m.now).clock (see m.now).queue }
    requires m_bound { (see m.now).clock < horizon }
    requires conn_bound { conn ≤ 3 }
    requires within { Within r.start }
    requires m_value { start_in conn r.start (see m.now).queue ≡ Some new.start }
    requires at_value { spot.at ≡ place (starts_from new.start.0) (see m.now).queue.waiting }
    requires taken_value { spot.taken ≡ some (starts_at new.start.0) (see m.now).queue.waiting }
    ensures { result ≡ splice_result (see m.now).clock conn r new (see m.now).queue }
{
    if is_wrong_number(m, conn, r.id as u64) {
        return 121;
    }
    if is_too_late(memory::clock(m), r.start) {
        return 112;
    }
    if does_collide(m, new, spot) {
        return 109;
    }
    if is_full(m, conn) {
        return 114;
    }
    100
}
