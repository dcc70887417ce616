// Checks b to f on verdicts in words, and the answers to a Splice_Request and an Abort_Request.
// Every row of the words is a verdict; the new session of an accepted request goes into a row behind them, which is the caller's to
// give. Results are numbers, as the documents name them and the wire has them.
#![tactic(auto)]

ghost use Rattle.std.specs.Prelude.{◌≡◌, ◌+◌, ◌<◌, Some};
ghost use Rattle.rules.specs.Splicing.{prior_of, session_at, too_late, raised, sum_of};
ghost use Rattle.rules.specs.Follows.Asked.{Within, Asked};
ghost use Rattle.rules.specs.Units.{horizon};
ghost use Rattle.rules.specs.State.{is};
ghost use Rattle.recall_rules.specs.Verdicts.{is_held, which, session_of};
ghost use Rattle.recall_rules.specs.Work.{holds, start_of, unknown_prior, wrong_number, collides, waits, full, splice_result, answer_abort};
ghost use Rattle.recall_ends.specs.Does.{all, Room, Does};
ghost use Rattle.recall_instants.specs.Moments.{Keeps};
ghost use Rattle.recall_requests.specs.Admits.{admitted, spliced, Few, Admits, Splices};

use recall_rows::{Stand, Test};
use rules::{Ninths, Request, Session, Start};

// What an answer gave: how far the output is written, 02's CR 11, the session that was asked for, and that session if it was accepted.
#[derive(Clone, Copy)]
pub struct Given {
    pub len: usize,
    pub moved: usize,
    pub new: Session,
    pub accepted: Option<Session>,
}

// Whether the connection holds the number.
fn is_held(m: &[u64], conn: u64, id: u64) -> bool
    ensures { result ≡ holds conn id (all m.now) }
{
    recall_rows::find(m, Stand::Held, Test::Is(conn, id)).is_some()
}

// The end of the connection's session of that number. Where it holds none, 0: check b refuses that.
// No Option: `start_of` of recall_rules' Work is a number, where none is held the end of an empty session.
fn end_of(m: &[u64], conn: u64, id: u64) -> Ninths
    ensures { result ≡ (session_of (all m.now) (which is_held (is conn id) (all m.now))).end }
{
    match recall_rows::find(m, Stand::Held, Test::Is(conn, id)) {
        Some(i) => recall_rows::load(m, i).session.end,
        None => Ninths(0),
    }
}

// "A timed start is the request's time; a linked start is the prior session's end."
// In the first engine too: the second engine has rules of its own (02, CR 12).
fn start_of(m: &[u64], conn: u64, start: Start) -> Ninths
    requires { Within start }
    ensures { result.0 ≡ start_of conn start (all m.now) }
{
    match start {
        Start::Timed(t) => units::from_micros(t),
        Start::Linked(p) => end_of(m, conn, p as u64),
    }
}

// The PriorSession: 0xFFFFFFFF if timed.
// In the first engine too: the second engine has rules of its own (02, CR 12).
// No From: Start is of rules.
fn prior_of(start: Start) -> u64
    ensures { result ≡ prior_of start }
{
    match start {
        Start::Timed(_) => 0xFFFFFFFF,
        Start::Linked(p) => p as u64,
    }
}

// The session that a request asks for, its start being t. "End is start plus Duration."
// In the first engine too: the second engine has rules of its own (02, CR 12).
fn session_at(t: Ninths, conn: u64, r: Request) -> Session
    requires { t.0 + 429496729600 < 18446744073709551616 }
    ensures { result ≡ session_at t.0 conn r }
{
    let d = units::from_ticks(r.duration);
    Session {
        conn,
        id: r.id as u64,
        prior: prior_of(r.start),
        start: t,
        end: Ninths(t.0 + d.0),
        access: r.access as u64,
        overrides: r.overrides as u64,
        mux: r.mux as u64,
        event: r.event as u64,
        played: Ninths(0),
    }
}

// b. "or PriorSession neither 0xFFFFFFFF nor held by it"
fn is_unknown_prior(m: &[u64], conn: u64, start: Start) -> bool
    ensures { result ≡ unknown_prior conn start (all m.now) }
{
    match start {
        Start::Timed(_) => false,
        Start::Linked(p) => !is_held(m, conn, p as u64),
    }
}

// b. "121: SessionID 0xFFFFFFFF or already held by this connection"
fn is_wrong_number(m: &[u64], conn: u64, r: Request) -> bool
    ensures { result ≡ wrong_number conn r (all m.now) }
{
    r.id == 0xFFFFFFFF || is_held(m, conn, r.id as u64) || is_unknown_prior(m, conn, r.start)
}

// c. "112: timed, and the start is less than 3 s after the clock."
// In the first engine too: the second engine has rules of its own (02, CR 12).
fn is_too_late(clock: Ninths, start: Start) -> bool
    requires clock_lt_horizon { clock.0 < horizon }
    requires within { Within start }
    ensures { result ≡ too_late clock.0 start }
{
    match start {
        Start::Timed(t) => {
            let soon = units::from_micros(units::time_of(3, 0));
            let s = units::from_micros(t);
            s.0 < clock.0 + soon.0
        }
        Start::Linked(_) => false,
    }
}

// d. "109: a waiting session of any connection has the same start and the same or a higher AccessType." 02: "for equals, only at flag 0"
fn does_collide(m: &[u64], new: Session) -> bool
    requires { new.access + new.overrides < 18446744073709551616 }
    ensures { result ≡ collides new (all m.now) }
{
    let rank = new.access + new.overrides;
    recall_rows::find(m, Stand::Waiting, Test::Unranked(new.start.0, rank)).is_some()
}

// How many of the connection wait.
fn waiting(m: &[u64], conn: u64) -> usize
    ensures { result ≡ waits conn (all m.now) }
{
    recall_rows::count(m, Stand::Waiting, Test::Of(conn))
}

// A count, "raised to 10 if lower".
fn raised_count(m: &[u64], conn: u64) -> usize
    ensures { result ≡ raised (waits conn (all m.now)) }
{
    waiting(m, conn).max(10)
}

// "the four counts, each raised to 10 if lower"
fn raised_sum(m: &[u64]) -> usize
    requires { Few m.now }
    ensures { result ≡ sum_of (λ c. waits c (all m.now)) }
{
    raised_count(m, 0) + (raised_count(m, 1) + (raised_count(m, 2) + raised_count(m, 3)))
}

// e. "114: this connection has 20 waiting; or it has 10 or more and the four counts, each raised to 10 if lower, sum to 64."
fn is_full(m: &[u64], conn: u64) -> bool
    requires { Few m.now }
    ensures { result ≡ full conn (all m.now) }
{
    let n = waiting(m, conn);
    n == 20 || n >= 10 && raised_sum(m) == 64
}

// The first of b to f that applies. new: the session that r asks for.
fn splice_result(m: &[u64], clock: Ninths, r: Request, new: Session) -> u16
    requires few { Few m.now }
    requires clock_lt_horizon { clock.0 < horizon }
    requires asked { Asked r }
    requires overrides_bound { new.access + new.overrides < 18446744073709551616 }
    ensures { result ≡ splice_result clock.0 new.conn r new (all m.now) }
{
    if is_wrong_number(m, new.conn, r) {
        return 121;
    }
    if is_too_late(clock, r.start) {
        return 112;
    }
    if does_collide(m, new) {
        return 109;
    }
    if is_full(m, new.conn) {
        return 114;
    }
    100
}

// f. "100. A waiting session with the same start, then lower, is evicted first"; 02, CR 11: those that wait then and start later.
fn accept(m: &mut [u64], new: Session, out: &mut [u8]) -> Given
    requires { Room (admitted new) 0 m.old out.old }
    ensures admits { Admits new m.old out.old result m.new out.new }
    ensures accepted_value { (result.new ≡ new) × (result.accepted ≡ Some new) }
{
    let t = new.start.0;
    let len = recall_ends::evict(&mut *m, t, &mut *out, 0);
    let moved = recall_rows::count(&*m, Stand::Waiting, Test::StartsAfter(t));
    Given {
        len: len + writing::splice_response(&mut out[len..], new.conn, 100, new.id),
        moved,
        new,
        accepted: Some(new),
    }
}

// The answer to a Splice_Request, "with the first that applies".
pub fn answer_splice(m: &mut [u64], clock: Ninths, conn: u64, r: Request, out: &mut [u8]) -> Given
    requires keeps { Keeps clock.0 (all m.old) }
    requires clock_lt_horizon { clock.0 < horizon }
    requires asked { Asked r }
    requires room { Room (spliced clock.0 conn r) 0 m.old out.old }
    ensures { Splices clock.0 conn r m.old out.old result m.new out.new }
{
    let t = start_of(&*m, conn, r.start);
    let new = session_at(t, conn, r);
    let n = splice_result(&*m, clock, r, new);
    if n == 100 {
        return accept(&mut *m, new, &mut *out);
    }
    Given {
        len: writing::splice_response(&mut *out, conn, n, r.id as u64),
        moved: 0,
        new,
        accepted: None,
    }
}

// "Abort_Response 121 if this connection doesn't hold the SessionID; else 100, then the session's end and after it its followers' ends"
pub fn answer_abort(m: &mut [u64], conn: u64, id: u64, out: &mut [u8]) -> usize
    requires { Room (answer_abort conn id) 0 m.old out.old }
    ensures { Does (answer_abort conn id) 0 m.old out.old result m.new out.new }
{
    if is_held(&*m, conn, id) {
        let len = writing::abort_response(&mut *out, conn, 100, id);
        return recall_ends::abort(&mut *m, conn, id, &mut *out, len);
    }
    writing::abort_response(&mut *out, conn, 121, id)
}
