// The tick on verdicts in words: who is on air, the next instant, starts, ends.
// Each is found by a scan. Results are numbers, as the documents name them and the wire has them.
#![tactic(auto)]

ghost use Rattle.std.specs.Prelude.{◌≡◌, ◌+◌, ◌/◌, ◌≤◌, ◌<◌, length, IfSome};
ghost use Rattle.rules.specs.State.{earliest, not_after};
ghost use Rattle.rules.specs.Units.{horizon};
ghost use Rattle.recall_rules.specs.Verdicts.{is_waiting, has_started, standing, session_of};
ghost use Rattle.recall_rows.specs.Rows.{width};
ghost use Rattle.recall_rows.specs.Scans.{place_in};
ghost use Rattle.recall_rules.specs.Work.{on_air, elapse, due, may_start, ousted, started, launched, start_at, instant, run_all};
ghost use Rattle.recall_ends.specs.Does.{all, Room, Does};
ghost use Rattle.recall_instants.specs.Moments.{begins, Lasting, Keeps};

use recall_rows::{Order, Stand, Test};
use recall_rules::{Phase, Verdict};
use rules::{Ending, Ninths, Session, Ticks};

// The row of the one on air, if any is.
pub fn on_air(m: &[u64]) -> Option<usize>
    ensures on_air { result ≡ place_in (all m.now) (on_air (all m.now)) }
    ensures in_bounds { IfSome result (λ i. i < length m.now / width) }
{
    recall_rows::first_of(m, Order::Highest, Test::Any)
}

// The one on air has played d ninths more: the one place where time is added.
fn elapse(m: &mut [u64], d: u64)
    requires { Lasting d (all m.old) }
    ensures { all m.new ≡ elapse d (all m.old) }
{
    if let Some(i) = on_air(&*m) {
        let mut session = recall_rows::load(&*m, i).session;
        session.played.0 += d;
        recall_rows::store(
            &mut *m,
            i,
            Verdict {
                phase: Phase::Started,
                session,
            },
        );
    }
}

// The first end of those that have started. It and `next_start` are not one function: that would take the order and a closure for the time,
// and its contract a ghost function, for two lines.
fn next_end(m: &[u64]) -> Option<Ninths>
    ensures { result ≡ earliest (λ s. s.end) (standing has_started (all m.now)) }
{
    let i = recall_rows::first_of(m, Order::Ending, Test::Any)?;
    Some(recall_rows::load(m, i).session.end)
}

// The first start of those that wait.
fn next_start(m: &[u64]) -> Option<Ninths>
    ensures { result ≡ earliest (λ s. s.start) (standing is_waiting (all m.now)) }
{
    let i = recall_rows::first_of(m, Order::Earliest, Test::Any)?;
    Some(recall_rows::load(m, i).session.start)
}

// The next start or end up to a time, if there is one.
fn next_due(m: &[u64], until: Ninths) -> Option<Ninths>
    ensures { result ≡ not_after until.0 (due (all m.now)) }
{
    let a = next_end(m);
    let b = next_start(m);
    units::not_after(until, units::sooner(a, b))
}

// Whether x may go on air: nothing is, or x overrides and is not below the one on air, so below none that has started.
fn may_start(m: &[u64], x: Session) -> bool
    ensures { result ≡ may_start x (all m.now) }
{
    match on_air(m) {
        Some(i) => x.overrides == 1 && recall_rows::load(m, i).session.access <= x.access,
        None => true,
    }
}

// An equal one on air ends at once, before the start of x, and then the waiting ones that follow it.
// `out` and `len` stay two, here and below, as in ends.
fn oust(m: &mut [u64], x: Session, out: &mut [u8], len: usize) -> usize
    requires { Room (ousted x) len m.old out.old }
    ensures { Does (ousted x) len m.old out.old result m.new out.new }
{
    if let Some(i) = on_air(&*m) {
        let air = recall_rows::load(&*m, i).session;
        if air.access == x.access {
            return recall_ends::end_chain(&mut *m, i, Ending::Complete(125), 125, &mut *out, len);
        }
    }
    len
}

// x goes on air in row i, and its start is written.
fn begin(m: &mut [u64], i: usize, x: Session, out: &mut [u8], len: usize) -> usize
    requires i_in_bounds { i < length m.old / width }
    requires room { Room (begins i x) len m.old out.old }
    ensures { Does (begins i x) len m.old out.old result m.new out.new }
{
    recall_rows::store(
        &mut *m,
        i,
        Verdict {
            phase: Phase::Started,
            session: x,
        },
    );
    len + writing::splice_complete(&mut out[len..], x.conn, 100, x.id, 0, Ticks(0))
}

// The session of row i starts: it no longer waits, an equal one on air ends, and then it goes on air.
fn start(m: &mut [u64], i: usize, out: &mut [u8], len: usize) -> usize
    requires i_in_bounds { i < length m.old / width }
    requires room { Room (started i) len m.old out.old }
    ensures { Does (started i) len m.old out.old result m.new out.new }
{
    let x = recall_rows::load(&*m, i).session;
    recall_rows::store(
        &mut *m,
        i,
        Verdict {
            phase: Phase::Out,
            session: x,
        },
    );
    let to = oust(&mut *m, x, &mut *out, len);
    begin(&mut *m, i, x, &mut *out, to)
}

// The session of row i goes on air, or fails with those that follow it.
fn launch(m: &mut [u64], i: usize, out: &mut [u8], len: usize) -> usize
    requires i_in_bounds { i < length m.old / width }
    requires room { Room (launched i) len m.old out.old }
    ensures { Does (launched i) len m.old out.old result m.new out.new }
{
    let x = recall_rows::load(&*m, i).session;
    if may_start(&*m, x) {
        start(&mut *m, i, &mut *out, len)
    } else {
        recall_ends::end_chain(&mut *m, i, Ending::Failed, 109, &mut *out, len)
    }
}

// The one possible start at t.
fn start_at(m: &mut [u64], t: Ninths, out: &mut [u8], len: usize) -> usize
    requires { Room (start_at t.0) len m.old out.old }
    ensures { Does (start_at t.0) len m.old out.old result m.new out.new }
{
    match recall_rows::find(&*m, Stand::Waiting, Test::StartsAt(t.0)) {
        Some(i) => launch(&mut *m, i, &mut *out, len),
        None => len,
    }
}

// One instant: ends first, from the highest AccessType down, then the start.
fn at_instant(m: &mut [u64], t: Ninths, out: &mut [u8], len: usize) -> usize
    requires { Room (instant t.0) len m.old out.old }
    ensures { Does (instant t.0) len m.old out.old result m.new out.new }
{
    let to = recall_ends::end_due(&mut *m, t.0, &mut *out, len);
    start_at(&mut *m, t, &mut *out, to)
}

// Every instant from the clock to `until`, in order of time: each row has one start and one end.
pub fn run(m: &mut [u64], clock: Ninths, until: Ninths, out: &mut [u8]) -> usize
    requires keeps { Keeps clock.0 (all m.old) }
    requires clock_le_until { (clock.0 ≤ until.0) × (until.0 < horizon) }
    requires room { Room (run_all clock.0 until.0) 0 m.old out.old }
    ensures { Does (run_all clock.0 until.0) 0 m.old out.old result m.new out.new }
{
    let mut t = clock;
    let mut len = 0;
    for _ in 0..2 * recall_rows::rows_in(&*m) {
        let Some(next) = next_due(&*m, until) else {
            break;
        };
        elapse(&mut *m, next.0 - t.0);
        len = at_instant(&mut *m, next, &mut *out, len);
        t = next;
    }
    elapse(&mut *m, until.0 - t.0);
    len
}
