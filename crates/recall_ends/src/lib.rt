// Ends on verdicts in words: followers, eviction, abort, close, those whose end has come.
// Every row of the words is a verdict. Records go behind the last one in the output buffer.
// Results are numbers, as the documents name them and the wire has them.
#![tactic(auto)]

ghost use Rattle.std.specs.Prelude.{◌≡◌, [], ◌∷◌, ◌+◌, ◌/◌, ◌≤◌, ◌<◌, length};
ghost use Rattle.rules.specs.Records.{result_of, output};
ghost use Rattle.rules.specs.Ends.{ended};
ghost use Rattle.recall_rules.specs.Verdicts.{session_of};
ghost use Rattle.recall_rows.specs.Rows.{width};
ghost use Rattle.recall_rules.specs.Work.{dismissed, evicted, cancelled, aborted, closed_by, end_at};
ghost use Rattle.recall_rows.specs.Scans.{session_test};
ghost use Rattle.recall_ends.specs.Does.{Completing, Tells, Room, Does, all, one_over, chain_over, Top, by_access, started_end};
ghost use Rattle.recall_ends.specs.Does.{waiting_end};

use recall_rows::{Order, Stand, Test};
use recall_rules::{Phase, Verdict};
use rules::{Ending, Ninths, Session, Ticks};

// A SpliceComplete that is an end: flag 1 with the time on air, or flag 0 and 109 of a start that failed. A PlayedDuration has four
// bytes, so what they do not show is left out first.
// In the first engine too: the second engine has rules of its own (02, CR 12).
// `out` and `len` stay two, here and below, as in ends: a struct behind a reference would have to say again how long its
// slice is.
fn write_complete(how: Ending, x: Session, out: &mut [u8], len: usize) -> usize
    requires completing { Completing how }
    requires x_in_bounds { len + length (output (ended how x ∷ [])) ≤ length out.old }
    ensures { Tells out.old len (ended how x ∷ []) result out.new }
{
    let (result, flag, played) = match how {
        Ending::Complete(n) => (n, 1, units::to_ticks(Ninths(x.played.0 % 429496729600))),
        _ => (109, 0, Ticks(0)),
    };
    len + writing::splice_complete(&mut out[len..], x.conn, result, x.id, flag, played)
}

// The end of x, behind the last record: the one place where an end is written.
// In the first engine too: the second engine has rules of its own (02, CR 12).
fn write_end(how: Ending, x: Session, out: &mut [u8], len: usize) -> usize
    requires { len + length (output (ended how x ∷ [])) ≤ length out.old }
    ensures { Tells out.old len (ended how x ∷ []) result out.new }
{
    let Ending::Response(result) = how else {
        return write_complete(how, x, &mut *out, len);
    };
    len + writing::splice_response(&mut out[len..], x.conn, result, x.id)
}

// The result of an end's record.
// In the first engine too: the second engine has rules of its own (02, CR 12).
// No From: Ending is of rules.
fn result_of(how: Ending, x: Session) -> u16
    ensures { result ≡ result_of (ended how x) }
{
    match how {
        Ending::Complete(result) | Ending::Response(result) => result,
        Ending::Failed => 109,
    }
}

// The session of row i ends so, the next of all ends.
fn end_one(m: &mut [u64], i: usize, how: Ending, out: &mut [u8], len: usize) -> usize
    requires i_in_bounds { i < length m.old / width }
    requires room { Room (one_over how i) len m.old out.old }
    ensures { Does (one_over how i) len m.old out.old result m.new out.new }
{
    let session = recall_rows::load(&*m, i).session;
    let nth = recall_rows::count(&*m, Stand::Ended, Test::Any);
    let phase = Phase::Ended(nth as u64, result_of(how, session) as u64);
    recall_rows::store(&mut *m, i, Verdict { phase, session });
    write_end(how, session, &mut *out, len)
}

// The waiting sessions that reach the number link by link end with the result.
fn dismiss(m: &mut [u64], res: u16, conn: u64, id: u64, out: &mut [u8], len: usize) -> usize
    requires { Room (dismissed res conn id) len m.old out.old }
    ensures { Does (dismissed res conn id) len m.old out.old result m.new out.new }
{
    let Some(i) = recall_rows::find(&*m, Stand::Waiting, Test::Follows(conn, id)) else {
        return len;
    };
    let next = recall_rows::load(&*m, i).session.id;
    let to = end_one(&mut *m, i, Ending::Response(res), &mut *out, len);
    dismiss(m, res, conn, next, out, to)
}

// The AccessType of the one on air, or 0 with none.
fn top_access(m: &[u64]) -> u64
    ensures { Top (all m.now) result }
{
    match recall_rows::first_of(m, Order::Highest, Test::Any) {
        Some(i) => recall_rows::load(m, i).session.access,
        None => 0,
    }
}

// How the started session of row i ends: one on air has the AccessType `top`, any other is covered.
fn as_was(m: &[u64], i: usize, top: u64, air: Ending, cover: Ending) -> Ending
    requires { i < length m.now / width }
    ensures { result ≡ by_access top air cover (session_of (all m.now) i) }
{
    let v = recall_rows::load(m, i);
    if top <= v.session.access { air } else { cover }
}

// Those of the started that pass the test end, from the highest AccessType down, each by what it was.
fn end_started(
    m: &mut [u64],
    test: Test,
    air: Ending,
    cover: Ending,
    out: &mut [u8],
    len: usize,
) -> usize
    requires { Room (started_end air cover (session_test test)) len m.old out.old }
    ensures { Does (started_end air cover (session_test test))
        len m.old out.old result m.new out.new }
{
    let top = top_access(&*m);
    let mut to = len;
    while let Some(i) = recall_rows::first_of(&*m, Order::Highest, test) {
        let how = as_was(&*m, i, top, air, cover);
        to = end_one(&mut *m, i, how, &mut *out, to);
    }
    to
}

// Those that wait and pass the test end so, by start.
fn end_waiting(m: &mut [u64], test: Test, how: Ending, out: &mut [u8], len: usize) -> usize
    requires { Room (waiting_end how (session_test test)) len m.old out.old }
    ensures { Does (waiting_end how (session_test test))
        len m.old out.old result m.new out.new }
{
    let mut to = len;
    while let Some(i) = recall_rows::first_of(&*m, Order::Earliest, test) {
        to = end_one(&mut *m, i, how, &mut *out, to);
    }
    to
}

// All that pass the test end, as by abort: the started from the highest AccessType down, then the waiting by start.
fn end_all(m: &mut [u64], test: Test, out: &mut [u8], len: usize) -> usize
    requires { Room (cancelled (session_test test)) len m.old out.old }
    ensures { Does (cancelled (session_test test))
        len m.old out.old result m.new out.new }
{
    let air = Ending::Complete(116);
    let cover = Ending::Response(116);
    let to = end_started(&mut *m, test, air, cover, &mut *out, len);
    end_waiting(&mut *m, test, cover, &mut *out, to)
}

// All of a connection end.
pub fn close(m: &mut [u64], conn: u64, out: &mut [u8], len: usize) -> usize
    requires { Room (closed_by conn) len m.old out.old }
    ensures { Does (closed_by conn) len m.old out.old result m.new out.new }
{
    end_all(&mut *m, Test::Of(conn), &mut *out, len)
}

// A session ends by abort, and after it those that follow it.
pub fn abort(m: &mut [u64], conn: u64, id: u64, out: &mut [u8], len: usize) -> usize
    requires { Room (aborted conn id) len m.old out.old }
    ensures { Does (aborted conn id) len m.old out.old result m.new out.new }
{
    let to = end_all(&mut *m, Test::Is(conn, id), &mut *out, len);
    dismiss(&mut *m, 116, conn, id, &mut *out, to)
}

// Those of the started whose end has come end.
pub fn end_due(m: &mut [u64], t: u64, out: &mut [u8], len: usize) -> usize
    requires { Room (end_at t) len m.old out.old }
    ensures { Does (end_at t) len m.old out.old result m.new out.new }
{
    let air = Ending::Complete(100);
    let cover = Ending::Complete(125);
    end_started(&mut *m, Test::EndsAt(t), air, cover, &mut *out, len)
}

// The session of row i ends so, and then those that follow it, with the result.
pub fn end_chain(
    m: &mut [u64],
    i: usize,
    how: Ending,
    res: u16,
    out: &mut [u8],
    len: usize,
) -> usize
    requires i_in_bounds { i < length m.old / width }
    requires room { Room (chain_over how res i) len m.old out.old }
    ensures { Does (chain_over how res i) len m.old out.old result m.new out.new }
{
    let x = recall_rows::load(&*m, i).session;
    let to = end_one(&mut *m, i, how, &mut *out, len);
    dismiss(&mut *m, res, x.conn, x.id, &mut *out, to)
}

// The one that waits for this start, if any, is evicted, and those that follow it.
pub fn evict(m: &mut [u64], t: u64, out: &mut [u8], len: usize) -> usize
    requires { Room (evicted t) len m.old out.old }
    ensures { Does (evicted t) len m.old out.old result m.new out.new }
{
    match recall_rows::find(&*m, Stand::Waiting, Test::StartsAt(t)) {
        Some(i) => end_chain(&mut *m, i, Ending::Response(109), 109, &mut *out, len),
        None => len,
    }
}
