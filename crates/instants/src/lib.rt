// Starts, ends, being covered and on air again, and a tick's run from instant to instant.
#![tactic(auto)]

ghost use Rattle.std.specs.Prelude.{◌≡◌, ◌+◌, ◌≤◌, ◌<◌, length};
ghost use Rattle.rules.specs.Lists.{All};
ghost use Rattle.rules.specs.State.{due, not_after, to_come};
ghost use Rattle.rules.specs.Follows.Wires.{Sorted};
ghost use Rattle.rules.specs.Instants.{may_start, ousted, launched, start_at, instant};
ghost use Rattle.rules.specs.Follows.Sound.{Holding};
ghost use Rattle.rules.specs.Units.{horizon};
ghost use Rattle.places.specs.Places.{Narrow};
ghost use Rattle.memory.specs.Memory.{Form, see, Now};
ghost use Rattle.ends.specs.Does.{Playable, room_for, Does, Ordered};
ghost use Rattle.instants.specs.Runs.{Meets, Placed, Lasting, passed, Ticked};

use memory::{WORDS, Which};
use rules::{Ninths, Session, Ticks};

// d ninths pass for the one on air or, with none, for the primary channel: the one place where time is added.
fn elapse(m: &mut [u64; WORDS], d: u64)
    requires form { Form m.old }
    requires lasting { Lasting d (see m.old).queue.started }
    requires d_bound { (see m.old).primary + d < 18446744073709551616 }
    ensures { Now m.new (passed d (see m.old)) }
{
    if memory::is_quiet(&*m) {
        return memory::silence(&mut *m, d);
    }
    memory::play(&mut *m, d)
}

// Whether x may go on air: nothing is, or x overrides one that it outranks.
fn may_start(m: &[u64], x: Session) -> bool
    requires { Form m.now }
    ensures { result ≡ may_start x (see m.now).queue.started }
{
    if memory::is_quiet(m) {
        return true;
    }
    let air = memory::load(m, Which::Started, 0);
    x.overrides == 1 && checks::outranks(x, air)
}

// An equal one on air ends at once, before the start of x, and then the waiting ones that follow it.
fn oust(m: &mut [u64; WORDS], x: Session, out: &mut [u8], len: usize) -> usize
    requires form { Form m.old }
    requires all { All Playable (see m.old).queue.started }
    requires ordered { Ordered (see m.old).queue.waiting }
    requires m_in_bounds { len + room_for (1 + length (see m.old).queue.waiting) ≤ length out.old }
    ensures { Does (ousted x) len m.old out.old result m.new out.new }
{
    if memory::is_quiet(&*m) {
        return len;
    }
    let air = memory::load(&*m, Which::Started, 0);
    if air.access == x.access {
        return ends::end_started(&mut *m, 0, 125, &mut *out, len);
    }
    len
}

// x, which no longer waits, goes on air, or fails with those that follow it.
fn launch(m: &mut [u64; WORDS], x: Session, out: &mut [u8], len: usize) -> usize
    requires form { Form m.old }
    requires placed { Placed (launched x (see m.old).queue) × Narrow x }
    requires all { All Playable (see m.old).queue.started }
    requires ordered { Ordered (see m.old).queue.waiting }
    requires m_in_bounds { len + room_for (2 + to_come (see m.old).queue) ≤ length out.old }
    ensures { Does (launched x) len m.old out.old result m.new out.new }
{
    if may_start(&*m, x) {
        let to = oust(&mut *m, x, &mut *out, len);
        let end = to + writing::splice_complete(&mut out[to..], x.conn, 100, x.id, 0, Ticks(0));
        memory::push(&mut *m, x);
        end
    } else {
        ends::fail(&mut *m, x, &mut *out, len)
    }
}

// The one possible start at t: nothing that waits starts before t, so it is the first or none.
fn start_at(m: &mut [u64; WORDS], t: Ninths, out: &mut [u8], len: usize) -> usize
    requires form { Form m.old }
    requires meets { Meets t.0 (see m.old).queue }
    requires placed { Placed (start_at t.0 (see m.old).queue) }
    requires all { All Playable (see m.old).queue.started }
    requires m_in_bounds { len + room_for (to_come (see m.old).queue) ≤ length out.old }
    ensures { Does (start_at t.0) len m.old out.old result m.new out.new }
{
    if memory::count(&*m, Which::Waiting) == 0 {
        return len;
    }
    let x = memory::load(&*m, Which::Waiting, 0);
    if x.start.0 == t.0 {
        memory::remove(&mut *m, Which::Waiting, 0);
        launch(&mut *m, x, &mut *out, len)
    } else {
        len
    }
}

// One instant: ends first, from the highest AccessType down, then the start.
fn at_instant(m: &mut [u64; WORDS], t: Ninths, out: &mut [u8], len: usize) -> usize
    requires form { Form m.old }
    requires meets { Meets t.0 (see m.old).queue }
    requires placed { Placed (instant t.0 (see m.old).queue) }
    requires all { All Playable (see m.old).queue.started }
    requires m_in_bounds { len + room_for (to_come (see m.old).queue) ≤ length out.old }
    ensures { Does (instant t.0) len m.old out.old result m.new out.new }
{
    let to = ends::end_due(&mut *m, t, &mut *out, len);
    start_at(&mut *m, t, &mut *out, to)
}

// The next start or end.
pub fn upcoming(m: &[u64]) -> Option<Ninths>
    requires form { Form m.now }
    requires sorted { Sorted (see m.now).queue.waiting }
    ensures { result ≡ due (see m.now).queue }
{
    let a = memory::least_end(m);
    let b = memory::first_start(m);
    units::sooner(a, b)
}

// The same up to a time, if there is one.
fn next_due(m: &[u64], until: Ninths) -> Option<Ninths>
    requires form { Form m.now }
    requires sorted { Sorted (see m.now).queue.waiting }
    ensures { result ≡ not_after until.0 (due (see m.now).queue) }
{
    units::not_after(until, upcoming(m))
}

// Every instant from the clock to `until`, in order of time. The clock's word stays. A tick that finds nothing due is out before the loop.
pub fn run(m: &mut [u64; WORDS], until: Ninths, out: &mut [u8]) -> usize
    requires form { Form m.old }
    requires holding { Holding (see m.old).clock (see m.old).queue }
    requires m_bound { ((see m.old).clock ≤ until.0) × (until.0 < horizon) }
    requires m_bound_2 { (see m.old).primary ≤ (see m.old).clock }
    requires m_in_bounds { room_for (to_come (see m.old).queue) ≤ length out.old }
    ensures { Ticked until.0 (see m.old) out.old result m.new out.new }
{
    let at = memory::clock(&*m);
    let first = next_due(&*m, until);
    let Some(begin) = first else {
        elapse(&mut *m, until.0 - at.0);
        return 0;
    };
    elapse(&mut *m, begin.0 - at.0);
    let mut t = begin;
    let mut len = 0;
    loop {
        len = at_instant(&mut *m, t, &mut *out, len);
        let due = next_due(&*m, until);
        let Some(next) = due else {
            elapse(&mut *m, until.0 - t.0);
            return len;
        };
        elapse(&mut *m, next.0 - t.0);
        t = next;
    }
}
