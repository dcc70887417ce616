// A Splice_Request's eviction and acceptance, and an Abort_Request's answer.
#![tactic(auto)]

ghost use Rattle.std.specs.Prelude.{◌≡◌, ◌+◌, ◌≤◌, ◌<◌, length};
ghost use Rattle.rules.specs.Lists.{some, place};
ghost use Rattle.rules.specs.State.{starts_at};
ghost use Rattle.rules.specs.Splicing.{grants, answer_splice};
ghost use Rattle.rules.specs.Answers.{answer_abort};
ghost use Rattle.rules.specs.Units.{horizon};
ghost use Rattle.rules.specs.Follows.Sound.{Holding};
ghost use Rattle.rules.specs.Follows.Asked.{Asked};
ghost use Rattle.places.specs.Places.{starts_from};
ghost use Rattle.memory.specs.Memory.{Form, see, places_of, Storable};
ghost use Rattle.memory.specs.declared.Which.TheVariants.{Waiting};
ghost use Rattle.ends.specs.Does.{Does};
ghost use Rattle.requests.specs.Made.{MadeWay, Splices};

use checks::Spot;
use memory::{WORDS, Which};
use reply::Did;
use rules::{Ninths, Request, Session};

// Where a new session goes, and how far the output is written.
#[derive(Clone, Copy)]
struct Way {
    at: usize,
    len: usize,
}

// f. One that waits with the start t, if it is taken, ends first, with its followers; spot: where t falls.
fn make_way(m: &mut [u64; WORDS], t: Ninths, spot: Spot, out: &mut [u8]) -> Way
    requires form { Form m.old }
    requires holding { Holding (see m.old).clock (see m.old).queue }
    requires at_value { spot.at ≡ place (starts_from t.0) (see m.old).queue.waiting }
    requires taken_value { spot.taken ≡ some (starts_at t.0) (see m.old).queue.waiting }
    requires in_bounds { 4096 ≤ length out.old }
    ensures { MadeWay t.0 m.old out.old result m.new out.new }
{
    if spot.taken {
        let to = ends::end_waiting(&mut *m, spot.at, 109, &mut *out, 0);
        let i = memory::find_start(&*m, t);
        return Way { at: i, len: to };
    }
    Way {
        at: spot.at,
        len: 0,
    }
}

// f. The new session waits, once the one that it evicts has ended; the 100 is written last.
fn accept(m: &mut [u64; WORDS], new: Session, spot: Spot, out: &mut [u8]) -> Did
    requires form { Form m.old }
    requires holding { Holding (see m.old).clock (see m.old).queue }
    requires at_value { spot.at ≡ place (starts_from new.start.0) (see m.old).queue.waiting }
    requires taken_value { spot.taken ≡ some (starts_at new.start.0) (see m.old).queue.waiting }
    requires m_len_bound { length (see m.old).queue.waiting < places_of Waiting }
    requires storable { Storable new }
    requires in_bounds { 4096 ≤ length out.old }
    ensures { Splices (grants new (see m.old).queue)
        m.old out.old result m.new out.new }
{
    let way = make_way(&mut *m, new.start, spot, &mut *out);
    let moved = memory::accept(&mut *m, way.at, new);
    let to = way.len + writing::splice_response(&mut out[way.len..], new.conn, 100, new.id);
    Did {
        moved,
        ..Did::unmoved(to)
    }
}

// The answer to a Splice_Request.
pub fn answer_splice(m: &mut [u64; WORDS], conn: u64, r: Request, out: &mut [u8]) -> Did
    requires form { Form m.old }
    requires holding { Holding (see m.old).clock (see m.old).queue }
    requires m_bound { (see m.old).clock < horizon }
    requires conn_bound { conn ≤ 3 }
    requires asked { Asked r }
    requires in_bounds { 4096 ≤ length out.old }
    ensures { Splices (answer_splice (see m.old).clock conn r (see m.old).queue)
        m.old out.old result m.new out.new }
{
    let start = checks::start_of(&*m, conn, r.start);
    let Some(t) = start else {
        return Did::unmoved(writing::splice_response(&mut *out, conn, 121, r.id as u64));
    };
    let new = checks::session_at(t, conn, r);
    let spot = checks::spot_of(&*m, t);
    let n = checks::splice_result(&*m, conn, r, new, spot);
    if n == 100 {
        return accept(&mut *m, new, spot, &mut *out);
    }
    Did::unmoved(writing::splice_response(&mut *out, conn, n, r.id as u64))
}

// The answer to an Abort_Request: 121, or 100, the session's end and its followers' ends. No number is held twice: one search finds it.
pub fn answer_abort(m: &mut [u64; WORDS], conn: u64, id: u64, out: &mut [u8]) -> usize
    requires form { Form m.old }
    requires holding { Holding (see m.old).clock (see m.old).queue }
    requires m_bound { (see m.old).clock < horizon }
    requires in_bounds { 4096 ≤ length out.old }
    ensures { Does (answer_abort conn id) 0 m.old out.old result m.new out.new }
{
    let held = checks::where_held(&*m, conn, id);
    let Some(place) = held else {
        return writing::abort_response(&mut *out, conn, 121, id);
    };
    let len = writing::abort_response(&mut *out, conn, 100, id);
    match place.which {
        Which::Waiting => ends::end_waiting(&mut *m, place.at, 116, &mut *out, len),
        Which::Started => ends::end_started(&mut *m, place.at, 116, &mut *out, len),
    }
}
