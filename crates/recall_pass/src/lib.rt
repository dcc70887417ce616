// What is carried from call to call, the four calls played onto it, and the pass over a log.
// At each call the kept calls are gone through once, from the first.
// What stands in the first engine too stays twice: the second engine has rules of its own (02, CR 12).
#![tactic(auto)]

ghost use Rattle.std.specs.Prelude.{Some, ◌≡◌, ◌+◌, ◌*◌, ◌≤◌, ◌<◌, length, drop};
ghost use Rattle.rules.specs.Bytes.{part, message_size};
ghost use Rattle.rules.specs.Calls.{messages};
ghost use Rattle.rules.specs.Card.{card_loans, card_room};
ghost use Rattle.recall_rules.specs.Work.{air_feed};
ghost use Rattle.recall_rules.specs.Calls.{open_call, close_call, tick_call, call};
ghost use Rattle.recall_rows.specs.Rows.{width, Fits};
ghost use Rattle.recall_ends.specs.Does.{all};
ghost use Rattle.recall_log.specs.Log.{kept_calls, most_calls};
ghost use Rattle.recall_log.specs.Kept.{record_in, call_of};
ghost use Rattle.recall_pass.specs.Passes.{rows_of, pass_in, relinked, replaced, carried_by, BeginsAny, Ready, Leads, PlaysAny, PlaysOver};
ghost use Rattle.recall_pass.specs.Passes.{TestsAny, FramesAny, SettlesAny, HearsAny, Passed};

use reading::numbers::number2;
use recall_answers::{Carried, Effect};
use recall_log::Record;
use recall_rows::WIDTH;
use recall_rules::{Phase, Verdict};
use reply::Did;
use rules::{Header, Link, Ninths, Refusal};

// The words of 256 rows: a call of the log has one verdict at most, and so has the present call.
pub const WORDS: usize = 3328;

// After a good call: what is carried on, and what it did.
#[derive(Clone, Copy)]
pub struct Played {
    pub carried: Carried,
    pub did: Did,
}

// After a message: what is carried on, how far the output is written, 02's CR 11, and what is left to do.
#[derive(Clone, Copy)]
pub struct Heard {
    pub carried: Carried,
    pub len: usize,
    pub moved: usize,
    pub effect: Effect,
}

// Before the first call.
fn begun() -> Carried
    ensures { BeginsAny result }
{
    Carried {
        clock: Ninths(0),
        links: [0; 4],
        places: [None; 4],
        rows: 0,
    }
}

// What connection conn is from now on.
// Two, this and `placed`, since they set different fields: what they share is a copy and an assignment.
fn linked(h: Carried, conn: u32, code: u64) -> Carried
    requires { conn ≤ 3 }
    ensures { result ≡ relinked conn code h }
{
    let mut next = h;
    next.links[conn as usize] = code;
    next
}

// Where in the log its Hardware_Config stands from now on.
fn placed(h: Carried, conn: u32, place: Option<usize>) -> Carried
    requires { conn ≤ 3 }
    ensures { result ≡ replaced conn place h }
{
    let mut next = h;
    next.places[conn as usize] = place;
    next
}

// What is carried on after a call: a refusal changes nothing.
fn carried_by(h: Carried, p: Result<Played, Refusal>) -> Carried
    ensures { result ≡ carried_by h p }
{
    match p {
        Ok(p) => p.carried,
        Err(_) => h,
    }
}

// Open: 1, 6.
pub fn open(h: Carried, conn: u32) -> Result<Played, Refusal>
    ensures { PlaysOver (open_call conn) h result }
{
    if 3 < conn {
        return Err(Refusal::NoConnection);
    }
    let Link::Closed = recall_answers::link_of(h, conn) else {
        return Err(Refusal::AlreadyOpen);
    };
    Ok(Played {
        carried: linked(h, conn, 1),
        did: Did::unmoved(0),
    })
}

// 1, 2, 7: the tests that a message and a close begin with.
fn tested(h: Carried, conn: u32, room: usize) -> Result<(), Refusal>
    ensures { TestsAny conn room h result }
{
    if 3 < conn {
        return Err(Refusal::NoConnection);
    }
    if room < 4096 {
        return Err(Refusal::NoRoom);
    }
    if let Link::Closed = recall_answers::link_of(h, conn) {
        return Err(Refusal::NotOpen);
    }
    Ok(())
}

// 1, 2, 7, 02's 10, then 5 (header), 4, 5 (body): a message's tests, or only those before 10 with a whole message.
pub fn framed(
    h: Carried,
    conn: u32,
    l: &[u8],
    room: usize,
    is_long: bool,
) -> Result<Header, Refusal>
    ensures { FramesAny conn l.now room is_long h result }
{
    tested(h, conn, room)?;
    if is_long {
        return Err(Refusal::LongSection);
    }
    reading::frame(l)
}

// Close: 1, 2, 7. 02, CR 6: "close forgets it".
pub fn close(m: &mut [u64], h: Carried, conn: u32, out: &mut [u8]) -> Result<Played, Refusal>
    requires { Ready h m.old }
    ensures { PlaysAny (close_call conn (length out.old)) h m.old out.old result
        m.new out.new }
{
    tested(h, conn, out.len())?;
    let end = h.rows * WIDTH;
    let len = recall_ends::close(&mut m[..end], conn as u64, &mut *out, 0);
    Ok(Played {
        carried: placed(linked(h, conn, 0), conn, None),
        did: Did::unmoved(len),
    })
}

// Tick: 2, 8, 3.
pub fn tick(
    m: &mut [u64],
    h: Carried,
    seconds: u32,
    micros: u32,
    out: &mut [u8],
) -> Result<Played, Refusal>
    requires { Ready h m.old }
    ensures { PlaysAny (tick_call seconds micros (length out.old)) h m.old out.old result
        m.new out.new }
{
    if out.len() < 4096 {
        return Err(Refusal::NoRoom);
    }
    if 999999 < micros {
        return Err(Refusal::BadMicros);
    }
    let until = units::from_micros(units::time_of(seconds, micros));
    let clock = h.clock;
    if until.0 < clock.0 {
        return Err(Refusal::ClockBack);
    }
    let end = h.rows * WIDTH;
    let len = recall_instants::run(&mut m[..end], clock, until, &mut *out);
    Ok(Played {
        carried: Carried { clock: until, ..h },
        did: Did::unmoved(len),
    })
}

// What is left to do of an answer, done: a new session stands in the row behind the last; an initialised connection.
fn settle(m: &mut [u64], h: Carried, conn: u32, effect: Effect) -> Carried
    requires fits { Fits (h.rows + 1) m.old }
    requires conn_bound { conn ≤ 3 }
    ensures { SettlesAny conn effect h m.old result m.new }
{
    match effect {
        Effect::Joins(x) => {
            let n = h.rows;
            recall_rows::store(
                &mut *m,
                n,
                Verdict {
                    phase: Phase::Waits,
                    session: x,
                },
            );
            Carried { rows: n + 1, ..h }
        }
        Effect::Enters => linked(h, conn, 2),
        Effect::Nothing | Effect::Configures => h,
    }
}

// A message answered, but for GetConfig's record.
pub fn hear(m: &mut [u64], h: Carried, conn: u32, id: u16, d: &[u8], out: &mut [u8]) -> Heard
    requires ready { Ready h m.old }
    requires fits { Fits (h.rows + 1) m.old }
    requires conn_bound { conn ≤ 3 }
    requires card_room_in_bounds { card_room ≤ length out.old }
    ensures { HearsAny conn id d.now h m.old out.old result m.new out.new }
{
    let end = h.rows * WIDTH;
    let g = recall_answers::answer(&mut m[..end], h, conn, id, d, &mut *out);
    let effect = g.effect;
    let next = settle(&mut *m, h, conn, effect);
    Heard {
        carried: next,
        len: g.len,
        moved: g.moved,
        effect,
    }
}

// Whose section is on air: 1 the insertion's, 0 the primary's.
pub fn feed(m: &[u64], h: Carried) -> usize
    requires { Fits h.rows m.now }
    ensures { result ≡ air_feed (all (rows_of h m.now)) }
{
    let end = h.rows * WIDTH;
    match recall_instants::on_air(&m[..end]) {
        Some(_) => 1,
        None => 0,
    }
}

// The kept message that stands in the log at `from`; the one of an Init_Request that got 100 has the Hardware_Config from now on.
fn play_message(
    log: &[u8],
    m: &mut [u64],
    h: Carried,
    conn: u32,
    from: usize,
    scratch: &mut [u8],
) -> Carried
    requires ready { Ready h m.old }
    requires fits { Fits (h.rows + 1) m.old }
    requires from_in_bounds { from + (8 + message_size (drop from log.now)) ≤ length log.now }
    requires scratch_len { length scratch.old ≡ card_room }
    ensures { Leads log.now h
        (call (messages conn (part from (8 + message_size (drop from log.now)) log.now) card_loans)
        (pass_in log.now h m.old)) result m.new }
{
    let size = number2(&log[from..], 2);
    let end = from + 8 + size as usize;
    let l = &log[from..end];
    let Ok(header) = framed(h, conn, l, scratch.len(), false) else {
        return h;
    };
    let g = hear(
        &mut *m,
        h,
        conn,
        header.id,
        reading::data_of(l, header.size as usize),
        &mut *scratch,
    );
    if let Effect::Enters = g.effect {
        return placed(g.carried, conn, Some(from));
    }
    g.carried
}

// One kept call, whose record stands in the log at `at`. A log that somebody changed may have calls that are refused: they change nothing.
fn play(
    log: &[u8],
    m: &mut [u64],
    h: Carried,
    at: usize,
    record: Record,
    scratch: &mut [u8],
) -> Carried
    requires ready { Ready h m.old }
    requires fits { Fits (h.rows + 1) m.old }
    requires record_value { (record_in (drop at log.now) ≡ Some «record») × (at ≤ length log.now) }
    requires scratch_len { length scratch.old ≡ card_room }
    ensures { Leads log.now h (call (call_of (Some «record») (drop at log.now)) (pass_in log.now h m.old)) result
        m.new }
{
    match record {
        Record::Open(c) => carried_by(h, open(h, c as u32)),
        Record::Close(c) => carried_by(h, close(&mut *m, h, c as u32, &mut *scratch)),
        Record::Message(c, _) => play_message(log, &mut *m, h, c as u32, at + 2, &mut *scratch),
        Record::Tick(seconds, micros) => {
            carried_by(h, tick(&mut *m, h, seconds, micros, &mut *scratch))
        }
    }
}

// Through the kept calls once, from the first.
pub fn pass(log: &[u8], m: &mut [u64]) -> Carried
    requires log_len_bound { length (kept_calls log.now) < most_calls }
    requires width_in_bounds { most_calls * width ≤ length m.old }
    ensures { Passed log.now result m.new }
{
    let mut scratch = [0u8; 4096];
    let mut h = begun();
    let mut at = 0;
    while let Some(record) = recall_log::record_at(&log[at..]) {
        h = play(log, &mut *m, h, at, record, &mut scratch);
        at += recall_log::span_of(Some(record));
    }
    h
}
