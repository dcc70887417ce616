// The calls of document 01 and the reads, over memory that the caller lends.
// The splicer's words are in one piece and its bytes in a second: they stay two parameters, of which each call asks `Lent`, since C lends
// them so, and the theorems of the demands cite each call's contract with both. The reads answer in numbers and words, not in an Option or
// an enum: C reads these, and the definitions ReadsMux, ReadsFeed, ReadsAir, ReadsDue and ReadsSessions say them.
#![tactic(auto)]

ghost use Rattle.std.specs.Prelude.{◌≡◌, [], ◌<◌, ◌≤◌, min, length};
ghost use Rattle.rules.specs.Bytes.{written};
ghost use Rattle.rules.specs.Calls.{fresh, open_call, close_call, message_call, move_call, tick_call, cue_call};
ghost use Rattle.rules.specs.HouseNumbers.{lending_maps};
ghost use Rattle.rules.specs.Units.{horizon};
ghost use Rattle.rules.specs.Follows.Sound.{Proper, Small};
ghost use Rattle.rules.specs.Listing.{row_width, session_row};
ghost use Rattle.memory.specs.Memory.{Form, see};
ghost use Rattle.engine.specs.Lent.{Lent, reply_of, Answers, Makes, room_test, micros_test, open_test, needed, Counts, Primary, ReadsMux};
ghost use Rattle.engine.specs.Lent.{ReadsFeed, ReadsAir, ReadsDue, ReadsSessions, state_of, Listable, Lists};

use answers::Sent;
use memory::{BYTES, WORDS, Which};
use relay::Anchor;
use reply::Did;
use rules::{Link, Ninths, Refusal, Session};

// 02, CR 6, 10: "a lent section over 1,024 bytes".
const SECTION: usize = 1024;

// The words of a session's row, and what a row's high halves count.
pub const ROW: usize = 7;

const HIGH: u64 = 4294967296;

// What a session is: numbers, since a row is C's struct, and `state_of` of specs/Lent says them.
const STATE_ON_AIR: u64 = 1;

const STATE_COVERED: u64 = 2;

const STATE_WAITING: u64 = 3;

// The first microsecond that no Seconds of 32 bits reach.
const PAST_SECONDS: u64 = 4294967296000000;

// "2: output buffer below 4,096 bytes".
pub const ROOM: usize = 4096;

// "8: MicroSeconds above 999,999".
pub const LAST_MICRO: u32 = 999999;

// What a call answers: what it did, or a refusal.
pub type Answer = Result<Did, Refusal>;

// The reply's four words, for the doors: the house number of a refusal or 0, the bytes consumed and written, and how many places an
// acceptance shifted.
// No From: Result and arrays are of other crates.
#[tactic(auto, unfolding(crate::specs::Lent::reply_of))]
pub fn reply_of(a: Answer) -> [u64; 4]
    ensures { result ≡ reply_of a }
{
    match a {
        Err(n) => [reply::house_number(n) as u64, 0, 0, 0],
        Ok(did) => [0, did.consumed as u64, did.written as u64, did.moved as u64],
    }
}

// Fresh: clock 0, all connections closed. 9 for a name without a zero, which gives the splicer of an empty name.
pub fn fresh(name: &[u8; 32], m: &mut [u64; WORDS], b: &mut [u8; BYTES]) -> Answer
    ensures { Answers (fresh name.now) 0 [] result m.new b.new [] }
{
    memory::clear(&mut *m);
    if reading::names::has_zero(name) {
        memory::keep_name(&mut *b, name);
        return Ok(Did::unmoved(0));
    }
    memory::clear_name(&mut *b);
    Err(Refusal::BadName)
}

// 02, CR 2: "how many of its sessions wait", for each connection. It only reads.
pub fn waiting(m: &[u64; WORDS], b: &[u8]) -> [u64; 4]
    requires { Lent m.now b.now }
    ensures { Counts m.now b.now result }
{
    memory::tally(m)
}

// 02, CR 13: "a primary sum". It only reads.
pub fn primary(m: &[u64; WORDS], b: &[u8]) -> Ninths
    requires { Lent m.now b.now }
    ensures { Primary m.now b.now result.0 }
{
    memory::primary(m)
}

// 02, CR 5: "the caller can read that of the one on air, 5 with none". It only reads.
pub fn mux(m: &[u64; WORDS], b: &[u8]) -> u64
    requires { Lent m.now b.now }
    ensures { ReadsMux m.now b.now result }
{
    if memory::is_quiet(m) {
        return 5;
    }
    memory::mux_at(m, 0)
}

// 02, CR 6: whose section is "the one on air": 0 the primary's, 1 the insertion's. It only reads.
pub fn on_air(m: &[u64; WORDS], b: &[u8]) -> u64
    requires { Lent m.now b.now }
    ensures { ReadsFeed m.now b.now result }
{
    if memory::is_quiet(m) {
        return 0;
    }
    1
}

// The one on air: 1, connection, SessionID, start, end and time on air so far in ninths, SpliceEventID, AccessType, MuxPriorityValue; with
// none all 0. It only reads.
pub fn air(m: &[u64; WORDS], b: &[u8]) -> [u64; 9]
    requires { Lent m.now b.now }
    ensures { ReadsAir m.now b.now result }
{
    if memory::is_quiet(m) {
        return [0; 9];
    }
    let s = memory::load(m, Which::Started, 0);
    [
        1, s.conn, s.id, s.start.0, s.end.0, s.played.0, s.event, s.access, s.mux,
    ]
}

// When a tick would do anything: 2, the instant in ninths, Seconds and MicroSeconds of the first tick that reaches it; 1 and the instant,
// if no tick does; 0 with nothing due. It only reads.
pub fn due(m: &[u64; WORDS], b: &[u8]) -> [u64; 4]
    requires { Lent m.now b.now }
    ensures { ReadsDue m.now b.now result }
{
    let Some(t) = instants::upcoming(m) else {
        return [0; 4];
    };
    let up = units::up_micros(t);
    if PAST_SECONDS <= up {
        return [1, t.0, 0, 0];
    }
    [2, t.0, up / 1000000, up % 1000000]
}

// What the session `at` of a list is: of the started the first is on air.
fn state_of(which: Which, at: usize) -> u64
    ensures value { result ≡ state_of which at }
    ensures within { result ≤ 3 }
{
    match (which, at) {
        (Which::Waiting, _) => STATE_WAITING,
        (Which::Started, 0) => STATE_ON_AIR,
        (Which::Started, _) => STATE_COVERED,
    }
}

// A session as a row. Word by word: made as an array and copied, a row takes 1.7 times the time.
fn put_session(row: &mut [u64], state: u64, s: Session)
    requires row_width_in_bounds { row_width ≤ length row.old }
    requires proper { Proper s × Small s × (state ≤ 3) }
    ensures { row.new ≡ written row.old 0 (session_row state s) }
{
    row[0] = s.start.0;
    row[1] = s.end.0;
    row[2] = s.played.0;
    row[3] = s.conn + HIGH * s.id;
    row[4] = s.event + HIGH * s.prior;
    row[5] = s.access + HIGH * s.overrides;
    row[6] = s.mux + HIGH * state;
}

// The first n of a list as rows. In line, as each caller has one list: called, a row takes twice the instructions.
#[inline(always)]
fn list_sessions(m: &[u64], which: Which, n: usize, rows: &mut [u64])
    requires { Listable which n m.now rows.old }
    ensures { Lists which n m.now rows.old rows.new }
{
    for i in 0..n {
        let s = memory::load(m, which, i);
        put_session(&mut rows[i * ROW..], state_of(which, i), s);
    }
}

// The sessions that are held: the started from the highest AccessType down, then those that wait in order of start, as many as there is
// room for. How many there are. It only reads.
pub fn sessions(m: &[u64; WORDS], b: &[u8], rows: &mut [u64]) -> usize
    requires { Lent m.now b.now }
    ensures { ReadsSessions m.now b.now rows.old result rows.new }
{
    let started = memory::count(m, Which::Started);
    let waiting = memory::count(m, Which::Waiting);
    let room = rows.len() / ROW;
    let first = started.min(room);
    list_sessions(m, Which::Started, first, &mut *rows);
    let at = first * ROW;
    list_sessions(
        m,
        Which::Waiting,
        waiting.min(room - first),
        &mut rows[at..],
    );
    started + waiting
}

// 2: what each call with an output buffer tests.
#[tactic(auto, unfolding(crate::specs::Lent::room_test))]
pub fn test_room(room: usize) -> Result<(), Refusal>
    ensures { result ≡ room_test room }
{
    if room < ROOM {
        return Err(Refusal::NoRoom);
    }
    Ok(())
}

// 8: what each call with a UTC time tests.
#[tactic(auto, unfolding(crate::specs::Lent::micros_test))]
pub fn test_micros(micros: u32) -> Result<(), Refusal>
    ensures { result ≡ micros_test micros }
{
    if LAST_MICRO < micros {
        return Err(Refusal::BadMicros);
    }
    Ok(())
}

// Open: 1, 6.
pub fn open(m: &mut [u64; WORDS], b: &mut [u8], conn: u32) -> Answer
    requires { Lent m.old b.old }
    ensures { Makes (λ _. open_call conn) m.old b.old [] result m.new b.new [] }
{
    if 3 < conn {
        return Err(Refusal::NoConnection);
    }
    if memory::link(&*m, conn) != Link::Closed {
        return Err(Refusal::AlreadyOpen);
    }
    memory::set_link(&mut *m, conn, Link::Opened);
    Ok(Did::unmoved(0))
}

// 1, 2, 7: what close and message test before their work.
fn test_open(m: &[u64], conn: u32, room: usize) -> Result<(), Refusal>
    requires { Form m.now }
    ensures { result ≡ open_test conn room (see m.now).links }
{
    if 3 < conn {
        return Err(Refusal::NoConnection);
    }
    test_room(room)?;
    if memory::link(m, conn) == Link::Closed {
        return Err(Refusal::NotOpen);
    }
    Ok(())
}

// Close: 1, 2, 7. 02, CR 6: it forgets the connection's Hardware_Config.
pub fn close(m: &mut [u64; WORDS], b: &mut [u8], conn: u32, out: &mut [u8]) -> Answer
    requires { Lent m.old b.old }
    ensures { Makes (close_call conn) m.old b.old out.old result
        m.new b.new out.new }
{
    test_open(&*m, conn, out.len())?;
    let len = ends::end_all_of(&mut *m, conn as u64, &mut *out);
    memory::set_link(&mut *m, conn, Link::Closed);
    memory::forget(&mut *b, conn);
    Ok(Did::unmoved(len))
}

// 02, CR 6: "the caller lends both sections .. and gets back the one on air, as part of what was lent": the very slice, by whether a
// session has started; but of two of which one is too long that one, for 10. It is the only section that `message` needs.
pub fn map_on_air<'a>(m: &[u64; WORDS], primary: &'a [u8], insertion: &'a [u8]) -> &'a [u8]
    requires { Form m.now }
    ensures { result ≡ needed (length primary.now) (length insertion.now) (length (see m.now).queue.started)
        primary.entry insertion.entry }
{
    if SECTION < primary.len() {
        return primary;
    }
    if SECTION < insertion.len() {
        return insertion;
    }
    if memory::count(m, Which::Started) == 0 {
        return primary;
    }
    insertion
}

// Message: 1, 2, 7, 10, then 5 (header), 4, 5 (body); then the answer. l: the bytes read so far; section: what `map_on_air` gives.
pub fn message(
    m: &mut [u64; WORDS],
    b: &mut [u8],
    conn: u32,
    l: &[u8],
    section: &[u8],
    out: &mut [u8],
) -> Answer
    requires { Lent m.old b.old }
    ensures { Makes (λ room. message_call conn l.now (lending_maps section.now section.now room))
        m.old b.old out.old result m.new b.new out.new }
{
    test_open(&*m, conn, out.len())?;
    if SECTION < section.len() {
        return Err(Refusal::LongSection);
    }
    let header = reading::frame(l)?;
    let d = reading::data_of(l, header.size as usize);
    let sent = Sent {
        conn,
        id: header.id,
    };
    let did = answers::answer(&mut *m, &mut *b, sent, d, section, &mut *out);
    Ok(Did {
        consumed: 8 + header.size as usize,
        ..did
    })
}

// The clock brought to an instant in ninths: 2, 3.
pub fn bring_to(m: &mut [u64; WORDS], b: &mut [u8], until: Ninths, out: &mut [u8]) -> Answer
    requires lent { Lent m.old b.old }
    requires until_lt_horizon { until.0 < horizon }
    ensures { Makes (move_call until.0) m.old b.old out.old result
        m.new b.new out.new }
{
    test_room(out.len())?;
    let clock = memory::clock(&*m);
    if until.0 < clock.0 {
        return Err(Refusal::ClockBack);
    }
    let len = instants::run(&mut *m, until, &mut *out);
    memory::set_clock(&mut *m, until);
    Ok(Did::unmoved(len))
}

// Tick: 2, 8, 3.
pub fn tick(m: &mut [u64; WORDS], b: &mut [u8], seconds: u32, micros: u32, out: &mut [u8]) -> Answer
    requires { Lent m.old b.old }
    ensures { Makes (tick_call seconds micros) m.old b.old out.old result
        m.new b.new out.new }
{
    test_room(out.len())?;
    test_micros(micros)?;
    let until = units::from_micros(units::time_of(seconds, micros));
    bring_to(&mut *m, &mut *b, until, &mut *out)
}

// 02, CR 7: cue: 2, 8, 11. It reads the connections' states and changes nothing; the clock plays no part.
pub fn cue(m: &[u64; WORDS], b: &[u8], section: &[u8], at: Anchor, out: &mut [u8]) -> Answer
    requires { Lent m.now b.now }
    ensures { Makes (cue_call section.now at.pts at.seconds at.micros) m.now b.now
        out.old result m.now b.now out.new }
{
    test_room(out.len())?;
    test_micros(at.micros)?;
    if cues::bad_section(section) {
        return Err(Refusal::BadSection);
    }
    let len = relay::pass_on(m, section, at, &mut *out);
    Ok(Did::unmoved(len))
}
