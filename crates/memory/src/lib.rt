// Where what stands in the lent words and bytes of a splicer: this crate alone knows.
// Its words: the clock, how many wait, how many have started, where the ring of those that wait ends, the primary sum, how many of
// those that wait are each connection's, a word for each connection, the places of those that wait and of those that have started,
// what ended lately. Its bytes: the ChannelName with zeros behind its end, and of each connection the Hardware_Config that it keeps,
// with zeros behind its end.
// C lends the words for one call, and theorems of the crates above speak of them and of `Form`: so it stands in contracts, and in no type.
#![tactic(auto)]

ghost use Rattle.std.specs.Prelude.{◌≡◌, true, [], ◌∷◌, ◌+◌, ◌-◌, ◌≤◌, ◌<◌, eqb, length, get_or, set};
ghost use Rattle.std.proofs.Math.Seq.{paste};
ghost use Rattle.rules.specs.declared.Link.TheVariants.{Closed};
ghost use Rattle.rules.specs.Bytes.{name_in};
ghost use Rattle.rules.specs.Lists.{All, keep, omit, place, insert_at, remove_at};
ghost use Rattle.rules.specs.State.{empty, of, earliest, no_hardware};
ghost use Rattle.rules.specs.Follows.Wires.{Sorted};
ghost use Rattle.rules.specs.Recent.{most_kept, unused, recent_at, recent};
ghost use Rattle.rules.specs.Answers.{is_past, latest};
ghost use Rattle.rules.specs.Hardware.{longest_hardware, length_in, structure_in};
ghost use Rattle.rules.specs.Instants.{on_air};
ghost use Rattle.places.specs.Places.{capacity, Ring, lot, Narrow, key_test, starts_from, round, flagged, unflagged, Unflagged};
ghost use Rattle.memory.specs.declared.Which.TheVariants.{Waiting, Started};
ghost use Rattle.memory.specs.Memory.{slot_of, ring_of, lot_of, first_link, from_of, to_of, words, places_of, word_of, link_in};
ghost use Rattle.memory.specs.Memory.{sessions, see, Form, Now, timed, silenced, linked, relisted, recalling, onward, nothing_shown};
ghost use Rattle.memory.specs.Memory.{Storable, tallied, past_width, past_from, ended_in};
ghost use Rattle.memory.specs.Memory.{name_bytes, name_of, kept_of, spread, Stored, Holds, Named};

use places::{Key, View, WIDTH};
use rules::{Link, Ninths, Past, Session};

// Where what stands in the words.
const CLOCK: usize = 0;

const WAITING: usize = 1;

const STARTED: usize = 2;

const RING_END: usize = 3;

const PRIMARY: usize = 4;

const CONNECTIONS: usize = 4;

const COUNTS: usize = 5;

const LINKS: usize = COUNTS + CONNECTIONS;

const WAITING_PLACES: usize = 64;

const STARTED_PLACES: usize = 10;

const WAITING_FROM: usize = LINKS + CONNECTIONS;

const STARTED_FROM: usize = WAITING_FROM + WAITING_PLACES * WIDTH;

// What ended lately: the words of each, and behind the last the place that is written next.
pub const PASTS: usize = STARTED_FROM + STARTED_PLACES * WIDTH;

const PAST_WIDTH: usize = 5;

pub const PAST_PLACES: usize = 16;

const PAST_NEXT: usize = PAST_PLACES * PAST_WIDTH;

pub const PAST_WORDS: usize = PAST_NEXT + 1;

const NEXT: usize = PASTS + PAST_NEXT;

pub const WORDS: usize = PASTS + PAST_WORDS;

// A connection's word.
const CLOSED: u64 = 0;

const OPENED: u64 = 1;

const INITIALISED: u64 = 2;

// The bytes of the name, those of a connection's Hardware_Config, and all of them.
const NAME: usize = 32;

const HARDWARE: usize = 256;

pub const BYTES: usize = NAME + CONNECTIONS * HARDWARE;

// The lists of sessions.
// An enum and no closure: `slot_of`, `from_of`, `to_of`, `ring_of` of specs/Memory take it.
#[derive(Clone, Copy)]
pub enum Which {
    Waiting,
    Started,
}

// The word that holds how many.
fn slot(which: Which) -> usize
    ensures value { result ≡ slot_of which }
    ensures within { result < first_link }
{
    match which {
        Which::Waiting => WAITING,
        Which::Started => STARTED,
    }
}

// The first of its words.
fn from(which: Which) -> usize
    ensures value { result ≡ from_of which }
    ensures within { (from_of Waiting ≤ result) × (result ≤ from_of Started) }
{
    match which {
        Which::Waiting => WAITING_FROM,
        Which::Started => STARTED_FROM,
    }
}

// The word behind its last.
fn to(which: Which) -> usize
    ensures value { result ≡ to_of which }
    ensures within { (from_of Started ≤ result) × (result ≤ words) }
{
    match which {
        Which::Waiting => STARTED_FROM,
        Which::Started => PASTS,
    }
}

// The place where its ring ends: the started never come round.
fn ring_end(m: &[u64], which: Which) -> usize
    requires { Form m.now }
    ensures value { result ≡ ring_of which m.now }
    ensures within { result < round }
{
    match which {
        Which::Waiting => m[RING_END] as usize,
        Which::Started => 0,
    }
}

// How many there are.
pub fn count(m: &[u64], which: Which) -> usize
    requires { Form m.now }
    ensures { result ≡ length (sessions which m.now) }
{
    let i = slot(which);
    m[i] as usize
}

// Whether none has started, so that nothing is on air but the primary channel.
pub fn is_quiet(m: &[u64]) -> bool
    requires { Form m.now }
    ensures { result ≡ eqb (length (sessions Started m.now)) 0 }
{
    count(m, Which::Started) == 0
}

// The sessions of a list, to read.
fn view(m: &[u64], which: Which) -> View<'_>
    requires { Form m.now }
    ensures is { lot result.q.now result.ring_end result.n ≡ lot_of which m.now }
    ensures n { result.n ≡ length (sessions which m.now) }
    ensures ring_end { result.ring_end ≡ ring_of which m.now }
    ensures ring { Ring (capacity result.q.now) result.ring_end }
{
    let n = count(m, which);
    let ring_end = ring_end(m, which);
    let a = from(which);
    let e = to(which);
    View {
        q: &m[a..e],
        ring_end,
        n,
    }
}

// The session `at`.
pub fn load(m: &[u64], which: Which, at: usize) -> Session
    requires form { Form m.now }
    requires at_in_bounds { at < length (sessions which m.now) }
    ensures is { result ≡ get_or (sessions which m.now) at empty }
    ensures narrow { Narrow result }
{
    view(m, which).load(at)
}

// The connection of the session `at`.
// One word each, as `View` of places has them: a function that takes which word would not say what it gives.
pub fn conn_at(m: &[u64], which: Which, at: usize) -> u64
    requires form { Form m.now }
    requires at_in_bounds { at < length (sessions which m.now) }
    ensures { result ≡ (get_or (sessions which m.now) at empty).conn }
{
    view(m, which).conn_at(at)
}

// The number of the session `at`.
pub fn id_at(m: &[u64], which: Which, at: usize) -> u64
    requires form { Form m.now }
    requires at_in_bounds { at < length (sessions which m.now) }
    ensures { result ≡ (get_or (sessions which m.now) at empty).id }
{
    view(m, which).id_at(at)
}

// What the started session `at` asks of the multiplexer.
pub fn mux_at(m: &[u64], at: usize) -> u64
    requires form { Form m.now }
    requires at_in_bounds { at < length (sessions Started m.now) }
    ensures { result ≡ (get_or (sessions Started m.now) at empty).mux }
{
    view(m, Which::Started).mux_at(at)
}

// The end of the started session `at`.
pub fn end_at(m: &[u64], at: usize) -> Ninths
    requires form { Form m.now }
    requires at_in_bounds { at < length (sessions Started m.now) }
    ensures { result ≡ (get_or (sessions Started m.now) at empty).end }
{
    view(m, Which::Started).end_at(at)
}

// The place of the first that the key looks for, or how many there are.
pub fn find(m: &[u64], which: Which, key: Key) -> usize
    requires { Form m.now }
    ensures { result ≡ place (key_test key) (sessions which m.now) }
{
    view(m, which).find(key)
}

// 02, CR 2: how many of the waiting are each connection's, as they are kept.
pub fn tally(m: &[u64]) -> [u64; 4]
    requires { Form m.now }
    ensures { result ≡ tallied (sessions Waiting m.now) }
{
    [m[COUNTS], m[COUNTS + 1], m[COUNTS + 2], m[COUNTS + 3]]
}

// The first end of the started.
pub fn least_end(m: &[u64]) -> Option<Ninths>
    requires { Form m.now }
    ensures { result ≡ earliest (λ s. s.end) (sessions Started m.now) }
{
    if is_quiet(m) {
        return None;
    }
    let started = view(m, Which::Started);
    let i = started.least_end();
    Some(started.end_at(i))
}

// The first start of the waiting, which stand in order of start.
pub fn first_start(m: &[u64]) -> Option<Ninths>
    requires form { Form m.now }
    requires sorted { Sorted (sessions Waiting m.now) }
    ensures { result ≡ earliest (λ s. s.start) (sessions Waiting m.now) }
{
    if count(m, Which::Waiting) == 0 {
        return None;
    }
    Some(view(m, Which::Waiting).start_at(0))
}

// The first of the started has played d ninths more.
pub fn play(m: &mut [u64], d: u64)
    requires form { Form m.old }
    requires nonzero { 0 < length (sessions Started m.old) }
    requires d_bound { (get_or (sessions Started m.old) 0 empty).played.0 + d < 18446744073709551616 }
    ensures { Now m.new (relisted Started (on_air d (sessions Started m.old)) (see m.old)) }
{
    let n = count(&*m, Which::Started);
    places::play(&mut m[STARTED_FROM..PASTS], n, d)
}

// The place of the first of the waiting that starts at t or later, or how many there are; they stand in order of start.
pub fn find_start(m: &[u64], t: Ninths) -> usize
    requires form { Form m.now }
    requires sorted { Sorted (sessions Waiting m.now) }
    ensures { result ≡ place (starts_from t.0) (sessions Waiting m.now) }
{
    view(m, Which::Waiting).find_from(t)
}

// x before the session `at` of those that wait, counted for its connection, and the ring's end one on. How many places were shifted.
pub fn accept(m: &mut [u64], at: usize, x: Session) -> usize
    requires form { Form m.old }
    requires at_in_bounds { (at ≤ length (sessions Waiting m.old)) × (length (sessions Waiting m.old) < places_of Waiting) }
    requires storable { Storable x }
    ensures shows { Now m.new
        (onward true (relisted Waiting (insert_at at x (sessions Waiting m.old)) (see m.old))) }
    ensures moves { result ≡ length (sessions Waiting m.old) - at }
{
    let n = count(&*m, Which::Waiting);
    let r = ring_end(&*m, Which::Waiting);
    let moves = places::insert_at(&mut m[WAITING_FROM..STARTED_FROM], r, n, at, x);
    m[WAITING] = (n + 1) as u64;
    m[RING_END] = ((r + 1) % WAITING_PLACES) as u64;
    let c = COUNTS + x.conn as usize;
    m[c] += 1;
    moves
}

// x before the first of the started.
pub fn push(m: &mut [u64], x: Session)
    requires form { Form m.old }
    requires m_len_bound { (length (sessions Started m.old) < places_of Started) × Narrow x }
    ensures { Now m.new (relisted Started (x ∷ sessions Started m.old) (see m.old)) }
{
    let n = count(&*m, Which::Started);
    places::push(&mut m[STARTED_FROM..PASTS], n, x);
    m[STARTED] = (n + 1) as u64;
}

// Without the session `at`, which no longer counts.
pub fn remove(m: &mut [u64], which: Which, at: usize)
    requires form { Form m.old }
    requires at_in_bounds { at < length (sessions which m.old) }
    ensures { Now m.new (relisted which (remove_at at (sessions which m.old)) (see m.old)) }
{
    let whose = conn_at(&*m, which, at);
    let n = count(&*m, which);
    let r = ring_end(&*m, which);
    let a = from(which);
    let e = to(which);
    places::remove_at(&mut m[a..e], r, n, at);
    let i = slot(which);
    m[i] = (n - 1) as u64;
    if let Which::Waiting = which {
        let c = COUNTS + whose as usize;
        m[c] -= 1;
    }
}

// Without the connection's, where `left` are others'.
pub fn omit_of(m: &mut [u64], which: Which, conn: u64, left: usize)
    requires form { Form m.old }
    requires left_value { left ≡ length (omit (of conn) (sessions which m.old)) }
    requires conn_bound { conn ≤ 3 }
    ensures { Now m.new
        (relisted which (omit (of conn) (sessions which m.old)) (see m.old)) }
{
    let n = count(&*m, which);
    let r = ring_end(&*m, which);
    let a = from(which);
    let e = to(which);
    places::omit_of(&mut m[a..e], r, n, conn, left);
    let i = slot(which);
    m[i] = left as u64;
    if let Which::Waiting = which {
        let c = COUNTS + conn as usize;
        m[c] = 0;
    }
}

// Of the waiting, in order of start, without those whose flag is 1: all of them the connection's, and none from the place `end` on. The
// `left` others close up.
pub fn omit_flagged(m: &mut [u64], flags: &[u8; 64], conn: u64, end: usize, left: usize)
    requires form { Form m.old }
    requires conn_bound { conn ≤ 3 }
    requires sorted { Sorted (sessions Waiting m.old) }
    requires unflagged { Unflagged flags.now end (sessions Waiting m.old) }
    requires all { All (λ s. of conn s ≡ true) (keep (flagged flags.now (sessions Waiting m.old)) (sessions Waiting m.old)) }
    requires left_value { left ≡ length (unflagged flags.now (sessions Waiting m.old)) }
    ensures { Now m.new
        (relisted Waiting (unflagged flags.now (sessions Waiting m.old)) (see m.old)) }
{
    let n = count(&*m, Which::Waiting);
    let r = ring_end(&*m, Which::Waiting);
    places::omit_flagged(&mut m[WAITING_FROM..STARTED_FROM], r, n, flags, end, left);
    m[WAITING] = left as u64;
    let c = COUNTS + conn as usize;
    m[c] -= (n - left) as u64;
}

// The clock.
pub fn clock(m: &[u64]) -> Ninths
    requires { Form m.now }
    ensures { result.0 ≡ (see m.now).clock }
{
    Ninths(m[CLOCK])
}

// Another clock.
pub fn set_clock(m: &mut [u64], t: Ninths)
    requires { Form m.old }
    ensures { Now m.new (timed t.0 (see m.old)) }
{
    m[CLOCK] = t.0;
}

// 02, CR 13: the primary sum.
pub fn primary(m: &[u64]) -> Ninths
    requires { Form m.now }
    ensures { result.0 ≡ (see m.now).primary }
{
    Ninths(m[PRIMARY])
}

// d ninths more were the primary channel's.
pub fn silence(m: &mut [u64], d: u64)
    requires form { Form m.old }
    requires d_bound { (see m.old).primary + d < 18446744073709551616 }
    ensures { Now m.new (silenced d (see m.old)) }
{
    m[PRIMARY] += d;
}

// 02, CR 8: the place of the next that ends.
fn next_past(m: &[u64]) -> usize
    requires { Form m.now }
    ensures value { result ≡ (see m.now).queue.lately.next }
    ensures within { result < most_kept }
{
    m[NEXT] as usize
}

// One more has ended. It takes the place of the oldest, and nothing moves.
pub fn remember(m: &mut [u64], x: Past)
    requires { Form m.old }
    ensures { Now m.new (recalling x (see m.old)) }
{
    let next = next_past(&*m);
    let b = PASTS + next * PAST_WIDTH;
    m[b] = x.conn;
    m[b + 1] = x.id;
    m[b + 2] = x.event;
    m[b + 3] = x.result;
    m[b + 4] = x.played;
    m[NEXT] = ((next + 1) % PAST_PLACES) as u64;
}

// The one that ended whose words stand from the word b on.
fn past_in(e: &[u64], b: usize) -> Past
    requires { b + past_width ≤ length e.now }
    ensures { result ≡ past_from e.now b }
{
    Past {
        conn: e[b],
        id: e[b + 1],
        event: e[b + 2],
        result: e[b + 3],
        played: e[b + 4],
    }
}

// The one that ended i ends before the newest, or nothing where fewer have ended.
pub fn recent_at(m: &[u64], i: usize) -> Past
    requires form { Form m.now }
    requires i_lt_most_kept { i < most_kept }
    ensures { result ≡ recent_at i (see m.now).queue.lately }
{
    let next = next_past(m);
    let b = PASTS + (next + (PAST_PLACES - 1 - i)) % PAST_PLACES * PAST_WIDTH;
    past_in(m, b)
}

// The same of the last words alone, those of what ended, whatever they hold: fewer words keep nothing.
pub fn ended_at(e: &[u64], i: usize) -> Past
    requires { i < most_kept }
    ensures { result ≡ ended_in e.now i }
{
    if e.len() < PAST_WORDS {
        return Past::default();
    }
    let next = e[PAST_NEXT] as usize;
    let p = (next % PAST_PLACES + (PAST_PLACES - 1 - i)) % PAST_PLACES;
    past_in(e, p * PAST_WIDTH)
}

// An end is kept there, of the connection's number. No Option: that the result 0 says none is the law's (`unused`, `latest`).
// No ==: it is compared with two numbers.
fn is_past(e: Past, conn: u64, id: u64) -> bool
    ensures { result ≡ is_past conn id e }
{
    e.result != 0 && conn == e.conn && id == e.id
}

// The latest end of the connection's number, or what stands where none is kept: looked for from the newest down.
pub fn recall(m: &[u64], conn: u64, id: u64) -> Past
    requires { Form m.now }
    ensures { result ≡ latest conn id (recent (see m.now).queue.lately) }
{
    for i in 0..PAST_PLACES {
        let e = recent_at(m, i);
        if is_past(e, conn, id) {
            return e;
        }
    }
    Past::default()
}

// What a word says of its connection. No `From`: both types are others'.
fn link_in(n: u64) -> Link
    ensures { result ≡ link_in n }
{
    match n {
        CLOSED => Link::Closed,
        OPENED => Link::Opened,
        _ => Link::Initialised,
    }
}

// The word that says it.
fn word_of(l: Link) -> u64
    ensures { result ≡ word_of l }
{
    match l {
        Link::Closed => CLOSED,
        Link::Opened => OPENED,
        Link::Initialised => INITIALISED,
    }
}

// What connection c is.
pub fn link(m: &[u64], c: u32) -> Link
    requires form { Form m.now }
    requires c_bound { c ≤ 3 }
    ensures { result ≡ get_or (see m.now).links c Closed }
{
    let i = LINKS + c as usize;
    link_in(m[i])
}

// Connection c is l.
pub fn set_link(m: &mut [u64], c: u32, l: Link)
    requires form { Form m.old }
    requires c_bound { c ≤ 3 }
    ensures { Now m.new (linked c l (see m.old)) }
{
    let at = LINKS + c as usize;
    m[at] = word_of(l);
}

// Clock 0 and no time before it, all connections closed, no session, none that ended, the ring at its place 0.
pub fn clear(m: &mut [u64; WORDS])
    ensures { Now m.new nothing_shown }
{
    *m = [0; WORDS];
}

// The bytes of the name.
pub fn name(b: &[u8]) -> &[u8]
    requires { Stored b.now }
    ensures { result.now ≡ name_bytes b.now }
{
    &b[0..NAME]
}

// How many bytes stand before the first zero, or all.
fn name_len(name: &[u8]) -> usize
    ensures { result ≡ length (name_in name.now) }
{
    for (i, b) in name.iter().enumerate() {
        if *b == 0 {
            return i;
        }
    }
    name.len()
}

// The first n bytes of `name` over those of b. By `copy_from_slice` a length that is not known calls memmove, and an archive needs nothing
// but memset (docs/INTEGRATION.md).
fn copy(b: &mut [u8], name: &[u8], n: usize)
    requires { (n ≤ length name.now) × (n ≤ length b.old) }
    ensures { b.new ≡ paste b.old 0 name.now n }
{
    for i in 0..n {
        b[i] = name[i];
    }
}

// The name up to its first zero, and zeros behind it.
pub fn keep_name(b: &mut [u8; BYTES], name: &[u8; NAME])
    ensures { Named b.new (name_in name.now) }
{
    *b = [0; BYTES];
    let n = name_len(name);
    copy(&mut *b, name, n)
}

// The empty name.
pub fn clear_name(b: &mut [u8; BYTES])
    ensures { Named b.new [] }
{
    *b = [0; BYTES];
}

// 02, CR 6: the bytes of connection c, which begin with the Hardware_Config that it keeps.
pub fn kept(b: &[u8], c: u32) -> &[u8]
    requires stored { Stored b.now }
    requires c_bound { c ≤ 3 }
    ensures is { structure_in result.now ≡ get_or (kept_of b.now) c no_hardware }
    ensures whole { (2 + length_in result.now ≤ length result.now) × (length result.now ≡ longest_hardware) }
{
    let at = NAME + c as usize * HARDWARE;
    let end = at + HARDWARE;
    &b[at..end]
}

// Connection c keeps nothing.
pub fn forget(b: &mut [u8], c: u32)
    requires stored { Stored b.old }
    requires c_bound { c ≤ 3 }
    ensures { Holds b.new (name_of b.old) (set (kept_of b.old) c no_hardware) }
{
    let at = NAME + c as usize * HARDWARE;
    let end = at + HARDWARE;
    b[at..end].fill(0)
}

// The structure h over zeros.
fn put_kept(k: &mut [u8], h: &[u8])
    requires k_len { length k.old ≡ longest_hardware }
    requires h_len_bound { length h.now ≤ longest_hardware }
    ensures { k.new ≡ spread h.now }
{
    k.fill(0);
    copy(&mut *k, h, h.len())
}

// Connection c keeps the structure h, in place of any older one.
pub fn keep(b: &mut [u8], c: u32, h: &[u8])
    requires stored { Stored b.old }
    requires c_bound { c ≤ 3 }
    requires h_len { (length h.now ≡ 2 + length_in h.now) × (length h.now ≤ longest_hardware) }
    ensures { Holds b.new (name_of b.old) (set (kept_of b.old) c h.now) }
{
    let at = NAME + c as usize * HARDWARE;
    let end = at + HARDWARE;
    put_kept(&mut b[at..end], h)
}
