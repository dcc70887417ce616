// Sessions in a ring of places in lent words: loaded, inserted, removed, looked for.
// WIDTH words to a place: the used ones last before the place `ring_end`, and from there on to the first of them each place all
// zeros. Those that wait stand in 64 places, in order of start: one that is accepted takes the place `ring_end`, those that start
// later move one on, and the ring's end with them. The started ones stand in 10 that never come round.
#![tactic(auto)]

ghost use Rattle.std.specs.Prelude.{◌≡◌, Bool, List, ◌∷◌, ◌+◌, ◌-◌, ◌/◌, ◌≤◌, ◌<◌, length, drop, set, get_or};
ghost use Rattle.rules.specs.declared.Session.{Session};
ghost use Rattle.rules.specs.Lists.{omit, place, insert_at, remove_at};
ghost use Rattle.rules.specs.State.{empty, of};
ghost use Rattle.rules.specs.Follows.Wires.{Sorted};
ghost use Rattle.rules.specs.Instants.{on_air};
ghost use Rattle.places.specs.Places.{width, capacity, Row, places, spare, round, turned, Ring, next, lot, used, moved};
ghost use Rattle.places.specs.Places.{session_of, Narrow, Good, Made, key_test, starts_from, least_end, flagged, unflagged, Unflagged};

use rules::{Ninths, Session};

// The words of a place, and which of them is which field; ASKED is OverridePlaying, twice what is asked of the multiplexer, and 256 times
// the SpliceEventID.
pub const WIDTH: usize = 8;

// How many places a ring has, and their words.
const ROUND: usize = 64;

const RING_WORDS: usize = ROUND * WIDTH;

const CONN: usize = 0;

const ID: usize = 1;

const PRIOR: usize = 2;

const START: usize = 3;

const END: usize = 4;

const ACCESS: usize = 5;

const ASKED: usize = 6;

const PLAYED: usize = 7;

// What a search looks for. `key_test` of specs/ names the test of each; with a closure `find` could promise only what its calls gave, and
// each caller would prove again that these are that test.
#[derive(Clone, Copy)]
pub enum Key {
    Held(u64, u64),
    Follows(u64, u64),
}

// The n sessions that lent words hold, to read: those used of the places that end before the place `ring_end`. What goes round asks besides
// that they are a ring, which places that never come round need not be.
#[derive(Clone, Copy)]
pub struct View<'a> {
    pub q: &'a [u64],
    pub ring_end: usize,
    pub n: usize,
    pub ghost good: { Good (lot q.now ring_end n) },
}

// The session in the words from b on, the first of a place.
fn read_row(q: &[u64], b: usize) -> Session
    requires { Row b q.now }
    ensures is { result ≡ get_or (places q.now) (b / width) empty }
    ensures narrow { Narrow result }
{
    let asked = q[b + ASKED];
    Session {
        conn: q[b + CONN],
        id: q[b + ID],
        prior: q[b + PRIOR],
        start: Ninths(q[b + START]),
        end: Ninths(q[b + END]),
        access: q[b + ACCESS],
        overrides: asked % 2,
        mux: asked / 2 % 128,
        event: asked / 256,
        played: Ninths(q[b + PLAYED]),
    }
}

// x in the words from b on, the first of a place.
fn write_row(q: &mut [u64], b: usize, x: Session)
    requires row { Row b q.old }
    requires narrow { Narrow x }
    ensures list { places q.new ≡ set (places q.old) (b / width) x }
    ensures rest { spare q.new ≡ spare q.old }
{
    q[b + CONN] = x.conn;
    q[b + ID] = x.id;
    q[b + PRIOR] = x.prior;
    q[b + START] = x.start.0;
    q[b + END] = x.end.0;
    q[b + ACCESS] = x.access;
    q[b + ASKED] = x.overrides + 2 * x.mux + 256 * x.event;
    q[b + PLAYED] = x.played.0;
}

// The place i of the ring, counted from `ring_end`, used or free.
fn read_at(q: &[u64], ring_end: usize, i: usize) -> Session
    requires ring { Ring (capacity q.now) ring_end }
    requires i_bound { i < capacity q.now }
    ensures is { result ≡ get_or (turned ring_end (places q.now)) i empty }
    ensures narrow { Narrow result }
{
    read_row(q, (ring_end + i) % ROUND * WIDTH)
}

// x there.
fn write_at(q: &mut [u64], ring_end: usize, i: usize, x: Session)
    requires ring { Ring (capacity q.old) ring_end }
    requires i_bound { i < capacity q.old }
    requires narrow { Narrow x }
    ensures list { turned ring_end (places q.new) ≡ set (turned ring_end (places q.old)) i x }
    ensures rest { spare q.new ≡ spare q.old }
{
    write_row(&mut *q, (ring_end + i) % ROUND * WIDTH, x)
}

// The first of places that never come round has played d ninths more.
pub fn play(q: &mut [u64], n: usize, d: u64)
    requires good { Good (lot q.old 0 n) }
    requires n_nonzero { 0 < n }
    requires d_bound { (get_or (used (lot q.old 0 n)) 0 empty).played.0 + d < 18446744073709551616 }
    ensures { Made q.old q.new 0 n (on_air d (used (lot q.old 0 n))) }
{
    let b = (q.len() / WIDTH - n) * WIDTH;
    q[b + PLAYED] += d;
}

// What writes takes the words, and no View that lends them: between two writes a place is a hole, and its invariant would not hold.

// The session `from` in place of the session `to` too.
fn move_to(q: &mut [u64], ring_end: usize, n: usize, from: usize, to: usize)
    requires good { Good (lot q.old ring_end n) }
    requires ring { Ring (capacity q.old) ring_end }
    requires from_lt_n { (from < n) × (to < n) }
    ensures { Made q.old q.new ring_end n (moved from to (used (lot q.old ring_end n))) }
{
    if from == to {
        return;
    }
    let free = q.len() / WIDTH - n;
    let x = read_at(&*q, ring_end, free + from);
    write_at(&mut *q, ring_end, free + to, x)
}

// x before the session `at`, and the ring's end one on: those from `at` on move one place on, and those before it stay. How many moved.
pub fn insert_at(q: &mut [u64], ring_end: usize, n: usize, at: usize, x: Session) -> usize
    requires good { Good (lot q.old ring_end n) }
    requires q_value { (capacity q.old ≡ round) × (ring_end < round) × (at ≤ n) × (n < round) }
    requires narrow { Narrow x }
    ensures made { Made q.old q.new (next ring_end) (n + 1) (insert_at at x (used (lot q.old ring_end n))) }
    ensures moves { result ≡ n - at }
{
    let mut hole = ring_end * WIDTH;
    let mut moves: usize = 0;
    for _later in at..n {
        let before = (hole + RING_WORDS - WIDTH) % RING_WORDS;
        let y = read_row(&*q, before);
        write_row(&mut *q, hole, y);
        hole = before;
        moves += 1;
    }
    write_row(&mut *q, hole, x);
    moves
}

// x before the first, in places that never come round: it takes the last of the free ones, and no other moves.
pub fn push(q: &mut [u64], n: usize, x: Session)
    requires good { Good (lot q.old 0 n) }
    requires n_bound { n < capacity q.old }
    requires narrow { Narrow x }
    ensures { Made q.old q.new 0 (n + 1) (x ∷ used (lot q.old 0 n)) }
{
    let last_free = q.len() / WIDTH - n - 1;
    write_row(&mut *q, last_free * WIDTH, x)
}

// Without the session `at`: those before it move one place away from the free ones, and the place that gets free is cleared.
pub fn remove_at(q: &mut [u64], ring_end: usize, n: usize, at: usize)
    requires good { Good (lot q.old ring_end n) }
    requires ring { Ring (capacity q.old) ring_end }
    requires at_lt_n { at < n }
    ensures { Made q.old q.new ring_end (n - 1) (remove_at at (used (lot q.old ring_end n))) }
{
    let first = q.len() / WIDTH - n;
    let mut hole = (ring_end + (first + at)) % ROUND * WIDTH;
    for _passed in 0..at {
        let before = (hole + RING_WORDS - WIDTH) % RING_WORDS;
        let y = read_row(&*q, before);
        write_row(&mut *q, hole, y);
        hole = before;
    }
    write_row(&mut *q, hole, Session::default())
}

// Without the first k.
fn drop_first(q: &mut [u64], ring_end: usize, n: usize, k: usize)
    requires good { Good (lot q.old ring_end n) }
    requires ring { Ring (capacity q.old) ring_end }
    requires k_le_n { k ≤ n }
    ensures { Made q.old q.new ring_end (n - k) (drop k (used (lot q.old ring_end n))) }
{
    for i in 0..k {
        remove_at(&mut *q, ring_end, n - i, 0);
    }
}

// Whether the session in the words from b on is one that the key looks for.
fn matches_row(q: &[u64], b: usize, key: Key) -> bool
    requires { Row b q.now }
    ensures { result ≡ key_test key (get_or (places q.now) (b / width) empty) }
{
    match key {
        Key::Held(conn, id) => id == q[b + ID] && conn == q[b + CONN],
        Key::Follows(conn, id) => id == q[b + PRIOR] && conn == q[b + CONN],
    }
}

// Which sessions of a list go, where the others close up.
trait Goes {
    // What is asked of the list; and of that list, which of its sessions go.
    ghost fits: { Self → List Session → Type 0 };

    ghost gone: { Self → List Session → Session → Bool };

    // The session `at`, which still stands where it stood in u.
    fn goes(&self, v: View<'_>, at: usize) -> bool
        requires ring { Ring (capacity v.q.now) v.ring_end }
        requires at_lt_n { at < v.n }
        ensures { (u : List Session) → fits self.now u → at < length u
            → get_or (used (lot v.entry.q.now v.entry.ring_end v.entry.n)) at empty ≡ get_or u at empty
            → result ≡ gone self.now u (get_or u at empty) };
}

// Those of a connection.
#[derive(Clone, Copy)]
struct Of(u64);

impl Goes for Of {
    ghost fits = { λ _ _. Unit {0} };

    ghost gone = { λ o _ s. of o.0 s };

    fn goes(&self, v: View<'_>, at: usize) -> bool {
        self.0 == v.conn_at(at)
    }
}

// Of a list in order of start, those whose flag is 1.
#[derive(Clone, Copy)]
struct Flagged<'a>(&'a [u8; 64]);

impl Goes for Flagged<'_> {
    ghost fits = { λ _ u. Sorted u };

    ghost gone = { λ f u s. flagged f.0.now u s };

    fn goes(&self, _v: View<'_>, at: usize) -> bool {
        1 == self.0[at]
    }
}

// Without those that go, none of which stands from the place `end` on: the `stay` others close up, from the last on. A while, as it ends
// where all that stay have closed up, and looks at none before.
fn close_up<G: Goes>(q: &mut [u64], ring_end: usize, n: usize, who: &G, end: usize, stay: usize)
    requires good { Good (lot q.old ring_end n) }
    requires ring { Ring (capacity q.old) ring_end }
    requires fits { G.fits who.now (used (lot q.old ring_end n)) }
    requires end_le_n { end ≤ n }
    requires rest { drop end (used (lot q.old ring_end n))
        ≡ omit (G.gone who.now (used (lot q.old ring_end n))) (drop end (used (lot q.old ring_end n))) }
    requires stay_value { stay ≡ length (omit (G.gone who.now (used (lot q.old ring_end n))) (used (lot q.old ring_end n))) }
    ensures { Made q.old q.new ring_end stay
        (omit (G.gone who.now (used (lot q.old ring_end n))) (used (lot q.old ring_end n))) }
{
    let mut to = end;
    let mut from = end;
    while n - stay < to {
        from -= 1;
        let v = View {
            q: &*q,
            ring_end,
            n,
        };
        if !who.goes(v, from) {
            to -= 1;
            move_to(&mut *q, ring_end, n, from, to);
        }
    }
    drop_first(&mut *q, ring_end, n, n - stay)
}

// Without the connection's: the `left` others close up.
pub fn omit_of(q: &mut [u64], ring_end: usize, n: usize, conn: u64, left: usize)
    requires good { Good (lot q.old ring_end n) }
    requires ring { Ring (capacity q.old) ring_end }
    requires left_value { left ≡ length (omit (of conn) (used (lot q.old ring_end n))) }
    ensures { Made q.old q.new ring_end left (omit (of conn) (used (lot q.old ring_end n))) }
{
    close_up(&mut *q, ring_end, n, &Of(conn), n, left)
}

// Of sessions in order of start, without those whose flag is 1, none of which stands from the place `end` on: the `stay` others close up.
pub fn omit_flagged(
    q: &mut [u64],
    ring_end: usize,
    n: usize,
    flags: &[u8; 64],
    end: usize,
    stay: usize,
)
    requires good { Good (lot q.old ring_end n) }
    requires ring { Ring (capacity q.old) ring_end }
    requires sorted { Sorted (used (lot q.old ring_end n)) }
    requires unflagged { Unflagged flags.now end (used (lot q.old ring_end n)) }
    requires stay_value { stay ≡ length (unflagged flags.now (used (lot q.old ring_end n))) }
    ensures { Made q.old q.new ring_end stay
        (unflagged flags.now (used (lot q.old ring_end n))) }
{
    close_up(&mut *q, ring_end, n, &Flagged(flags), end, stay)
}

impl View<'_> {
    // The first word of the session `at`.
    fn row(self, at: usize) -> usize
        requires ring { Ring (capacity self.q.now) self.ring_end }
        requires at_lt_n { at < self.n }
        ensures row { Row result self.entry.q.now }
        ensures is { session_of (λ k. get_or self.entry.q.now (result + k) 0)
            ≡ get_or (used (lot self.entry.q.now self.entry.ring_end self.entry.n)) at empty }
    {
        (self.ring_end + (self.q.len() / WIDTH - self.n + at)) % ROUND * WIDTH
    }

    // The same in places that never come round: a step less where the started are looked through at each tick.
    fn flat_row(self, at: usize) -> usize
        requires at_lt_n { at < self.n }
        requires flat { self.ring_end ≡ 0 }
        ensures row { Row result self.entry.q.now }
        ensures is { session_of (λ k. get_or self.entry.q.now (result + k) 0)
            ≡ get_or (used (lot self.entry.q.now self.entry.ring_end self.entry.n)) at empty }
    {
        (self.q.len() / WIDTH - self.n + at) * WIDTH
    }

    // The session `at`.
    pub fn load(self, at: usize) -> Session
        requires ring { Ring (capacity self.q.now) self.ring_end }
        requires at_lt_n { at < self.n }
        ensures is { result ≡ get_or (used (lot self.entry.q.now self.entry.ring_end self.entry.n)) at empty }
        ensures narrow { Narrow result }
    {
        read_row(self.q, self.row(at))
    }

    // One word of a session each, which is all that is read: a function that takes which word would not say what it gives.

    // The connection of the session `at`.
    pub fn conn_at(self, at: usize) -> u64
        requires ring { Ring (capacity self.q.now) self.ring_end }
        requires at_lt_n { at < self.n }
        ensures { result ≡ (get_or (used (lot self.entry.q.now self.entry.ring_end self.entry.n)) at empty).conn }
    {
        self.q[self.row(at) + CONN]
    }

    // The number of the session `at`.
    pub fn id_at(self, at: usize) -> u64
        requires ring { Ring (capacity self.q.now) self.ring_end }
        requires at_lt_n { at < self.n }
        ensures { result ≡ (get_or (used (lot self.entry.q.now self.entry.ring_end self.entry.n)) at empty).id }
    {
        self.q[self.row(at) + ID]
    }

    // The start of the session `at`.
    pub fn start_at(self, at: usize) -> Ninths
        requires ring { Ring (capacity self.q.now) self.ring_end }
        requires at_lt_n { at < self.n }
        ensures { result ≡ (get_or (used (lot self.entry.q.now self.entry.ring_end self.entry.n)) at empty).start }
    {
        Ninths(self.q[self.row(at) + START])
    }

    // What the session `at` asks of the multiplexer, in places that never come round.
    pub fn mux_at(self, at: usize) -> u64
        requires at_lt_n { at < self.n }
        requires flat { self.ring_end ≡ 0 }
        ensures { result ≡ (get_or (used (lot self.entry.q.now self.entry.ring_end self.entry.n)) at empty).mux }
    {
        self.q[self.flat_row(at) + ASKED] / 2 % 128
    }

    // The end of the session `at`, in places that never come round.
    pub fn end_at(self, at: usize) -> Ninths
        requires at_lt_n { at < self.n }
        requires flat { self.ring_end ≡ 0 }
        ensures { result ≡ (get_or (used (lot self.entry.q.now self.entry.ring_end self.entry.n)) at empty).end }
    {
        Ninths(self.q[self.flat_row(at) + END])
    }

    // The place of the first that the key looks for, or n.
    pub fn find(self, key: Key) -> usize
        requires ring { Ring (capacity self.q.now) self.ring_end }
        ensures { result ≡ place (key_test key) (used (lot self.entry.q.now self.entry.ring_end self.entry.n)) }
    {
        // b goes along with `at`: `row(at)` at each turn takes one instruction more a place, 757 for 697 at a start that fails over 64.
        let mut b = (self.ring_end + (self.q.len() / WIDTH - self.n)) % ROUND * WIDTH;
        for at in 0..self.n {
            if matches_row(self.q, b, key) {
                return at;
            }
            b = (b + WIDTH) % RING_WORDS;
        }
        self.n
    }

    // The place of the first that starts at t or later, or n, of sessions in order of start. Halved by hand: `partition_point` takes a
    // slice, and a ring of rows is none.
    pub fn find_from(self, t: Ninths) -> usize
        requires ring { Ring (capacity self.q.now) self.ring_end }
        requires sorted { Sorted (used (lot self.q.now self.ring_end self.n)) }
        ensures { result ≡ place (starts_from t.0) (used (lot self.entry.q.now self.entry.ring_end self.entry.n)) }
    {
        let mut low: usize = 0;
        let mut high = self.n;
        while low < high {
            let mid = low + (high - low) / 2;
            let s = self.start_at(mid);
            if s.0 < t.0 {
                low = mid + 1;
            } else {
                high = mid;
            }
        }
        low
    }

    // The place of the session that ends first; of several that end together the first. In places that never come round.
    pub fn least_end(self) -> usize
        requires n_nonzero { 0 < self.n }
        requires flat { self.ring_end ≡ 0 }
        ensures { result ≡ least_end (used (lot self.entry.q.now self.entry.ring_end self.entry.n)) }
    {
        let mut best = 0;
        for i in 1..self.n {
            let t = self.end_at(i);
            let least = self.end_at(best);
            if t.0 < least.0 {
                best = i;
            }
        }
        best
    }
}
