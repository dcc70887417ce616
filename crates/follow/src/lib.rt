// The referee: a bench recording of any length is followed piece by piece, as it comes.
// All that is known between two pieces is lent: the splicer, what is due of the last call, the bytes of an entry that is not whole yet, and
// the stage.
#![tactic(auto)]

ghost use Rattle.std.specs.Prelude.{◌≡◌, ℕ, ◌<◌, ◌≤◌, List, [], ◌∷◌, length};
ghost use Rattle.rules.specs.Calls.{fresh};
ghost use Rattle.engine.specs.Lent.{Answers};
ghost use Rattle.recording.specs.declared.Entry.TheVariants.{Made, Wrote, Another};
ghost use Rattle.recording.specs.Recording.{entry_in};
ghost use Rattle.follow.specs.Refereed.{in_order, said};
ghost use Rattle.follow.specs.Following.{Stands, told_as, Steps, Runs, Holds, first, Begins, Takes, Feeds};
ghost use Rattle.follow.specs.Following.{verdict_of, told_by, end_kind, end_by};

use engine::Answer;
use judge::{ROOM, begins_with, entry_at, made};
use memory::{BYTES, WORDS};
use recording::Entry;
use std::num::wrapping_add_usize;

// The longest entry: a mark, a header and 4,088 bytes.
pub const KEPT: usize = 4098;

// What may be found: all is in order, a call whose records are not those due, an unknown mark, a cut last entry.
// Numbers and no enum: they are words that C lends and reads, and stage_in and Feeds speak of a stage of any words.
pub const IN_ORDER: usize = 0;

pub const A_CALL: usize = 1;

pub const A_MARK: usize = 2;

const CUT: usize = 3;

// What was told, or 0; the number of the last call and the place of its mark; the place of the next entry; from where to where in the
// buffer what is still due stands; and how many bytes of the next entry are kept. Numbers and places are counted modulo 2^64.
#[derive(Clone, Copy, Default)]
pub struct Stage {
    pub told: usize,
    pub number: usize,
    pub mark: usize,
    pub at: usize,
    pub from: usize,
    pub end: usize,
    pub have: usize,
}

#[derive(Clone, Copy)]
pub struct Verdict {
    pub kind: usize,
    pub number: usize,
    pub place: usize,
    pub good: usize,
}

// Behind some bytes: how many of them were gone through, none if they are no whole entry. No Option: run adds them up, and the promise of
// each step is that of the bytes that it took, 0 of them too.
#[derive(Clone, Copy)]
struct Went {
    taken: usize,
    stage: Stage,
}

// 9 for a name without a zero, which gives the referee of an empty name. What the buffers hold does not count.
pub fn fresh(name: &[u8; 32], m: &mut [u64; WORDS], b: &mut [u8; BYTES]) -> Answer
    ensures answers { Answers (fresh name.now) 0 [] result m.new b.new [] }
    ensures by_index { (o k : List ℕ) → length k ≡ 4098 → Begins name.now first m.new b.new o k }
{
    engine::fresh(name, &mut *m, &mut *b)
}

// Before any byte.
pub fn first() -> Stage
    ensures { result ≡ first }
{
    Stage::default()
}

fn as_told(s: Stage, kind: usize) -> Stage
    ensures { result ≡ told_as kind s }
{
    Stage { told: kind, ..s }
}

// A call of n bytes is made, refused or not, unless something of the one before is still due.
fn called(
    l: &[u8],
    n: usize,
    s: Stage,
    m: &mut [u64; WORDS],
    b: &mut [u8; BYTES],
    due: &mut [u8; ROOM],
) -> Went
    requires stands { Stands s m.old b.old due.old }
    requires told_value { s.told ≡ in_order }
    requires l_value { entry_in l.now ≡ Made n }
    ensures { Steps s l.now m.old b.old due.old result
        m.new b.new due.new }
{
    if s.from < s.end {
        return Went {
            taken: n,
            stage: as_told(s, A_CALL),
        };
    }
    let end = made(l, &mut *m, &mut *b, &mut *due);
    let stage = Stage {
        number: wrapping_add_usize(s.number, 1),
        mark: s.at,
        at: wrapping_add_usize(s.at, n),
        from: 0,
        end,
        ..s
    };
    Went { taken: n, stage }
}

// A record of n bytes is the beginning of what is due, or its call differs.
fn compared(l: &[u8], n: usize, s: Stage, due: &[u8]) -> Went
    requires from_le_end { s.from ≤ s.end }
    requires end_in_bounds { s.end ≤ length due.now }
    requires told_value { s.told ≡ in_order }
    requires l_value { entry_in l.now ≡ Wrote n }
    ensures { (m b : List ℕ) → Stands s m b due.now → Steps s l.now m b due.now result m b due.now }
{
    if begins_with(&l[..n], &due[s.from..s.end]) {
        let stage = Stage {
            at: wrapping_add_usize(s.at, n),
            from: s.from + n,
            ..s
        };
        return Went { taken: n, stage };
    }
    Went {
        taken: n,
        stage: as_told(s, A_CALL),
    }
}

// An unknown mark is judged as the end: the call, if something of it is still due.
fn strange(s: Stage) -> Went
    requires { s.told ≡ in_order }
    ensures { (l m b o : List ℕ) → entry_in l ≡ Another → Stands s m b o → Steps s l m b o result m b o }
{
    let kind = if s.from < s.end { A_CALL } else { A_MARK };
    Went {
        taken: 1,
        stage: as_told(s, kind),
    }
}

// The entry that l begins with, if it is whole.
fn step(l: &[u8], s: Stage, m: &mut [u64; WORDS], b: &mut [u8; BYTES], due: &mut [u8; ROOM]) -> Went
    requires stands { Stands s m.old b.old due.old }
    requires told_value { s.told ≡ in_order }
    ensures { Steps s l.now m.old b.old due.old result
        m.new b.new due.new }
{
    match entry_at(l) {
        Entry::Made(n) => called(l, n, s, &mut *m, &mut *b, &mut *due),
        Entry::Wrote(n) => compared(l, n, s, &*due),
        Entry::Another => strange(s),
        Entry::Cut | Entry::End => Went { taken: 0, stage: s },
    }
}

// All whole entries of l, where they lie, until something is told.
fn run(l: &[u8], s: Stage, m: &mut [u64; WORDS], b: &mut [u8; BYTES], due: &mut [u8; ROOM]) -> Went
    requires stands { Stands s m.old b.old due.old }
    requires told_value { s.told ≡ in_order }
    ensures { Runs s l.now m.old b.old due.old result
        m.new b.new due.new }
{
    // No iterator: each step takes as many bytes as its entry has.
    let mut t = s;
    let mut at = 0;
    loop {
        let w = step(&l[at..], t, &mut *m, &mut *b, &mut *due);
        t = w.stage;
        at += w.taken;
        if w.taken == 0 || t.told != IN_ORDER {
            return Went {
                taken: at,
                stage: t,
            };
        }
    }
}

// One byte more of an entry that is not whole yet.
fn byte(
    x: u8,
    s: Stage,
    m: &mut [u64; WORDS],
    b: &mut [u8; BYTES],
    due: &mut [u8; ROOM],
    kept: &mut [u8],
) -> Went
    requires holds { Holds s m.old b.old due.old kept.old }
    requires told_value { s.told ≡ in_order }
    requires kept_len { length kept.old ≡ 4098 }
    ensures taken_value { result.taken ≡ 1 }
    ensures feeds { Feeds s (x ∷ []) m.old b.old due.old kept.old result.stage
        m.new b.new due.new kept.new }
{
    kept[s.have] = x;
    let end = s.have + 1;
    let w = run(&kept[..end], s, &mut *m, &mut *b, &mut *due);
    let have = if w.taken == 0 { end } else { 0 };
    Went {
        taken: 1,
        stage: Stage { have, ..w.stage },
    }
}

// The whole entries where they lie, if nothing is kept of the first; else one byte.
fn next(
    l: &[u8],
    s: Stage,
    m: &mut [u64; WORDS],
    b: &mut [u8; BYTES],
    due: &mut [u8; ROOM],
    kept: &mut [u8],
) -> Went
    requires holds { Holds s m.old b.old due.old kept.old }
    requires told_value { s.told ≡ in_order }
    requires kept_len { length kept.old ≡ 4098 }
    requires l_nonzero { 0 < length l.now }
    ensures { Takes s l.now m.old b.old due.old kept.old result
        m.new b.new due.new kept.new }
{
    if s.have != 0 {
        return byte(l[0], s, &mut *m, &mut *b, &mut *due, &mut *kept);
    }
    let w = run(l, s, &mut *m, &mut *b, &mut *due);
    if w.taken == 0 {
        return byte(l[0], s, &mut *m, &mut *b, &mut *due, &mut *kept);
    }
    w
}

// A piece, of any length. Once something is told, further bytes change nothing.
pub fn feed(
    p: &[u8],
    s: Stage,
    m: &mut [u64; WORDS],
    b: &mut [u8; BYTES],
    due: &mut [u8; ROOM],
    kept: &mut [u8; KEPT],
) -> Stage
    requires { Holds s m.old b.old due.old kept.old }
    ensures { Feeds s p.now m.old b.old due.old kept.old result
        m.new b.new due.new kept.new }
{
    let mut t = s;
    let mut i = 0;
    // No iterator: each turn takes as many bytes as its entries have.
    while i < p.len() {
        if t.told != IN_ORDER {
            return t;
        }
        let w = next(&p[i..], t, &mut *m, &mut *b, &mut *due, &mut *kept);
        t = w.stage;
        i += w.taken;
    }
    t
}

// Of a call: the place of its mark, and the calls before it. Of all else: the place of the entry, and the calls so far.
fn say(kind: usize, s: Stage) -> Verdict
    ensures { result ≡ verdict_of (said kind s.number s.mark s.at) }
{
    if kind == A_CALL {
        return Verdict {
            kind,
            number: s.number,
            place: s.mark,
            good: s.number.saturating_sub(1),
        };
    }
    Verdict {
        kind,
        number: s.number,
        place: s.at,
        good: s.number,
    }
}

// What is told so far: in order, as long as it is.
pub fn told(s: Stage) -> Verdict
    ensures { result ≡ told_by s }
{
    say(s.told, s)
}

// "A cut last record is dropped", and nothing is asked there.
fn end_kind(s: Stage) -> usize
    ensures { result ≡ end_kind s }
{
    if s.told != IN_ORDER {
        return s.told;
    }
    if s.have != 0 {
        return CUT;
    }
    if s.from < s.end {
        return A_CALL;
    }
    IN_ORDER
}

// What is found if the recording ends here.
pub fn end(s: Stage) -> Verdict
    ensures { result ≡ end_by s }
{
    say(end_kind(s), s)
}
