// Entry by entry: a call is made, and what it is due to write stands in the buffer; a record is compared with what is still due there.
ghost use Rattle.std.specs.Prelude.{◌≡◌, List, [], ℕ};
ghost use Rattle.engine.specs.Lent.{Lent};
ghost use Rattle.recording.specs.declared.Entry.TheVariants.{Made, Wrote};
ghost use Rattle.recording.specs.Recording.{entry_in, entries, begins, judged};
ghost use Rattle.judge.specs.Judge.{unmet, at_end, none, bench_of, Stands, Makes, Turned};

use super::marks::entry_at;
use memory::{BYTES, WORDS};
use recording::{Entry, Finding};
use std::ops::ControlFlow;

// What the card program lends a call for its output.
pub const ROOM: usize = 4096;

// No Range: that is not Copy. m, b and due stay apart: C lends them so to the referee, which calls `made` too.
// The number of the last call, and from where to where in the buffer what is still due of it stands.
#[derive(Clone, Copy)]
pub struct Still {
    pub number: usize,
    pub from: usize,
    pub end: usize,
}

impl Still {
    // At the next call and at the end nothing may be due any more.
    fn is_unmet(self) -> bool
        ensures { result ≡ unmet self }
    {
        self.from < self.end
    }

    fn at_end(self) -> Option<Finding>
        ensures { result ≡ at_end self }
    {
        self.is_unmet().then_some(Finding::Differs(self.number))
    }
}

// After an entry: the bytes that it took and what is still due, or what is found in all.
type After = ControlFlow<Option<Finding>, (usize, Still)>;

// Whether w is the beginning of d.
pub fn begins_with(w: &[u8], d: &[u8]) -> bool
    ensures { result ≡ begins w.now d.now }
{
    d.starts_with(w)
}

// The call of an entry is made, refused or not; what is due of it stands at the start of the buffer: how long it is.
pub fn made(l: &[u8], m: &mut [u64; WORDS], b: &mut [u8; BYTES], due: &mut [u8; ROOM]) -> usize
    requires { Lent m.old b.old }
    ensures { Makes l.now m.old b.old due.old result
        m.new b.new due.new }
{
    let r = feed::take(l);
    let p = feed::play(r, &mut *m, &mut *b, l, &mut *due);
    p.len
}

// A call of n bytes, unless something of the one before is still due.
fn called(
    l: &[u8],
    n: usize,
    g: Still,
    m: &mut [u64; WORDS],
    b: &mut [u8; BYTES],
    due: &mut [u8; ROOM],
) -> After
    requires lent { Lent m.old b.old }
    requires stands { Stands g l.now due.old }
    requires l_value { entry_in l.now ≡ Made n }
    ensures { Turned (bench_of g m.old b.old due.old) l.now result
        m.new b.new due.new }
{
    if g.is_unmet() {
        return ControlFlow::Break(Some(Finding::Differs(g.number)));
    }
    let end = made(l, &mut *m, &mut *b, &mut *due);
    let s = Still {
        number: g.number + 1,
        from: 0,
        end,
    };
    ControlFlow::Continue((n, s))
}

// A record of n bytes is the beginning of what is due, or its call differs. What it says changes no splicer.
fn compared(l: &[u8], n: usize, g: Still, due: &[u8]) -> After
    requires stands { Stands g l.now due.now }
    requires l_value { entry_in l.now ≡ Wrote n }
    ensures { (m b : List ℕ) → Lent m b → Turned (bench_of g m b due.now) l.now result m b due.now }
{
    if begins_with(&l[..n], &due[g.from..g.end]) {
        let s = Still {
            from: g.from + n,
            ..g
        };
        return ControlFlow::Continue((n, s));
    }
    ControlFlow::Break(Some(Finding::Differs(g.number)))
}

// One entry: "A cut last record is dropped", and nothing is asked there.
fn turn(
    l: &[u8],
    g: Still,
    m: &mut [u64; WORDS],
    b: &mut [u8; BYTES],
    due: &mut [u8; ROOM],
) -> After
    requires lent { Lent m.old b.old }
    requires stands { Stands g l.now due.old }
    ensures { Turned (bench_of g m.old b.old due.old) l.now result
        m.new b.new due.new }
{
    match entry_at(l) {
        Entry::Made(n) => called(l, n, g, &mut *m, &mut *b, &mut *due),
        Entry::Wrote(n) => compared(l, n, g, &*due),
        Entry::Cut | Entry::Another => ControlFlow::Break(None),
        Entry::End => ControlFlow::Break(g.at_end()),
    }
}

// All entries, from a splicer of which nothing is due.
pub fn run(
    l: &[u8],
    m: &mut [u64; WORDS],
    b: &mut [u8; BYTES],
    due: &mut [u8; ROOM],
) -> Option<Finding>
    requires { Lent m.old b.old }
    ensures { result ≡ judged (bench_of none m.old b.old []) (entries l.now) }
{
    // No iterator: each turn takes as many bytes as its entry has.
    let mut at = 0;
    let mut g = Still {
        number: 0,
        from: 0,
        end: 0,
    };
    loop {
        match turn(&l[at..], g, &mut *m, &mut *b, &mut *due) {
            ControlFlow::Continue((n, s)) => {
                at += n;
                g = s;
            }
            ControlFlow::Break(found) => return found,
        }
    }
}
