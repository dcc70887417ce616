// The checker of bench recordings, over a lent recording (02, CR 14).
// The recording is only read; the splicer that the calls are made on, and what is due of the last one, live in its frame.
#![tactic(auto)]

mod marks;
mod turns;

ghost use Rattle.std.specs.Prelude.{◌≡◌};
ghost use Rattle.recording.specs.Recording.{entries, start, judged, first_unknown, checked};

pub use marks::entry_at;
use memory::{BYTES, WORDS};
use recording::{Entry, Finding};
pub use turns::{ROOM, Still, begins_with, made};

// "It reads up to 65,536 bytes."
pub const LONGEST: usize = 65536;

// "an unknown mark anywhere, with its place"
pub fn first_unknown(l: &[u8]) -> Option<Finding>
    ensures { result ≡ first_unknown l.now }
{
    // No iterator: each entry takes as many bytes as it has, and the place is what is told.
    let mut at = 0;
    loop {
        match entry_at(&l[at..]) {
            Entry::Made(n) | Entry::Wrote(n) => at += n,
            Entry::Another => return Some(Finding::Unknown(at)),
            Entry::Cut | Entry::End => return None,
        }
    }
}

// From a fresh splicer: "Records before any call are call 0's", and nothing is due of it.
fn judge(l: &[u8]) -> Option<Finding>
    ensures { result ≡ judged start (entries l.now) }
{
    let mut m = [0; WORDS];
    let mut b = [0; BYTES];
    let mut due = [0; ROOM];
    let _ = engine::fresh(&feed::channel(), &mut m, &mut b);
    turns::run(l, &mut m, &mut b, &mut due)
}

// "Refusals: house number 15 for a longer recording; then 14 for an unknown mark anywhere, with its place; both before any finding."
pub fn check(l: &[u8]) -> Option<Finding>
    ensures { result ≡ checked l.now }
{
    if LONGEST < l.len() {
        return Some(Finding::Longer);
    }
    first_unknown(l).or_else(|| judge(l))
}
