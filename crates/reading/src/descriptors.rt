// "A descriptor reader stays on the message's own bytes and moves from one descriptor to the next."
ghost use Rattle.std.specs.Prelude.{◌≡◌, ◌+◌, ◌≤◌, length, drop};
ghost use Rattle.rules.specs.Descriptors.{is_mux, mux_of};
ghost use Rattle.reading.specs.Walk.{step_at};

use super::numbers::{byte_at, number4};

// What stands at a place (02, CR 5): a muxpriority descriptor, with its value and the place behind it; a foreign one, with the place behind
// it; the end; or what is no good descriptor. One type and no Option of a Result: `found_all` speaks of a list of these four answers.
#[derive(Clone, Copy)]
pub enum Descriptor {
    Mux(u8, usize),
    Foreign(usize),
    End,
    Bad,
}

// 000, Table 8-11: the tag and the identifier, "SAPI", of a muxpriority descriptor.
const MUX_TAG: u8 = 0x02;

const SAPI: u32 = 0x53415049;

// "without one the value is 5"
const AVERAGE: u8 = 5;

// Whether the descriptor that d begins with is muxpriority. Its identifier is looked at only where it is known to be there.
fn is_mux(d: &[u8]) -> bool
    requires { 6 ≤ length d.now }
    ensures { result ≡ is_mux d.now }
{
    d[0] == MUX_TAG && number4(d, 2) == SAPI
}

// The one place that looks at a descriptor: "Length counts what follows it, is 4 to 254"; "the length must be 5 and the value 1 to 10".
#[tactic(auto, unfolding(crate::specs::Walk::step_at))]
pub fn step(l: &[u8], at: usize) -> Descriptor
    ensures { result ≡ step_at l.now at }
{
    if l.len() <= at {
        return Descriptor::End;
    }
    let d = &l[at..];
    // A descriptor that is cut before its length counts as one of length 0.
    let size = usize::from(byte_at(d, 1));
    if !(4..=254).contains(&size) || d.len() < 2 + size {
        return Descriptor::Bad;
    }
    let next = at + (2 + size);
    if !is_mux(d) {
        return Descriptor::Foreign(next);
    }
    if size != 5 || !(1..=10).contains(&d[6]) {
        return Descriptor::Bad;
    }
    Descriptor::Mux(d[6], next)
}

// The descriptors' bytes as they stand in the message, and a place in them. Its functions are thin: `step` has the work. No Iterator:
// the document asks for a reader that says where it goes on, and `found_all` speaks of the places.
#[derive(Clone, Copy)]
pub struct Reader<'a> {
    pub src: &'a [u8],
    pub at: usize,
}

impl<'a> Reader<'a> {
    // At the first descriptor.
    pub fn new(src: &'a [u8]) -> Reader<'a>
        ensures { (result.src ≡ src.entry) × (result.at ≡ 0) }
    {
        Reader { src, at: 0 }
    }

    // On the same bytes, at the place behind a descriptor.
    pub fn moved(self, place: usize) -> Reader<'a>
        ensures { (result.src ≡ self.entry.src) × (result.at ≡ place) }
    {
        Reader {
            src: self.src,
            at: place,
        }
    }

    // What stands at its place.
    pub fn found(self) -> Descriptor
        ensures { result ≡ step_at self.entry.src.now self.entry.at }
    {
        step(self.src, self.at)
    }
}

// What a reader finds at a place. Its callers have a slice and a number, so their proofs hold no walk.
pub fn descriptor_at(l: &[u8], place: usize) -> Descriptor
    ensures { result ≡ step_at l.now place }
{
    Reader::new(l).moved(place).found()
}

// What the descriptors ask of the multiplexer: "the last one wins". "the descriptors fill the message exactly", and each is good.
pub fn priority(l: &[u8]) -> Option<u8>
    ensures { result ≡ mux_of l.now }
{
    let mut value = AVERAGE;
    let mut at = 0;
    loop {
        match descriptor_at(l, at) {
            Descriptor::Mux(found, next) => {
                value = found;
                at = next;
            }
            Descriptor::Foreign(next) => at = next,
            Descriptor::End => return Some(value),
            Descriptor::Bad => return None,
        }
    }
}
