// What a bench recording is and what its checker finds (02, CR 14).
// The types of the definitions, for the checker to share. The definitions stand in specs/Recording, and what holds of them in
// proofs/Recordings. The only code is the line that the checker and the referee write.
#![tactic(auto)]

use std::fmt;
use std::fmt::Display;

// The entry that some bytes begin with: a call or a record, with its length; a cut one; another mark; or none.
#[derive(Clone, Copy)]
pub enum Entry {
    Made(usize),
    Wrote(usize),
    Cut,
    Another,
    End,
}

// What the checker finds, if anything: the recording is longer than it reads; the place of an unknown mark; or the first call whose
// records are not those that the rules give.
#[derive(Clone, Copy)]
pub enum Finding {
    Longer,
    Unknown(usize),
    Differs(usize),
}

// What is said of a recording, in one line: its finding, or that there is none.
#[derive(Clone, Copy)]
pub struct Said(pub Option<Finding>);

impl Display for Said {
    fn fmt<W: fmt::Write>(&self, f: &mut fmt::Formatter<W>) -> fmt::Result {
        match self.0 {
            Some(Finding::Longer) => write!(f, "refused 15"),
            Some(Finding::Unknown(at)) => write!(f, "refused 14 at {at}"),
            Some(Finding::Differs(n)) => write!(f, "call {n}"),
            None => write!(f, "none"),
        }
    }
}
