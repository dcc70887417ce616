// Document 01 once more, over an unordered list of verdicts, proved equal to `rules` (02, CR 12).
// A verdict for each request that was accepted, in no order, nothing moved or removed. 01 over verdicts stands in specs/; this file
// only declares what it speaks of. What stands twice does so on purpose: the second engine has rules of its own.
#![tactic(auto)]

use rules::Session;

// How a session stands: it is not held (about to start), waits, has started, or has ended, the how-manieth of all ends and with
// which result.
#[derive(Clone, Copy)]
pub enum Phase {
    Out,
    Waits,
    Started,
    Ended(u64, u64),
}

#[derive(Clone, Copy)]
pub struct Verdict {
    pub phase: Phase,
    pub session: Session,
}
