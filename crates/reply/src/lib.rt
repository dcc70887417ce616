// What a call did, and the table of house numbers: for both engines the one form below a reply's words.
#![tactic(auto)]

ghost use Rattle.std.specs.Prelude.{◌≡◌};
ghost use Rattle.rules.specs.HouseNumbers.{house_number};
ghost use Rattle.reply.specs.Unmoved.{unmoved};

use rules::Refusal;

// The bytes consumed and written, and how many places an acceptance shifted (02, CR 11).
#[derive(Clone, Copy, Default)]
pub struct Did {
    pub consumed: usize,
    pub written: usize,
    pub moved: usize,
}

impl Did {
    // What most calls do: they write len bytes, consume none and shift no place.
    pub fn unmoved(len: usize) -> Did
        ensures { result ≡ unmoved len }
    {
        Did {
            written: len,
            ..Did::default()
        }
    }
}

// The table of house numbers. No `From`, which would have to stand beside Refusal or u8: rules declares only what the documents speak of.
#[tactic(auto, unfolding(rules::specs::HouseNumbers::house_number))]
pub fn house_number(n: Refusal) -> u8
    ensures { result ≡ house_number n }
{
    match n {
        Refusal::NoConnection => 1,
        Refusal::NoRoom => 2,
        Refusal::ClockBack => 3,
        Refusal::Oversize => 4,
        Refusal::Short => 5,
        Refusal::AlreadyOpen => 6,
        Refusal::NotOpen => 7,
        Refusal::BadMicros => 8,
        Refusal::BadName => 9,
        Refusal::Counter => 12,
        Refusal::BadSection => 11,
        Refusal::LongSection => 10,
        Refusal::NotSixteen => 16,
    }
}
