// CRC_32 of a section, bit by bit: no table.
ghost use Rattle.std.specs.Prelude.{◌≡◌};
ghost use Rattle.rules.specs.Crc.{crc_bit, crc_byte, crc};
ghost use Rattle.cues.specs.Turns.{turns};

// A bit into the register, which has the data's bit in its highest one already: what is left to take differs from it, or not.
#[tactic(auto, unfolding(rules::specs::Crc::crc_bit))]
fn turn(c: u32) -> u32
    ensures { result ≡ crc_bit c 0 }
{
    let d = (c as u64 * 2 % 4294967296) as u32;
    if c / 2147483648 == 0 {
        return d;
    }
    0x04C11DB7 ^ d
}

// Four bits.
#[tactic(auto, unfolding(crate::specs::Turns::turns))]
fn four_turns(c: u32) -> u32
    ensures { result ≡ turns 4 c }
{
    let one = turn(c);
    let two = turn(one);
    let three = turn(two);
    turn(three)
}

// A byte, its highest bit first. All eight go into the register's highest bits at once; without a loop, in which a compiler would see a
// table's work.
#[tactic(auto, using(crate::proofs::Register::byte_turns))]
fn byte_in(c: u32, b: u8) -> u32
    ensures { result ≡ crc_byte c b }
{
    let r = c ^ (b as u32 * 16777216);
    let half = four_turns(r);
    four_turns(half)
}

// The register behind all bytes: 0 behind a section with a right CRC_32.
#[tactic(auto, using(crate::proofs::Register::from_step, crate::proofs::Register::from_none), unfolding(rules::specs::Crc::crc))]
pub fn crc_of(l: &[u8]) -> u32
    ensures { result ≡ crc l.now }
{
    let mut c = 0xFFFFFFFF;
    for b in l {
        c = byte_in(c, *b);
    }
    c
}
