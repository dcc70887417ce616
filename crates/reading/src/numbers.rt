// "All numbers are big-endian."
ghost use Rattle.std.specs.Prelude.{◌≡◌, ◌+◌, ◌≤◌, length, get_or};
ghost use Rattle.rules.specs.Bytes.{field};

// The byte there; past the end there is 0.
pub fn byte_at(l: &[u8], at: usize) -> u8
    ensures { result ≡ get_or l.now at 0 }
{
    l.get(at).copied().unwrap_or(0)
}

// One for each width, as the library has `from_be_bytes` for each.
pub fn number2(l: &[u8], at: usize) -> u16
    requires { at + 2 ≤ length l.now }
    ensures { result ≡ field at 2 l.now }
{
    u16::from_be_bytes([l[at], l[at + 1]])
}

pub fn number4(l: &[u8], at: usize) -> u32
    requires { at + 4 ≤ length l.now }
    ensures { result ≡ field at 4 l.now }
{
    u32::from_be_bytes([l[at], l[at + 1], l[at + 2], l[at + 3]])
}
