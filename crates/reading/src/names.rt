// "A string ends at its first zero byte; bytes after it don't count when names are compared."
ghost use Rattle.std.specs.Prelude.{◌≡◌};
ghost use Rattle.rules.specs.Bytes.{has_zero, same_name};

use super::numbers::byte_at;

// By a loop: `contains` of the library takes 91 instructions more for an Init_Request.
pub fn has_zero(l: &[u8]) -> bool
    ensures { result ≡ has_zero l.now }
{
    for x in l {
        if *x == 0 {
            return true;
        }
    }
    false
}

// Up to the first place where they differ or both end; a slice's end ends its string too.
pub fn same_name(a: &[u8], b: &[u8]) -> bool
    ensures { result ≡ same_name a.now b.now }
{
    for (i, x) in a.iter().enumerate() {
        if *x == 0 {
            return byte_at(b, i) == 0;
        }
        if *x != byte_at(b, i) {
            return false;
        }
    }
    byte_at(b, a.len()) == 0
}
