// A line of bytes in hex.
use std::fmt;
use std::fmt::Display;

// A word, and behind a space the bytes, if there are any.
#[derive(Clone, Copy)]
pub struct Line<'a> {
    pub word: &'a str,
    pub bytes: &'a [u8],
}

impl<'a> Display for Line<'a> {
    fn fmt<W: fmt::Write>(&self, f: &mut fmt::Formatter<W>) -> fmt::Result {
        write!(f, "{}", self.word)?;
        if !self.bytes.is_empty() {
            write!(f, " ")?;
        }
        for x in self.bytes {
            write!(f, "{x:02X}")?;
        }
        Ok(())
    }
}
