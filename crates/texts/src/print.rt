// What is printed of a table: numbers parted by commas, binary64 as sixteen hexadecimal digits each, parted likewise, bytes as two
// each, and nothing at all as `-`.
use refusals::Refusal;
use std::fmt;
use std::io::{self, Write};
use std::num::f64_to_bits_with_nan;

#[derive(Clone, Copy)]
pub(crate) struct Numbers<'a>(pub &'a [u32]);

#[derive(Clone, Copy)]
pub(crate) struct Values<'a>(pub &'a [f64]);

#[derive(Clone, Copy)]
pub(crate) struct Bytes<'a>(pub &'a [u8]);

impl fmt::Display for Numbers<'_> {
    fn fmt<W: fmt::Write>(&self, f: &mut fmt::Formatter<W>) -> fmt::Result {
        if self.0.is_empty() {
            return f.write_str("-");
        }
        for (i, number) in self.0.iter().enumerate() {
            write!(f, "{}{number}", before(i))?;
        }
        Ok(())
    }
}

impl fmt::Display for Values<'_> {
    fn fmt<W: fmt::Write>(&self, f: &mut fmt::Formatter<W>) -> fmt::Result {
        if self.0.is_empty() {
            return f.write_str("-");
        }
        for (i, value) in self.0.iter().enumerate() {
            write!(f, "{}{:016x}", before(i), f64_to_bits_with_nan(*value))?;
        }
        Ok(())
    }
}

impl fmt::Display for Bytes<'_> {
    fn fmt<W: fmt::Write>(&self, f: &mut fmt::Formatter<W>) -> fmt::Result {
        if self.0.is_empty() {
            return f.write_str("-");
        }
        for byte in self.0 {
            write!(f, "{byte:02x}")?;
        }
        Ok(())
    }
}

// What stands before an entry.
fn before(i: usize) -> &'static str {
    if i == 0 { "" } else { "," }
}

// A refusal, of a text or of its tables.
pub(crate) fn refused<W: Write>(out: &mut W, why: Refusal) -> io::Result<()> {
    write!(out, "REFUSED {} {}", why.number, why.place)
}
