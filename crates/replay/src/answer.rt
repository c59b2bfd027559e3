// What is written: the answer to a record.
use refusals::Refusal;
use std::fmt;
use std::num::f64_to_bits_with_nan;

#[derive(Clone, Copy)]
pub(crate) enum Answer {
    Finite(bool),
    Min(f64),
    // None where the number is above those whose roots are known.
    Root(Option<f64>),
    Draw(u64),
    Order(Dealt),
    Checked(Result<(), Refusal>),
    Unknown,
}

// The first n places of an order, and the generator's state after it was dealt.
#[derive(Clone, Copy)]
pub(crate) struct Dealt {
    pub order: [u32; 12],
    pub n: usize,
    pub state: u64,
}

// Values are written as their patterns, in sixteen capital digits.
impl fmt::Display for Answer {
    fn fmt<W: fmt::Write>(&self, f: &mut fmt::Formatter<W>) -> fmt::Result {
        match self {
            Answer::Finite(finite) => write!(f, "finite {}", u8::from(*finite)),
            Answer::Min(least) => write!(f, "min {:016X}", f64_to_bits_with_nan(*least)),
            Answer::Root(Some(root)) => write!(f, "root {:016X}", f64_to_bits_with_nan(*root)),
            Answer::Root(None) => f.write_str("root "),
            Answer::Draw(number) => write!(f, "draw {number:016X}"),
            Answer::Order(dealt) => write!(f, "{dealt}"),
            Answer::Checked(Ok(())) => f.write_str("accepted"),
            Answer::Checked(Err(why)) => { write!(f, "refused {} {}", why.number, why.place) }
            Answer::Unknown => f.write_str("unknown"),
        }
    }
}

impl fmt::Display for Dealt {
    fn fmt<W: fmt::Write>(&self, f: &mut fmt::Formatter<W>) -> fmt::Result {
        f.write_str("order")?;
        for place in self.order.iter().take(self.n) {
            write!(f, " {place}")?;
        }
        write!(f, " state {:016X}", self.state)
    }
}
