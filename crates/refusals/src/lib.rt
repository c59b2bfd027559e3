// Refusals: the numbers and places of document 01's table, and which of two comes first. A check answers `Result<(), Refusal>`,
// and `?` hands the first refusal on.
#![tactic(auto)]

ghost use Rattle.std.specs.Prelude.{◌≡◌};
ghost use Rattle.refusals.specs.Refusals.{numbered as Refusals·numbered, refused_at, refuse, or_next_of, goes_before_of, sooner as Refusals·sooner};
ghost use Rattle.refusals.specs.Tables.{outside, short};

#[derive(Clone, Copy, Debug, PartialEq, Eq)]
pub struct Refusal {
    pub number: u32,
    pub place: u64,
}

// The refusal with this number and place: nothing else makes one.
pub fn numbered(number: u32, place: u64) -> Refusal
    ensures { result ≡ Refusals·numbered number place }
{
    Refusal { number, place }
}

// A check that refuses so.
pub fn refused(number: u32, place: usize) -> Result<(), Refusal>
    ensures { result ≡ refused_at number place }
{
    Err(numbered(number, place as u64))
}

// The answer so far where that refuses, or else the next: `?` for two checks that are both made.
pub fn or_next(answer: Result<(), Refusal>, next: Result<(), Refusal>) -> Result<(), Refusal>
    ensures { result ≡ or_next_of answer next }
{
    answer.and(next)
}

// A refusal where the test holds.
pub fn refuse_if(number: u32, place: usize, test: bool) -> Result<(), Refusal>
    ensures { result ≡ refuse number place test }
{
    if test { refused(number, place) } else { Ok(()) }
}

// Whether a refusal goes before another: only a lower number does.
fn goes_before(this: Refusal, that: Refusal) -> bool
    ensures { result ≡ goes_before_of this that }
{
    this.number < that.number
}

// Of two answers the one with the lower number, of equal numbers the first: so checks of separate things are made one.
pub fn sooner(answer: Result<(), Refusal>, next: Result<(), Refusal>) -> Result<(), Refusal>
    ensures { result ≡ Refusals·sooner answer next }
{
    match (answer, next) {
        (Err(why), Err(other)) => {
            if goes_before(other, why) {
                next
            } else {
                answer
            }
        }
        (Err(_), Ok(())) => answer,
        (Ok(()), _) => next,
    }
}

// A number outside its bound.
pub fn is_outside(low: u32, high: u32, n: u32) -> bool
    ensures { result ≡ outside low high n }
{
    (n < low) | (high < n)
}

// A lent buffer too short.
pub fn is_short(have: usize, need: usize) -> bool
    ensures { result ≡ short have need }
{
    have < need
}
