// What is refused of a text's bytes before anything is counted: 11, then 2 of the text's own length.
#![tactic(auto)]

ghost use Rattle.std.specs.Prelude.{◌≡◌};
ghost use Rattle.text_check.specs.Rows.{too_long_of};
ghost use Rattle.text_bytes.specs.Bytes.{malformed_at, bytes_checked};

use refusals::Refusal;

// 11, with the place that the look found.
fn well_formed(found: Result<(), usize>) -> Result<(), Refusal>
    ensures { result ≡ malformed_at found }
{
    match found {
        Ok(()) => Ok(()),
        Err(place) => refusals::refused(11, place),
    }
}

// 2 of the text's own length: starts are numbers of 32 bits.
fn too_long(length: usize) -> Result<(), Refusal>
    ensures { result ≡ too_long_of length }
{
    refusals::refuse_if(2, 0, 4294967295 < length)
}

// 11, then 2 of the length: 11 goes first, though 2 is the lower number.
#[tactic(auto, using(refusals::proofs::Laws::handed), unfolding(refusals::specs::Refusals::or_next_of))]
pub fn check_bytes(text: &[u8]) -> Result<(), Refusal>
    ensures { result ≡ bytes_checked text.now }
{
    well_formed(look::look_through(text))?;
    too_long(text.len())
}
