// The score tables of one line: their bounds, and the refusals 1, 4, 2 and 6 that every call shares which is lent
// them (decode, path score).
#![tactic(auto, using(refusals::proofs::Laws::handed), unfolding(refusals::specs::Refusals::or_next_of))]

ghost use Rattle.std.specs.Prelude.{◌≡◌, ◌*◌};
ghost use Rattle.refusals.specs.Refusals.{first};
ghost use Rattle.score_tables.specs.Rows.{one, scores_short, sixes, bounds_checked};
ghost use Rattle.score_tables.specs.Sound.{ScoresRoom};

use refusals::Refusal;

pub const MOST_LABELS: u32 = 32;

pub const MOST_WORDS: u32 = 128;

// How many entries so many rows of a width have: L·L transitions, T·L states.
pub fn entries(rows: u32, width: u32) -> usize
    ensures { result ≡ rows * width }
{
    rows as usize * width as usize
}

// 1.
pub fn check_labels(labels: u32) -> Result<(), Refusal>
    ensures { result ≡ one labels }
{
    refusals::refuse_if(1, 0, refusals::is_outside(1, MOST_LABELS, labels))
}

// 1 and 4: "a call that takes T as a number tests 4 right after 1".
pub fn check_bounds(labels: u32, words: u32) -> Result<(), Refusal>
    ensures { result ≡ bounds_checked labels words }
{
    check_labels(labels)?;
    refusals::refuse_if(4, 0, refusals::is_outside(1, MOST_WORDS, words))
}

// 2 for the two tables; a call's own buffers are its own to test.
pub fn check_room(
    labels: u32,
    words: u32,
    transitions: &[f64],
    states: &[f64],
) -> Result<(), Refusal>
    ensures { result ≡ scores_short labels words transitions.now states.now }
{
    let short = (transitions.len() < entries(labels, labels))
        | (states.len() < entries(words, labels));
    refusals::refuse_if(2, 0, short)
}

// 6, transitions before states.
pub fn check_finite(
    labels: u32,
    words: u32,
    transitions: &[f64],
    states: &[f64],
) -> Result<(), Refusal>
    requires { ScoresRoom labels words transitions.now states.now }
    ensures { result ≡ first (sixes labels words transitions.now states.now) }
{
    table_checks::check_numbers(transitions, entries(labels, labels))?;
    table_checks::check_numbers(states, entries(words, labels))
}
