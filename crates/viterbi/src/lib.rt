// Decoding a line: `viterbi_decode` of crf_context.rs over the score tables of the line, with the path's sum and lead.
#![tactic(auto)]

ghost use Rattle.std.specs.Prelude.{◌≡◌, ◌*◌, ◌≤◌, length};
ghost use Rattle.viterbi.specs.Rows.{decode_checked};
ghost use Rattle.viterbi.specs.Answered.{Ready, Answered};
ghost use Rattle.viterbi.specs.Promise.{Promised};

use refusals::Refusal;
use viterbi_end::Found;
use viterbi_steps::{ROW_ROOM, Row};

// Every refusal of the call.
#[tactic(auto, using(refusals::proofs::Laws::handed, score_tables::proofs::Laws::room), unfolding(refusals::specs::Refusals::or_next_of, crate::specs::Rows::decode_checked))]
pub fn check_decode(
    labels: u32,
    words: u32,
    transitions: &[f64],
    states: &[f64],
    path: &[u32],
) -> Result<(), Refusal>
    ensures { result ≡ decode_checked labels words transitions.now states.now path.now }
{
    score_tables::check_bounds(labels, words)?;
    score_tables::check_room(labels, words, transitions, states)?;
    refusals::refuse_if(2, 0, refusals::is_short(path.len(), words as usize))?;
    score_tables::check_finite(labels, words, transitions, states)
}

// Two rows take turns: at each word the row of the word before is read, and the other is replaced.
fn decode_rows(
    labels: usize,
    words: usize,
    transitions: &[f64],
    states: &[f64],
    path: &mut [u32],
    steps: &mut [u8],
) -> Found
    requires ready { Ready labels words transitions.now states.now path.old }
    requires labels_in_bounds { words * labels ≤ length steps.old }
    ensures { Answered labels words transitions.now states.now path.old result path.new }
{
    let mut row = viterbi_steps::first_row(labels, states);
    let n = row.width;
    let mut other = Row {
        best: [0.0; ROW_ROOM],
        width: n,
    };
    let mut word: usize = 0;
    // Two words a turn, so that neither row is copied.
    while word + 2 < words {
        viterbi_steps::next_row(
            &row.best,
            &mut other.best,
            n,
            word,
            transitions,
            states,
            steps,
        );
        viterbi_steps::next_row(
            &other.best,
            &mut row.best,
            n,
            word + 1,
            transitions,
            states,
            steps,
        );
        word += 2;
    }
    if word + 1 < words {
        viterbi_steps::next_row(
            &row.best,
            &mut other.best,
            n,
            word,
            transitions,
            states,
            steps,
        );
        viterbi_end::finish(&other.best, n, words, steps, path)
    } else {
        viterbi_end::finish(&row.best, n, words, steps, path)
    }
}

// So many steps back make a line a short one.
const SHORT: usize = 256;

// The steps back of any line: the most words, with the most labels each, are 128·32.
const MOST: usize = 4096;

// The steps back of a short line are in a small array: clearing a large one would take longer than the line.
fn decode_within<const STEPS: usize>(
    n: usize,
    words: usize,
    transitions: &[f64],
    states: &[f64],
    path: &mut [u32],
) -> Found
    requires ready { Ready n words transitions.now states.now path.old }
    requires n_bound { words * n ≤ STEPS }
    requires steps_bound { STEPS ≤ MOST }
    ensures { Answered n words transitions.now states.now path.old result path.new }
{
    let mut steps = [0u8; STEPS];
    decode_rows(n, words, transitions, states, path, &mut steps)
}

// Decoding over tables that are accepted.
pub fn decode_tables(
    n: usize,
    words: usize,
    transitions: &[f64],
    states: &[f64],
    path: &mut [u32],
) -> Found
    requires { Ready n words transitions.now states.now path.old }
    ensures { Answered n words transitions.now states.now path.old result path.new }
{
    if words * n <= SHORT {
        decode_within::<SHORT>(n, words, transitions, states, path)
    } else {
        decode_within::<MOST>(n, words, transitions, states, path)
    }
}

// The decoded path of a line, at the front of `path`, with its sum and lead; or the refusal.
pub fn viterbi_decode(
    labels: u32,
    words: u32,
    transitions: &[f64],
    states: &[f64],
    path: &mut [u32],
) -> Result<Found, Refusal>
    ensures { Promised (record { labels = labels; words = words; transitions = transitions.now; states = states.now }) path.old (record { answer = result; path = path.new }) }
{
    check_decode(labels, words, transitions, states, path)?;
    Ok(decode_tables(labels as usize, words as usize, transitions, states, path))
}
