// Decoding a line, and the score of a path, for programs in C and Rust. Each is thin: one call of a crate below, and its answer
// as numbers.
#![tactic(auto)]

ghost use Rattle.decoding_exports.specs.Decoding.{Decodes, ScoresPath};

use answers::decoding::{Decoded, Scored};

// The best path over the score tables of a line, with its sum and lead.
#[unsafe(no_mangle)]
pub extern "C" fn bodkinbloom_viterbi_decode(
    labels: u32,
    words: u32,
    transitions: &[f64],
    states: &[f64],
    path: &mut [u32],
) -> Decoded
    ensures { Decodes (record { labels = labels; words = words; transitions = transitions.now; states = states.now }) path.old (record { answer = result; path = path.new }) }
{
    Decoded::from(viterbi::viterbi_decode(labels, words, transitions, states, path))
}

// The score of the first `count` labels of a path over the score tables of a line.
#[unsafe(no_mangle)]
pub extern "C" fn bodkinbloom_sequence_score(
    labels: u32,
    words: u32,
    transitions: &[f64],
    states: &[f64],
    path: &[u32],
    count: u32,
) -> Scored
    ensures { ScoresPath (record { labels = labels; words = words; transitions = transitions.now; states = states.now; path = path.now; count = count }) result }
{
    Scored::from(sequence_score::sequence_score(labels, words, transitions, states, path, count))
}
