// What a visit has to know of an instance that was labelled: 8 of its scores, the predicted path beside the reference, and their
// path scores.
#![tactic(auto)]

ghost use Rattle.std.specs.Prelude.{◌≡◌, ◌≤◌, length};
ghost use Rattle.training.specs.Wrong.{wrong_of};
ghost use Rattle.judging.specs.Judged.{is_decoded_of, Judged, Judgeable};

use refusals::Refusal;
use viterbi_end::Found;

// Whether the scores are finite, how many labels are wrong, and where some are, the scores of the predicted and the true path.
#[derive(Clone, Copy)]
pub struct Prediction {
    pub finite: bool,
    pub wrong: u32,
    pub reached: f64,
    pub wanted: f64,
}

// In how many words two paths differ.
fn count_wrong(path: &[u32], references: &[u32], words: usize) -> u32
    requires { (words ≤ 128) × (words ≤ length path.now) × (words ≤ length references.now) }
    ensures { (result ≡ wrong_of path.now references.now words) × (result ≤ words) }
{
    let mut wrong = 0u32;
    for word in 0..words {
        if path[word] != references[word] {
            wrong += 1;
        }
    }
    wrong
}

// No 8 was given for the scores.
fn is_decoded(answer: Result<Found, Refusal>) -> bool
    ensures { result ≡ is_decoded_of answer }
{
    answer.is_ok()
}

// A labelled instance beside its reference: 8 of its scores, then the number of wrong labels, then the two path scores.
pub fn judge(
    labels: usize,
    words: usize,
    references: &[u32],
    transitions: &[f64],
    states: &[f64],
    path: &[u32],
    answer: Result<Found, Refusal>,
) -> Prediction
    requires { Judgeable labels words references.now transitions.now states.now path.now answer }
    ensures { Judged labels words transitions.now states.now references.now path.now result }
{
    let finite = is_decoded(answer);
    if !finite {
        return Prediction {
            finite: false,
            wrong: 0,
            reached: 0.0,
            wanted: 0.0,
        };
    }
    let wrong = count_wrong(path, references, words);
    if wrong == 0 {
        return Prediction {
            finite: true,
            wrong: 0,
            reached: 0.0,
            wanted: 0.0,
        };
    }
    let reached = sequence_score::score_path(labels, transitions, states, path, words);
    let wanted = sequence_score::score_path(labels, transitions, states, references, words);
    Prediction {
        finite: true,
        wrong: wrong,
        reached: reached,
        wanted: wanted,
    }
}
