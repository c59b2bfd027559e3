// The end of decoding: the last label of the line, its sum and lead, and the path walked back from it.
#![tactic(auto)]

ghost use Rattle.std.specs.Prelude.{◌≡◌, ◌++◌, ◌-◌, ◌<◌, ◌≤◌, length, get_or, set, drop};
ghost use Rattle.viterbi_end.specs.Walked.{walked, Walk};
ghost use Rattle.refusals.specs.Bounds.{the_labels, most};
ghost use Rattle.best_path.specs.Lead.{other, positive_zero_of, lead_between};
ghost use Rattle.viterbi_end.specs.Rival.{rival_of};
ghost use Rattle.viterbi_end.specs.Ends.{lead_said, last_of, lead_in_row, Ended};

use viterbi_steps::ROW_ROOM;

// What is found of a line beside its path: the rounded sum, and by how much it is above that of every other last label.
#[derive(Clone, Copy)]
pub struct Found {
    pub sum: f64,
    pub lead: Option<f64>,
}

// The last of the labels with the largest score.
fn last_largest(row: &[f64; ROW_ROOM], n: usize) -> usize
    requires { (0 < n) × (n ≤ most the_labels) }
    ensures { (result < n) × (result ≡ last_of row.now n) }
{
    let mut score = row[0];
    let mut last: u64 = 0;
    for label in 1..n {
        let next = row[label];
        last = viterbi_steps::whence(score, next, last, label as u64);
        score = viterbi_steps::better(score, next);
    }
    last as usize
}

// The labels other than `last`, in order.
fn other_label(last: usize, k: usize) -> usize
    requires { k < most the_labels }
    ensures { result ≡ other last k }
{
    if k < last { k } else { k + 1 }
}

// The largest score of the labels other than `last`, of which there is at least one.
pub fn rival(row: &[f64; ROW_ROOM], n: usize, last: usize) -> f64
    requires { (1 < n) × (n ≤ most the_labels) }
    ensures { result ≡ rival_of row.now n last }
{
    let first = other_label(last, 0);
    let mut score = row[first];
    for k in 1..n - 1 {
        let label = other_label(last, k);
        score = viterbi_steps::better(score, row[label]);
    }
    score
}

// "A zero lead is +0."
pub fn positive_zero(x: f64) -> f64
    ensures { result ≡ positive_zero_of x }
{
    if x == 0.0 { 0.0 } else { x }
}

// "no lead .. when either score is not finite".
fn lead_by(best: f64, rival: f64) -> Option<f64>
    ensures { lead_said result ≡ lead_between best rival }
{
    if binary64::is_finite(best) & binary64::is_finite(rival) {
        Some(positive_zero(best - rival))
    } else {
        None
    }
}

// "no lead" with L = 1.
fn lead_of(row: &[f64; ROW_ROOM], n: usize, last: usize) -> Option<f64>
    requires { (last < n) × (n ≤ most the_labels) }
    ensures { lead_said result ≡ lead_in_row row.now n last }
{
    if 1 < n {
        lead_by(row[last], rival(row, n, last))
    } else {
        None
    }
}

// The step back that stands at a place.
fn step_back(steps: &[u8], place: usize) -> usize
    requires { place < length steps.now }
    ensures { result ≡ get_or steps.now place 0 }
{
    steps[place] as usize
}

// The label of a word: no other entry of the buffer is touched.
fn put_label(path: &mut [u32], word: usize, label: usize)
    requires { (word < length path.old) × (label < most the_labels) }
    ensures { path.new ≡ set path.old word label }
{
    path[word] = label as u32;
}

// The path, from its last label back; the rest of the buffer is left alone.
pub fn walk_back(path: &mut [u32], words: usize, n: usize, last: usize, steps: &[u8])
    requires walk { Walk n words steps.now path.old }
    requires last_lt_n { last < n }
    ensures { path.new ≡ walked steps.now n (words - 1) last ++ drop words path.old }
{
    let mut label = last;
    for word in (1..words).rev() {
        put_label(path, word, label);
        label = step_back(steps, word * n + label);
    }
    put_label(path, 0, label);
}

// The answer of a line, from its last row of best scores and the steps back.
pub fn finish(
    row: &[f64; ROW_ROOM],
    n: usize,
    words: usize,
    steps: &[u8],
    path: &mut [u32],
) -> Found
    requires { Walk n words steps.now path.old }
    ensures { Ended row.now n words steps.now path.old result path.new }
{
    let last = last_largest(row, n);
    walk_back(path, words, n, last, steps);
    Found {
        sum: row[last],
        lead: lead_of(row, n, last),
    }
}
