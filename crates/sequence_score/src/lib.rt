// Path score: `sequence_score` of crf_context.rs, the score of a given path over the score tables of a line.
#![tactic(auto)]

ghost use Rattle.std.specs.Prelude.{◌≡◌, ◌+◌, ◌*◌, ◌<◌, length, get_or};
ghost use Rattle.std.specs.Float.{nan};
ghost use Rattle.best_path.specs.Scores.{tabled};
ghost use Rattle.best_path.specs.PathScore.{path_score};
ghost use Rattle.sequence_score.specs.Rows.{path_sized, path_checked};
ghost use Rattle.sequence_score.specs.Sound.{Met};
ghost use Rattle.sequence_score.specs.Promise.{Promised};

use refusals::Refusal;

// The label that the path gives to a word, as an index.
fn label(path: &[u32], word: usize) -> usize
    requires { word < length path.now }
    ensures { result ≡ get_or path.now word 0 }
{
    path[word] as usize
}

// An entry of a table that lies row by row.
fn entry(table: &[f64], width: usize, row: usize, column: usize) -> f64
    requires { row * width + column < length table.now }
    ensures { result ≡ get_or table.now (row * width + column) nan }
{
    table[row * width + column]
}

// The score of the first `count` words of a path, each state before the transition that leads to it.
pub fn score_path(
    labels: usize,
    transitions: &[f64],
    states: &[f64],
    path: &[u32],
    count: usize,
) -> f64
    requires { Met labels transitions.now states.now path.now count }
    ensures { result ≡ path_score (tabled labels transitions.now states.now) path.now count }
{
    if count == 0 {
        return 0.0;
    }
    let mut before = label(path, 0);
    let first = entry(states, labels, 0, before);
    let mut score = 0.0 + first;
    for word in 1..count {
        let next = label(path, word);
        let state = entry(states, labels, word, next);
        let transition = entry(transitions, labels, before, next);
        score = score + state + transition;
        before = next;
    }
    score
}

// 1, 4 and 2: what can be said before a table is read.
#[tactic(auto, using(refusals::proofs::Laws::handed), unfolding(refusals::specs::Refusals::or_next_of, crate::specs::Rows::path_sized))]
fn check_sizes(
    labels: u32,
    words: u32,
    transitions: &[f64],
    states: &[f64],
    path: &[u32],
    count: u32,
) -> Result<(), Refusal>
    ensures { result ≡ path_sized labels words transitions.now states.now path.now count }
{
    score_tables::check_bounds(labels, words)?;
    refusals::refuse_if(4, 0, words < count)?;
    score_tables::check_room(labels, words, transitions, states)?;
    refusals::refuse_if(2, 0, path.len() < count as usize)
}

// Every refusal of the call.
#[tactic(auto, using(refusals::proofs::Laws::handed, crate::proofs::Laws::path_room, crate::proofs::Laws::tables_room), unfolding(refusals::specs::Refusals::or_next_of, crate::specs::Rows::path_sized, crate::specs::Rows::path_checked))]
fn check_path(
    labels: u32,
    words: u32,
    transitions: &[f64],
    states: &[f64],
    path: &[u32],
    count: u32,
) -> Result<(), Refusal>
    ensures { result ≡ path_checked labels words transitions.now states.now path.now count }
{
    check_sizes(labels, words, transitions, states, path, count)?;
    table_checks::check_ids(path, count as usize, labels)?;
    score_tables::check_finite(labels, words, transitions, states)
}

// The score of the first `count` labels of a path over the tables of a line, or the refusal.
#[tactic(auto, using(refusals::proofs::Laws::handed, crate::proofs::Laws::met), unfolding(crate::specs::Promise::answer_to))]
pub fn sequence_score(
    labels: u32,
    words: u32,
    transitions: &[f64],
    states: &[f64],
    path: &[u32],
    count: u32,
) -> Result<f64, Refusal>
    ensures { Promised (record { labels = labels; words = words; transitions = transitions.now; states = states.now; path = path.now; count = count }) result }
{
    check_path(labels, words, transitions, states, path, count)?;
    Ok(score_path(labels as usize, transitions, states, path, count as usize))
}
