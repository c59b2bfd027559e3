// The decoder's inner loops: from the best scores of one word to those of the next, with the steps back. The crate
// viterbi calls `first_row`, then `next_row` once a word.
#![tactic(auto)]

ghost use Rattle.std.specs.Prelude.{◌≡◌, cond, ◌*◌, ◌≤◌, ◌<◌, ℕ, ◌+◌, length, get_or};
ghost use Rattle.std.specs.Float.Ieee.{le};
ghost use Rattle.refusals.specs.Bounds.{the_labels, most};
ghost use Rattle.viterbi_steps.specs.Chosen.{candidate, choice_of};
ghost use Rattle.viterbi_steps.specs.Written.{written};
ghost use Rattle.viterbi_steps.specs.Rows.{first_row_of, Before, After, onward, score_tried, mark_tried};

// Room in a row for the most labels: "Labels L: 1 to 32."
pub const ROW_ROOM: usize = 32;

// The largest candidate for a label, and the label of the word before that it comes from.
#[derive(Clone, Copy)]
pub struct Choice {
    pub score: f64,
    pub previous: u64,
}

// The tie rule, for the score and for where it comes from: the later of two that are equal wins. As functions of their
// own they leave no branch in the loops, which then compile to several lanes.
pub fn better(old: f64, new: f64) -> f64
    ensures { result ≡ cond (le old new) new old }
{
    if old <= new { new } else { old }
}

pub fn whence(old: f64, new: f64, was: u64, mark: u64) -> u64
    ensures { result ≡ cond (le old new) mark was }
{
    if old <= new { mark } else { was }
}

// The best candidate for one label of a word with this state score.
pub fn best_step(
    row: &[f64; ROW_ROOM],
    n: usize,
    transitions: &[f64],
    label: usize,
    state: f64,
) -> Choice
    requires { (label < n) × (n ≤ most the_labels) × (n * n ≤ length transitions.now) }
    ensures { result ≡ choice_of (candidate n transitions.now row.now label state) n }
{
    let mut score = row[0] + transitions[label] + state;
    let mut previous: u64 = 0;
    let mut at = n + label;
    for tried in 1..n {
        let next = row[tried] + transitions[at] + state;
        previous = whence(score, next, previous, tried as u64);
        score = better(score, next);
        at += n;
    }
    Choice { score, previous }
}

// One row of best scores, with room for the most labels; `width` of them count.
#[derive(Clone, Copy)]
pub struct Row {
    pub best: [f64; ROW_ROOM],
    pub width: usize,
}

// "Decode starts from the first word's states."
pub fn first_row(n: usize, states: &[f64]) -> Row
    requires { (n ≤ most the_labels) × (n ≤ length states.now) }
    ensures { result ≡ first_row_of n states.now }
{
    let mut row = Row {
        best: [0.0; ROW_ROOM],
        width: n,
    };
    for label in 0..n {
        row.best[label] = states[label];
    }
    row
}

// The next row, label by label: the quicker way for few labels.
fn next_by_label(
    row: &[f64; ROW_ROOM],
    next: &mut [f64; ROW_ROOM],
    n: usize,
    word: usize,
    transitions: &[f64],
    states: &[f64],
    steps: &mut [u8],
)
    requires { Before n word transitions.now states.now row.now next.old steps.old }
    ensures { After n word transitions.now states.now next.old steps.old next.new steps.new }
{
    let at = (word + 1) * n;
    for label in 0..n {
        let choice = best_step(row, n, transitions, label, states[at + label]);
        next[label] = choice.score;
        steps[at + label] = choice.previous as u8;
    }
}

// The candidates from label 0, for each label.
fn seed_row(
    next: &mut [f64; ROW_ROOM],
    n: usize,
    score: f64,
    transitions: &[f64],
    states: &[f64],
    at: usize,
)
    requires { (n ≤ most the_labels) × (n ≤ length transitions.now) × (at + n ≤ length states.now) }
    ensures { next.new ≡ written 0 (onward score transitions.now 0 states.now at) n next.old }
{
    for label in 0..n {
        next[label] = score + transitions[label] + states[at + label];
    }
}

// The candidates from one label more, for each label: `base` is where its transitions begin.
fn fold_previous(
    next: &mut [f64; ROW_ROOM],
    from: &mut [u64; ROW_ROOM],
    n: usize,
    score: f64,
    mark: u64,
    transitions: &[f64],
    base: usize,
    states: &[f64],
    at: usize,
)
    requires { (n ≤ most the_labels) × (base + n ≤ length transitions.now) × (at + n ≤ length states.now) }
    ensures next_after { next.new ≡ written 0 (score_tried (onward score transitions.now base states.now at) next.old) n next.old }
    ensures from_after { from.new ≡ written 0 (mark_tried (onward score transitions.now base states.now at) next.old mark from.old) n from.old }
{
    for label in 0..n {
        let sum = score + transitions[base + label] + states[at + label];
        let old = next[label];
        from[label] = whence(old, sum, from[label], mark);
        next[label] = better(old, sum);
    }
}

// The steps of a word, put in their place.
fn keep_steps(steps: &mut [u8], at: usize, from: &[u64; ROW_ROOM], n: usize)
    requires { (n ≤ most the_labels) × (at + n ≤ length steps.old) × ((label : ℕ) → label < n → get_or from.now label 0 < 256) }
    ensures { steps.new ≡ written at (λ label. get_or from.now label 0) n steps.old }
{
    for label in 0..n {
        steps[at + label] = from[label] as u8;
    }
}

// The next row, from one label of the word before after the other: the quicker way for many labels.
fn next_by_previous(
    row: &[f64; ROW_ROOM],
    next: &mut [f64; ROW_ROOM],
    n: usize,
    word: usize,
    transitions: &[f64],
    states: &[f64],
    steps: &mut [u8],
)
    requires { Before n word transitions.now states.now row.now next.old steps.old }
    ensures { After n word transitions.now states.now next.old steps.old next.new steps.new }
{
    let at = (word + 1) * n;
    let mut from = [0u64; ROW_ROOM];
    seed_row(next, n, row[0], transitions, states, at);
    let mut base = n;
    for previous in 1..n {
        let score = row[previous];
        fold_previous(
            next,
            &mut from,
            n,
            score,
            previous as u64,
            transitions,
            base,
            states,
            at,
        );
        base += n;
    }
    keep_steps(steps, at, &from, n);
}

// The row of the word after `word`, and the steps back from it.
pub fn next_row(
    row: &[f64; ROW_ROOM],
    next: &mut [f64; ROW_ROOM],
    n: usize,
    word: usize,
    transitions: &[f64],
    states: &[f64],
    steps: &mut [u8],
)
    requires { Before n word transitions.now states.now row.now next.old steps.old }
    ensures { After n word transitions.now states.now next.old steps.old next.new steps.new }
{
    if n < 8 {
        next_by_label(row, next, n, word, transitions, states, steps);
    } else {
        next_by_previous(row, next, n, word, transitions, states, steps);
    }
}
