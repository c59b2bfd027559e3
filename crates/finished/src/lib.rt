// Refusal 8 of a call on a single line: the finished scores, or the finished counts, are looked at, and where one of them is not
// finite the needed front of what was made is zero again. A refusal that comes before them is handed on, and leaves the buffers.
#![tactic(auto)]

ghost use Rattle.std.specs.Prelude.{◌≡◌, ◌*◌, ◌≤◌, length, Err};
ghost use Rattle.score_tables.specs.Sound.{ScoresSized};
ghost use Rattle.finished.specs.Rows.{placed_after, finished_checked, scores_finished};
ghost use Rattle.finished.specs.After.{cleared_where};

use refusals::Refusal;

// 8: neither a NaN nor an infinity among the first n, whose places follow on others.
fn check_finished(numbers: &[f64], n: usize, others: usize) -> Result<(), Refusal>
    requires n_in_bounds { n ≤ length numbers.now }
    requires others_bound { others ≤ 4096 }
    ensures { result ≡ placed_after others (finished_checked numbers.now n) }
{
    if fronts::all_finite(numbers, n) {
        return Ok(());
    }
    for i in 0..n {
        let bad = !binary64::is_finite(numbers[i]);
        if bad {
            return refusals::refused(8, others + i);
        }
    }
    Ok(())
}

// 8 of a line's scores: states, then transitions.
#[tactic(auto, using(refusals::proofs::Laws::handed, crate::proofs::Laws::placed_first), unfolding(refusals::specs::Refusals::or_next_of, crate::specs::Rows::scores_finished))]
pub fn check_scores(
    labels: usize,
    words: usize,
    transitions: &[f64],
    states: &[f64],
) -> Result<(), Refusal>
    requires { ScoresSized labels words transitions.now states.now }
    ensures { result ≡ scores_finished labels words states.now transitions.now }
{
    let n = words * labels;
    let m = labels * labels;
    check_finished(states, n, 0)?;
    check_finished(transitions, m, n)
}

// "After 1 to 7 .. every lent buffer holds its entry contents": a refusal that comes before a line is scored, handed on past
// the buffers of its scores.
pub fn refuse_scores(
    unscored: Refusal,
    states: &mut [f64],
    transitions: &mut [f64],
) -> Result<(), Refusal>
    ensures value { result ≡ Err unscored }
    ensures states_unchanged { states.new ≡ states.old }
    ensures transitions_unchanged { transitions.new ≡ transitions.old }
{
    Err(unscored)
}

// 8 of a line's scores, which are cleared where it is given.
pub fn finish_scores(
    labels: u32,
    words: u32,
    transitions: &mut [f64],
    states: &mut [f64],
) -> Result<(), Refusal>
    requires { ScoresSized labels words transitions.old states.old }
    ensures value { result ≡ scores_finished labels words states.old transitions.old }
    ensures transitions_after { transitions.new ≡ cleared_where result (labels * labels) transitions.old }
    ensures states_after { states.new ≡ cleared_where result (words * labels) states.old }
{
    if let Err(why) = check_scores(labels as usize, words as usize, transitions, states) {
        fronts::fill(states, score_tables::entries(words, labels), 0.0);
        fronts::fill(transitions, score_tables::entries(labels, labels), 0.0);
        return Err(why);
    }
    Ok(())
}

// The same for a refusal that comes before features are counted.
pub fn refuse_counts(uncounted: Refusal, counts: &mut [f64]) -> Result<(), Refusal>
    ensures value { result ≡ Err uncounted }
    ensures counts_unchanged { counts.new ≡ counts.old }
{
    Err(uncounted)
}

// 8 of feature counts, which are cleared where it is given.
pub fn finish_counts(features: usize, counts: &mut [f64]) -> Result<(), Refusal>
    requires { features ≤ length counts.old }
    ensures value { result ≡ finished_checked counts.old features }
    ensures counts_after { counts.new ≡ cleared_where result features counts.old }
{
    if let Err(why) = check_finished(counts, features, 0) {
        fronts::fill(counts, features, 0.0);
        return Err(why);
    }
    Ok(())
}
