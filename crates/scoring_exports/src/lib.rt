// The scores of a line, for programs in C and Rust: one call of the crate compute_scores, and its answer as numbers.
#![tactic(auto)]

ghost use Rattle.lines.specs.Entry.{line_was};
ghost use Rattle.feature_gen.specs.Lent.{model_was};
ghost use Rattle.scoring_exports.specs.Scoring.{ScoresLine};

use answers::checks::Refused;
use feature_gen::Counts;

// The transition and state scores of a line, in the fronts of `transitions` and `states`.
#[unsafe(no_mangle)]
pub extern "C" fn bodkinbloom_compute_scores(
    labels: u32,
    counts: Counts,
    kinds: &[u8],
    destinations: &[u32],
    sources: &[u32],
    weights: &[f64],
    attribute_starts: &[u32],
    attribute_entries: &[u32],
    label_starts: &[u32],
    label_entries: &[u32],
    words: u32,
    attributes: u32,
    word_starts: &[u32],
    ids: &[u32],
    values: &[f64],
    transitions: &mut [f64],
    states: &mut [f64],
) -> Refused
    ensures { let m = model_was labels counts kinds destinations sources attribute_starts attribute_entries label_starts label_entries in
        let line = line_was attributes word_starts ids values in
        ScoresLine (record { model = m; weights = weights.now; words = words; line = line })
        (record { transitions = transitions.old; states = states.old })
        (record { answer = result; transitions = transitions.new; states = states.new }) }
{
    Refused::from(compute_scores::compute_scores(
        labels,
        words,
        counts,
        kinds,
        destinations,
        sources,
        weights,
        attribute_starts,
        attribute_entries,
        label_starts,
        label_entries,
        attributes,
        word_starts,
        ids,
        values,
        transitions,
        states,
    ))
}
