// The feature counts of a line, for programs in C and Rust: one call of the crate extract_features, and its answer as numbers.
#![tactic(auto)]

ghost use Rattle.lines.specs.Entry.{line_was};
ghost use Rattle.feature_gen.specs.Lent.{model_was};
ghost use Rattle.counting_exports.specs.Counts.{Counted};

use answers::checks::Refused;
use feature_gen::Counts;

// The feature counts of a line under the labels of `path`, in the front of `feature_counts`.
#[unsafe(no_mangle)]
pub extern "C" fn bodkinbloom_extract_features(
    labels: u32,
    counts: Counts,
    kinds: &[u8],
    destinations: &[u32],
    sources: &[u32],
    attribute_starts: &[u32],
    attribute_entries: &[u32],
    label_starts: &[u32],
    label_entries: &[u32],
    words: u32,
    attributes: u32,
    word_starts: &[u32],
    ids: &[u32],
    values: &[f64],
    path: &[u32],
    feature_counts: &mut [f64],
) -> Refused
    ensures { let m = model_was labels counts kinds destinations sources attribute_starts attribute_entries label_starts label_entries in
        let line = line_was attributes word_starts ids values in
        Counted (record { model = m; words = words; line = line; path = path.now })
        feature_counts.old (record { answer = result; counts = feature_counts.new }) }
{
    Refused::from(extract_features::extract_features(
        labels,
        words,
        counts,
        kinds,
        destinations,
        sources,
        attribute_starts,
        attribute_entries,
        label_starts,
        label_entries,
        attributes,
        word_starts,
        ids,
        values,
        path,
        feature_counts,
    ))
}
