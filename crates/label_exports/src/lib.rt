// Score, then decode: the labels of a line, for programs in C and Rust. One call of the crate label_line, and its answer as
// numbers.
#![tactic(auto)]

ghost use Rattle.lines.specs.Entry.{line_was};
ghost use Rattle.feature_gen.specs.Lent.{model_was};
ghost use Rattle.label_exports.specs.Labels.{Labels};

use answers::decoding::Decoded;
use feature_gen::Counts;

// The labels of a line, in the front of `path`, with their sum and lead.
#[unsafe(no_mangle)]
pub extern "C" fn bodkinbloom_label_line(
    labels: u32,
    counts: Counts,
    kinds: &[u8],
    destinations: &[u32],
    sources: &[u32],
    weights: &[f64],
    attribute_starts: &[u32],
    attribute_entries: &[u32],
    label_starts: &[u32],
    label_entries: &[u32],
    words: u32,
    attributes: u32,
    word_starts: &[u32],
    ids: &[u32],
    values: &[f64],
    path: &mut [u32],
) -> Decoded
    ensures { let m = model_was labels counts kinds destinations sources attribute_starts attribute_entries label_starts label_entries in
        let line = line_was attributes word_starts ids values in
        Labels (record { model = m; weights = weights.now; words = words; line = line }) path.old (record { answer = result; path = path.new }) }
{
    Decoded::from(label_line::label_line(
        labels,
        counts,
        kinds,
        destinations,
        sources,
        weights,
        attribute_starts,
        attribute_entries,
        label_starts,
        label_entries,
        words,
        attributes,
        word_starts,
        ids,
        values,
        path,
    ))
}
