// The feature counts of a line under labels: `extract_features` of trainer.rs, over flat tables and into a lent buffer. The loops
// are in `line_counts`; the call tests all it is given, with refusals 1 to 6 beforehand and 8 afterwards.
#![tactic(auto)]

ghost use Rattle.std.specs.Prelude.{◌≡◌, ◌++◌, ◌≤◌, ◌+◌, ℕ, length, drop};
ghost use Rattle.lines.specs.Sound.{SoundLists, SoundCounts, SoundWords};
ghost use Rattle.lines.specs.Counted.{counts_of};
ghost use Rattle.lines.specs.Tables.{Model};
ghost use Rattle.lines.specs.Entry.{line_was};
ghost use Rattle.feature_gen.specs.Lent.{model_was};
ghost use Rattle.extract_features.specs.Entry.{counts_was, given_was};
ghost use Rattle.extract_features.specs.Promise.{Promised};

use feature_gen::Counts;
use refusals::Refusal;

// The feature counts, in the front of the buffer, of the line of so many words that begins at the word `first` of the words'
// table, under its labels.
pub fn count_line(
    features: usize,
    kinds: &[u8],
    destinations: &[u32],
    sources: &[u32],
    lists: usize,
    starts: &[u32],
    entries: &[u32],
    label_lists: usize,
    label_starts: &[u32],
    label_entries: &[u32],
    begins: &[u32],
    ids: &[u32],
    values: &[f64],
    first: usize,
    words: usize,
    labels: &[u32],
    counts: &mut [f64],
)
    requires sound_counts { SoundCounts features kinds.now destinations.now }
    requires features_in_bounds { features ≤ length sources.now }
    requires sound_lists { SoundLists lists starts.now entries.now features }
    requires sound_lists_2 { SoundLists label_lists label_starts.now label_entries.now features }
    requires sound_words { SoundWords (first + words) begins.now ids.now values.now }
    requires words_in_bounds { words ≤ length labels.now }
    requires features_in_bounds_2 { features ≤ length counts.old }
    ensures { (rest : Model) (size : ℕ) →
        let m = counts_was rest features kinds destinations sources lists starts entries label_lists label_starts label_entries in
        let d = line_was size begins ids values in
        counts.new ≡ counts_of m d first words labels.now ++ drop features counts.old }
{
    fronts::fill(counts, features, 0.0);
    line_counts::count_words(
        features,
        kinds,
        destinations,
        lists,
        starts,
        entries,
        begins,
        ids,
        values,
        first,
        words,
        labels,
        counts,
    );
    line_counts::count_transitions(
        features,
        kinds,
        destinations,
        sources,
        label_lists,
        label_starts,
        label_entries,
        words,
        labels,
        counts,
    );
}

// The feature counts of a line under the labels of `path`, in the front of `amounts`; or the refusal.
pub fn extract_features(
    labels: u32,
    words: u32,
    counts: Counts,
    kinds: &[u8],
    destinations: &[u32],
    sources: &[u32],
    attribute_starts: &[u32],
    attribute_entries: &[u32],
    label_starts: &[u32],
    label_entries: &[u32],
    attributes: u32,
    begins: &[u32],
    ids: &[u32],
    values: &[f64],
    path: &[u32],
    amounts: &mut [f64],
) -> Result<(), Refusal>
    ensures { let m = model_was labels counts kinds destinations sources attribute_starts attribute_entries label_starts label_entries in
        let g = given_was m words attributes begins ids values path in
        Promised g amounts.old (record { answer = result; amounts = amounts.new }) }
{
    let features = counts.features as usize;
    if let Err(why) = line_check::check_counting(
        labels,
        counts,
        kinds,
        destinations,
        sources,
        attribute_starts,
        attribute_entries,
        label_starts,
        label_entries,
        words,
        attributes,
        begins,
        ids,
        values,
        path,
        amounts.len(),
    ) {
        return finished::refuse_counts(why, amounts);
    }
    count_line(
        features,
        kinds,
        destinations,
        sources,
        counts.attribute_lists as usize,
        attribute_starts,
        attribute_entries,
        counts.label_lists as usize,
        label_starts,
        label_entries,
        begins,
        ids,
        values,
        0,
        words as usize,
        path,
        amounts,
    );
    let finished = finished::finish_counts(features, amounts);
    finished
}
