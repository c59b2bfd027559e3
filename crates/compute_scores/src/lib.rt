// The state and transition scores of a line: `compute_scores` of crf_context.rs, over flat tables and into lent buffers. For each
// attribute of a word the State entries of its list are added up in the word's row, and the Transition entries of the label lists by
// source and destination; training uses these loops too. The call tests all it is given, with refusals 1 to 6 beforehand and 8 afterwards.
#![tactic(auto)]

ghost use Rattle.std.specs.Prelude.{◌≡◌, ◌++◌, [], ◌*◌, ◌≤◌, ◌<◌, ◌+◌, ℕ, ◌-◌, length, drop, get_or};
ghost use Rattle.lines.specs.Spans.{through_span, SoundSpan};
ghost use Rattle.lines.specs.Sound.{SoundStates, SoundLists, SoundWords, SoundTransitions};
ghost use Rattle.lines.specs.Scored.{state_entry_of, scored_at, states_of, transition_entry_of, transitions_of};
ghost use Rattle.lines.specs.Entry.{line_of, line_was};
ghost use Rattle.lines.specs.Lent.{bare};
ghost use Rattle.lines.specs.Passes.{through};
ghost use Rattle.lines.specs.Tables.{Model};
ghost use Rattle.compute_scores.specs.StateEntry.{states_was};
ghost use Rattle.compute_scores.specs.TransitionEntry.{transitions_was};
ghost use Rattle.feature_gen.specs.Lent.{model_at, model_was};
ghost use Rattle.line_check.specs.Sound.{SoundScoring};
ghost use Rattle.compute_scores.specs.Entry.{given_at, given_was, buffers_of};
ghost use Rattle.compute_scores.specs.Promise.{states_of_line, transitions_of_line, scoring_of, Promised};

use feature_gen::Counts;
use lines::{Attribute, Span};
use refusals::Refusal;

// The entry at a place of the attribute lists: a State adds weight·value in the word's row, at its destination.
fn state_entry(
    labels: usize,
    features: usize,
    kinds: &[u8],
    destinations: &[u32],
    weights: &[f64],
    entries: &[u32],
    word: usize,
    value: f64,
    e: usize,
    states: &mut [f64],
)
    requires sound_states { SoundStates labels features kinds.now destinations.now weights.now }
    requires e_in_bounds { e < length entries.now }
    requires e_bound { get_or entries.now e 0 < features }
    requires labels_in_bounds { (word + 1) * labels ≤ length states.old }
    ensures { let m = states_was bare labels features kinds destinations 0 [] entries in
        states.new ≡ state_entry_of m weights.now word value e states.old }
{
    let i = lines::at(entries, e);
    if kinds[i] == 0 {
        let p = word * labels + lines::at(destinations, i);
        let weight = weights[i];
        states[p] += weight * value;
    }
}

// An attribute of a word, with the places of its list.
pub fn score_attribute(
    labels: usize,
    features: usize,
    kinds: &[u8],
    destinations: &[u32],
    weights: &[f64],
    entries: &[u32],
    word: usize,
    attribute: Attribute,
    span: Span,
    states: &mut [f64],
)
    requires sound_states { SoundStates labels features kinds.now destinations.now weights.now }
    requires sound_span { SoundSpan span entries.now features }
    requires labels_in_bounds { (word + 1) * labels ≤ length states.old }
    ensures { let m = states_was bare labels features kinds destinations 0 [] entries in
        states.new ≡ through_span (state_entry_of m weights.now word attribute.value) span states.old }
{
    let value = attribute.value;
    for e in span.first..span.last {
        state_entry(
            labels,
            features,
            kinds,
            destinations,
            weights,
            entries,
            word,
            value,
            e,
            states,
        );
    }
}

// The attributes of a word, in order. The next attribute's list is found before the entries of this one are added, so that no
// entry waits for the starts.
fn score_word(
    labels: usize,
    features: usize,
    kinds: &[u8],
    destinations: &[u32],
    weights: &[f64],
    lists: usize,
    starts: &[u32],
    entries: &[u32],
    ids: &[u32],
    values: &[f64],
    from: usize,
    to: usize,
    word: usize,
    states: &mut [f64],
)
    requires sound_states { SoundStates labels features kinds.now destinations.now weights.now }
    requires sound_lists { SoundLists lists starts.now entries.now features }
    requires to_in_bounds { to ≤ length ids.now }
    requires to_in_bounds_2 { to ≤ length values.now }
    requires labels_in_bounds { (word + 1) * labels ≤ length states.old }
    ensures { let m = states_was bare labels features kinds destinations lists starts.now entries in
        let d = line_of 0 [] ids.now values.now in
        states.new ≡ through (scored_at m weights.now d word) from (to - from) states.old }
{
    if from < to {
        let mut attribute = lines::attribute_before(ids, values, to, from);
        let mut span = lines::attribute_span(lists, starts, attribute);
        for a in from..to {
            let next = lines::attribute_before(ids, values, to, a + 1);
            let ahead = lines::attribute_span(lists, starts, next);
            score_attribute(
                labels,
                features,
                kinds,
                destinations,
                weights,
                entries,
                word,
                attribute,
                span,
                states,
            );
            attribute = next;
            span = ahead;
        }
    }
}

// The state scores of the line of so many words that begins at the word `first` of the words' table, in the front of the buffer.
pub fn score_line(
    labels: usize,
    features: usize,
    kinds: &[u8],
    destinations: &[u32],
    weights: &[f64],
    lists: usize,
    starts: &[u32],
    entries: &[u32],
    begins: &[u32],
    ids: &[u32],
    values: &[f64],
    first: usize,
    words: usize,
    states: &mut [f64],
)
    requires sound_states { SoundStates labels features kinds.now destinations.now weights.now }
    requires sound_lists { SoundLists lists starts.now entries.now features }
    requires sound_words { SoundWords (first + words) begins.now ids.now values.now }
    requires labels_in_bounds { words * labels ≤ length states.old }
    ensures { (rest : Model) (size : ℕ) →
        let m = states_was rest labels features kinds destinations lists starts.now entries in
        let d = line_was size begins ids values in
        states.new ≡ states_of m weights.now d first words ++ drop (words * labels) states.old }
{
    fronts::fill(states, words * labels, 0.0);
    for word in 0..words {
        let from = lines::at(begins, first + word);
        let to = lines::at(begins, first + word + 1);
        score_word(
            labels,
            features,
            kinds,
            destinations,
            weights,
            lists,
            starts,
            entries,
            ids,
            values,
            from,
            to,
            word,
            states,
        );
    }
}

// The entry at a place of the label lists: a Transition adds its weight at its own source and destination.
fn transition_entry(
    labels: usize,
    features: usize,
    kinds: &[u8],
    destinations: &[u32],
    sources: &[u32],
    weights: &[f64],
    entries: &[u32],
    e: usize,
    transitions: &mut [f64],
)
    requires sound_transitions { SoundTransitions labels features kinds.now destinations.now sources.now weights.now }
    requires e_in_bounds { e < length entries.now }
    requires e_bound { get_or entries.now e 0 < features }
    requires labels_in_bounds { labels * labels ≤ length transitions.old }
    ensures { let m = transitions_was bare labels features kinds destinations sources 0 [] entries in
        transitions.new ≡ transition_entry_of m weights.now e transitions.old }
{
    let i = lines::at(entries, e);
    if kinds[i] == 1 {
        let source = lines::at(sources, i);
        let destination = lines::at(destinations, i);
        let p = source * labels + destination;
        transitions[p] += weights[i];
    }
}

// The entries of a label's list.
pub fn score_label(
    labels: usize,
    features: usize,
    kinds: &[u8],
    destinations: &[u32],
    sources: &[u32],
    weights: &[f64],
    entries: &[u32],
    span: Span,
    transitions: &mut [f64],
)
    requires sound_transitions { SoundTransitions labels features kinds.now destinations.now sources.now weights.now }
    requires sound_span { SoundSpan span entries.now features }
    requires labels_in_bounds { labels * labels ≤ length transitions.old }
    ensures { let m = transitions_was bare labels features kinds destinations sources 0 [] entries in
        transitions.new ≡ through_span (transition_entry_of m weights.now) span transitions.old }
{
    for e in span.first..span.last {
        transition_entry(
            labels,
            features,
            kinds,
            destinations,
            sources,
            weights,
            entries,
            e,
            transitions,
        );
    }
}

// The transition scores, in the front of the buffer: the label lists numbered below both L and their number, rising.
pub fn score_transitions(
    labels: usize,
    features: usize,
    kinds: &[u8],
    destinations: &[u32],
    sources: &[u32],
    weights: &[f64],
    lists: usize,
    starts: &[u32],
    entries: &[u32],
    transitions: &mut [f64],
)
    requires sound_transitions { SoundTransitions labels features kinds.now destinations.now sources.now weights.now }
    requires sound_lists { SoundLists lists starts.now entries.now features }
    requires labels_in_bounds { labels * labels ≤ length transitions.old }
    ensures { (rest : Model) →
        let m = transitions_was rest labels features kinds destinations sources lists starts.now entries in
        transitions.new ≡ transitions_of m weights.now ++ drop (labels * labels) transitions.old }
{
    fronts::fill(transitions, labels * labels, 0.0);
    for label in 0..labels.min(lists) {
        let span = lines::list_span(lists, starts, label);
        score_label(
            labels,
            features,
            kinds,
            destinations,
            sources,
            weights,
            entries,
            span,
            transitions,
        );
    }
}

// The scores of a line that is accepted, in the fronts of the buffers.
pub fn fill_scores(
    labels: u32,
    words: u32,
    counts: Counts,
    kinds: &[u8],
    destinations: &[u32],
    sources: &[u32],
    weights: &[f64],
    attribute_starts: &[u32],
    attribute_entries: &[u32],
    label_starts: &[u32],
    label_entries: &[u32],
    attributes: u32,
    begins: &[u32],
    ids: &[u32],
    values: &[f64],
    transitions: &mut [f64],
    states: &mut [f64],
)
    requires { let m = model_at labels counts kinds destinations sources attribute_starts attribute_entries label_starts label_entries in
        let g = given_at m weights words attributes begins ids values in
        SoundScoring (scoring_of g (buffers_of transitions.old states.old)) }
    ensures transitions_after { let m = model_was labels counts kinds destinations sources attribute_starts attribute_entries label_starts label_entries in
        let g = given_was m weights words attributes begins ids values in
        transitions.new ≡ transitions_of_line g ++ drop (labels * labels) transitions.old }
    ensures states_after { let m = model_was labels counts kinds destinations sources attribute_starts attribute_entries label_starts label_entries in
        let g = given_was m weights words attributes begins ids values in
        states.new ≡ states_of_line g ++ drop (words * labels) states.old }
{
    let width = labels as usize;
    let features = counts.features as usize;
    score_line(
        width,
        features,
        kinds,
        destinations,
        weights,
        counts.attribute_lists as usize,
        attribute_starts,
        attribute_entries,
        begins,
        ids,
        values,
        0,
        words as usize,
        states,
    );
    score_transitions(
        width,
        features,
        kinds,
        destinations,
        sources,
        weights,
        counts.label_lists as usize,
        label_starts,
        label_entries,
        transitions,
    );
}

// The transition and state scores of a line, in the fronts of `transitions` and `states`; or the refusal.
pub fn compute_scores(
    labels: u32,
    words: u32,
    counts: Counts,
    kinds: &[u8],
    destinations: &[u32],
    sources: &[u32],
    weights: &[f64],
    attribute_starts: &[u32],
    attribute_entries: &[u32],
    label_starts: &[u32],
    label_entries: &[u32],
    attributes: u32,
    begins: &[u32],
    ids: &[u32],
    values: &[f64],
    transitions: &mut [f64],
    states: &mut [f64],
) -> Result<(), Refusal>
    ensures { let m = model_was labels counts kinds destinations sources attribute_starts attribute_entries label_starts label_entries in
        let g = given_was m weights words attributes begins ids values in
        let b = buffers_of transitions.old states.old in
        Promised g b (record { answer = result; transitions = transitions.new; states = states.new }) }
{
    if let Err(why) = line_check::check_scoring(
        labels,
        counts,
        kinds,
        destinations,
        sources,
        weights,
        attribute_starts,
        attribute_entries,
        label_starts,
        label_entries,
        words,
        attributes,
        begins,
        ids,
        values,
        transitions.len(),
        states.len(),
    ) {
        return finished::refuse_scores(why, states, transitions);
    }
    fill_scores(
        labels,
        words,
        counts,
        kinds,
        destinations,
        sources,
        weights,
        attribute_starts,
        attribute_entries,
        label_starts,
        label_entries,
        attributes,
        begins,
        ids,
        values,
        transitions,
        states,
    );
    let finished = finished::finish_scores(labels, words, transitions, states);
    finished
}
