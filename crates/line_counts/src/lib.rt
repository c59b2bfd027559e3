// The feature counts of a line under labels, added up in a lent buffer: for each attribute of a word the entries of its list that are
// of the word's label, noted first and then added; and from the second word on the entries of the previous label's list that lead
// from that label to the word's. The loops of `extract_features`, which training uses too.
#![tactic(auto)]

ghost use Rattle.std.specs.Prelude.{◌≡◌, [], cond, ◌-◌, ◌≤◌, ◌<◌, ◌+◌, eqb, length, get_or, set};
ghost use Rattle.lines.specs.Passes.{through};
ghost use Rattle.lines.specs.Spans.{through_span, SoundSpan};
ghost use Rattle.lines.specs.Sound.{SoundLists, SoundCounts, SoundWords};
ghost use Rattle.lines.specs.Counted.{state_count, counted_at, counted_word, transition_count_of, counted_transition};
ghost use Rattle.lines.specs.Entry.{line_of, line_was};
ghost use Rattle.line_counts.specs.Noted.{note_added, notes_added, Notes};
ghost use Rattle.line_counts.specs.StateEntry.{state_counts_was};
ghost use Rattle.line_counts.specs.TransitionEntry.{transition_counts_was};

use lines::{Attribute, Span};

// How many entries are noted before they are added. Whether an entry is of the word's label cannot be foreseen, and a branch on
// it would cost more than the note.
const NOTES: usize = 64;

// The entry at a place of the attribute lists is noted: the note stays where the entry's label is the word's, and otherwise the
// next one takes its place.
fn note(
    destinations: &[u32],
    entries: &[u32],
    label: u32,
    value: f64,
    e: usize,
    noted: usize,
    who: &mut [usize],
    what: &mut [f64],
) -> usize
    requires e_in_bounds { e < length entries.now }
    requires e_in_bounds_2 { get_or entries.now e 0 < length destinations.now }
    requires noted_in_bounds { noted < length who.old }
    requires noted_in_bounds_2 { noted < length what.old }
    ensures who_after { who.new ≡ set who.old noted (get_or entries.now e 0) }
    ensures what_after { what.new ≡ set what.old noted value }
    ensures value { result ≡ cond (eqb (get_or destinations.now (get_or entries.now e 0) 0) label) (noted + 1) noted }
{
    let i = lines::at(entries, e);
    who[noted] = i;
    what[noted] = value;
    let destination = destinations[i];
    if destination == label {
        noted + 1
    } else {
        noted
    }
}

// A note is added, where its feature is a State.
fn add_note(kinds: &[u8], who: &[usize], what: &[f64], j: usize, counts: &mut [f64])
    requires j_in_bounds { j < length who.now }
    requires j_in_bounds_2 { j < length what.now }
    requires j_in_bounds_3 { get_or who.now j 0 < length kinds.now }
    requires j_in_bounds_4 { get_or who.now j 0 < length counts.old }
    ensures { counts.new ≡ note_added kinds.now who.now what.now j counts.old }
{
    let i = who[j];
    if kinds[i] == 0 {
        counts[i] += what[j];
    }
}

// The notes are added, in their order.
pub fn add_notes(
    features: usize,
    kinds: &[u8],
    who: &[usize],
    what: &[f64],
    noted: usize,
    counts: &mut [f64],
)
    requires features_in_bounds { features ≤ length kinds.now }
    requires notes { Notes features who.now what.now noted }
    requires features_in_bounds_2 { features ≤ length counts.old }
    ensures { counts.new ≡ notes_added kinds.now who.now what.now noted counts.old }
{
    for j in 0..noted {
        add_note(kinds, who, what, j, counts);
    }
}

// The entry at a place of the attribute lists: a State of the word's label adds the attribute's value.
fn count_entry(
    features: usize,
    kinds: &[u8],
    destinations: &[u32],
    entries: &[u32],
    label: u32,
    value: f64,
    e: usize,
    noted: usize,
    who: &mut [usize],
    what: &mut [f64],
    counts: &mut [f64],
) -> usize
    requires sound_counts { SoundCounts features kinds.now destinations.now }
    requires e_in_bounds { e < length entries.now }
    requires e_bound { get_or entries.now e 0 < features }
    requires notes { Notes features who.old what.old noted }
    requires noted_in_bounds { noted < length who.old }
    requires features_in_bounds { features ≤ length counts.old }
    ensures notes_2 { Notes features who.new what.new result }
    ensures upper_bound { result < length who.new }
    ensures counts_value { let m = state_counts_was features kinds destinations 0 [] entries in
        notes_added kinds.now who.new what.new result counts.new ≡ state_count m label value e (notes_added kinds.now who.old what.old noted counts.old) }
{
    let next = note(destinations, entries, label, value, e, noted, who, what);
    if next < who.len() {
        return next;
    }
    add_notes(features, kinds, who, what, next, counts);
    0
}

// An attribute of a word, with the places of its list.
pub fn count_attribute(
    features: usize,
    kinds: &[u8],
    destinations: &[u32],
    entries: &[u32],
    label: u32,
    attribute: Attribute,
    span: Span,
    noted: usize,
    who: &mut [usize],
    what: &mut [f64],
    counts: &mut [f64],
) -> usize
    requires sound_counts { SoundCounts features kinds.now destinations.now }
    requires sound_span { SoundSpan span entries.now features }
    requires notes { Notes features who.old what.old noted }
    requires noted_in_bounds { noted < length who.old }
    requires features_in_bounds { features ≤ length counts.old }
    ensures notes_2 { Notes features who.new what.new result }
    ensures upper_bound { result < length who.new }
    ensures counts_value { let m = state_counts_was features kinds destinations 0 [] entries in
        notes_added kinds.now who.new what.new result counts.new ≡ through_span (state_count m label attribute.value) span (notes_added kinds.now who.old what.old noted counts.old) }
{
    let value = attribute.value;
    let mut n = noted;
    for e in span.first..span.last {
        n = count_entry(
            features,
            kinds,
            destinations,
            entries,
            label,
            value,
            e,
            n,
            who,
            what,
            counts,
        );
    }
    n
}

// The attributes of a word, in scoring order, each with its list found a turn ahead.
fn count_word(
    features: usize,
    kinds: &[u8],
    destinations: &[u32],
    lists: usize,
    starts: &[u32],
    entries: &[u32],
    ids: &[u32],
    values: &[f64],
    from: usize,
    to: usize,
    label: u32,
    noted: usize,
    who: &mut [usize],
    what: &mut [f64],
    counts: &mut [f64],
) -> usize
    requires sound_counts { SoundCounts features kinds.now destinations.now }
    requires sound_lists { SoundLists lists starts.now entries.now features }
    requires to_in_bounds { to ≤ length ids.now }
    requires to_in_bounds_2 { to ≤ length values.now }
    requires notes { Notes features who.old what.old noted }
    requires noted_in_bounds { noted < length who.old }
    requires features_in_bounds { features ≤ length counts.old }
    ensures notes_2 { Notes features who.new what.new result }
    ensures upper_bound { result < length who.new }
    ensures counts_value { let m = state_counts_was features kinds destinations lists starts.now entries in
        let d = line_of 0 [] ids.now values.now in
        notes_added kinds.now who.new what.new result counts.new ≡ through (counted_at m d label) from (to - from) (notes_added kinds.now who.old what.old noted counts.old) }
{
    let mut n = noted;
    if from < to {
        let mut attribute = lines::attribute_before(ids, values, to, from);
        let mut span = lines::attribute_span(lists, starts, attribute);
        for a in from..to {
            let next = lines::attribute_before(ids, values, to, a + 1);
            let ahead = lines::attribute_span(lists, starts, next);
            n = count_attribute(
                features,
                kinds,
                destinations,
                entries,
                label,
                attribute,
                span,
                n,
                who,
                what,
                counts,
            );
            attribute = next;
            span = ahead;
        }
    }
    n
}

// The words of a line, each under its label.
pub fn count_words(
    features: usize,
    kinds: &[u8],
    destinations: &[u32],
    lists: usize,
    starts: &[u32],
    entries: &[u32],
    begins: &[u32],
    ids: &[u32],
    values: &[f64],
    first: usize,
    words: usize,
    labels: &[u32],
    counts: &mut [f64],
)
    requires sound_counts { SoundCounts features kinds.now destinations.now }
    requires sound_lists { SoundLists lists starts.now entries.now features }
    requires sound_words { SoundWords (first + words) begins.now ids.now values.now }
    requires words_in_bounds { words ≤ length labels.now }
    requires features_in_bounds { features ≤ length counts.old }
    ensures { let m = state_counts_was features kinds destinations lists starts.now entries in
        let d = line_was 0 begins ids values in
        counts.new ≡ through (counted_word m d first labels.now) 0 words counts.old }
{
    let mut who = [0usize; NOTES];
    let mut what = [0.0; NOTES];
    let mut noted = 0;
    for word in 0..words {
        let from = lines::at(begins, first + word);
        let to = lines::at(begins, first + word + 1);
        let label = labels[word];
        noted = count_word(
            features,
            kinds,
            destinations,
            lists,
            starts,
            entries,
            ids,
            values,
            from,
            to,
            label,
            noted,
            &mut who,
            &mut what,
            counts,
        );
    }
    add_notes(features, kinds, &who, &what, noted, counts);
}

// The entry at a place of the label lists: a Transition adds 1 where its source is the previous label and its destination the
// label at hand.
fn transition_count(
    features: usize,
    kinds: &[u8],
    destinations: &[u32],
    sources: &[u32],
    entries: &[u32],
    previous: u32,
    label: u32,
    e: usize,
    counts: &mut [f64],
)
    requires sound_counts { SoundCounts features kinds.now destinations.now }
    requires features_in_bounds { features ≤ length sources.now }
    requires e_in_bounds { e < length entries.now }
    requires e_bound { get_or entries.now e 0 < features }
    requires features_in_bounds_2 { features ≤ length counts.old }
    ensures { let m = transition_counts_was features kinds destinations sources 0 [] entries in
        counts.new ≡ transition_count_of m previous label e counts.old }
{
    let i = lines::at(entries, e);
    if destinations[i] == label {
        let source = sources[i];
        if source == previous {
            if kinds[i] == 1 {
                counts[i] += 1.0;
            }
        }
    }
}

// The entries of the previous label's list, at its places.
fn count_label(
    features: usize,
    kinds: &[u8],
    destinations: &[u32],
    sources: &[u32],
    entries: &[u32],
    previous: u32,
    label: u32,
    span: Span,
    counts: &mut [f64],
)
    requires sound_counts { SoundCounts features kinds.now destinations.now }
    requires features_in_bounds { features ≤ length sources.now }
    requires sound_span { SoundSpan span entries.now features }
    requires features_in_bounds_2 { features ≤ length counts.old }
    ensures { let m = transition_counts_was features kinds destinations sources 0 [] entries in
        counts.new ≡ through_span (transition_count_of m previous label) span counts.old }
{
    for e in span.first..span.last {
        transition_count(
            features,
            kinds,
            destinations,
            sources,
            entries,
            previous,
            label,
            e,
            counts,
        );
    }
}

// From the second word on, the list of the label before it. A label without a list has no transitions.
pub fn count_transitions(
    features: usize,
    kinds: &[u8],
    destinations: &[u32],
    sources: &[u32],
    lists: usize,
    starts: &[u32],
    entries: &[u32],
    words: usize,
    labels: &[u32],
    counts: &mut [f64],
)
    requires sound_counts { SoundCounts features kinds.now destinations.now }
    requires features_in_bounds { features ≤ length sources.now }
    requires sound_lists { SoundLists lists starts.now entries.now features }
    requires words_in_bounds { words ≤ length labels.now }
    requires features_in_bounds_2 { features ≤ length counts.old }
    ensures { let m = transition_counts_was features kinds destinations sources lists starts.now entries in
        counts.new ≡ through (counted_transition m labels.now) 1 (words - 1) counts.old }
{
    for word in 1..words {
        let previous = labels[word - 1];
        let label = labels[word];
        let span = lines::list_span(lists, starts, previous as usize);
        count_label(
            features,
            kinds,
            destinations,
            sources,
            entries,
            previous,
            label,
            span,
            counts,
        );
    }
}
