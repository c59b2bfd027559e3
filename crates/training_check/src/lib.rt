// The checks of a trainer's input, which the three trainers share: document 01's refusal 1, then the sooner of the checks of the
// model's tables, of the instances, and of the lent buffers. Refusal 7 comes after them: each trainer's own parameters are
// tested in the crate parameters.
#![tactic(auto)]

ghost use Rattle.std.specs.Prelude.{◌≡◌, ◌-◌, ◌<◌, length};
ghost use Rattle.refusals.specs.Bounds.{the_line_words, outside_its};
ghost use Rattle.refusal_rows.specs.Tests.{lengths_checked};
ghost use Rattle.feature_gen.specs.Lent.{model_was};
ghost use Rattle.lines.specs.Entry.{data_was};
ghost use Rattle.training_check.specs.Parts.{instances_sized, instances_checked, data_checked, lent_checked, input_checked};

use feature_gen::Counts;
use lines::Totals;
use refusals::Refusal;

pub const MOST_INSTANCES: u32 = 16384;

pub const MOST_WORDS_IN_ALL: u32 = 1048576;

// How long the lent result and work buffers are: the weights and the table beside them, the true and the predicted counts, and
// the order of the instances.
#[derive(Clone, Copy)]
pub struct Lent {
    pub weights: usize,
    pub beside: usize,
    pub truly: usize,
    pub predicted: usize,
    pub order: usize,
}

// Whether so many words, from one start to the next, are none or too many for a line.
fn is_bad_length(start: u32, next: u32) -> bool
    ensures { result ≡ outside_its the_line_words (next - start) }
{
    if start < next {
        refusals::is_outside(1, score_tables::MOST_WORDS, next - start)
    } else {
        true
    }
}

// 4: an instance has 1 to 128 words.
pub fn check_lengths(lines: &[u32], n: usize) -> Result<(), Refusal>
    requires { n < length lines.now }
    ensures { result ≡ lengths_checked lines.now n }
{
    for i in 0..n {
        let bad = is_bad_length(lines[i], lines[i + 1]);
        if bad {
            return refusals::refused(4, i);
        }
    }
    Ok(())
}

// 2 of the instances: what can be said of them before any table is read.
#[tactic(auto, unfolding(crate::specs::Parts::instances_sized))]
fn check_sizes(totals: Totals, lines: &[u32]) -> Result<(), Refusal>
    ensures { result ≡ instances_sized totals.instances totals.words lines.now }
{
    let broken = refusals::is_outside(1, MOST_INSTANCES, totals.instances)
        | (MOST_WORDS_IN_ALL < totals.words)
        | (lines.len() < totals.instances as usize + 1);
    refusals::refuse_if(2, 0, broken)
}

// 2, 3 and 4 of the instances: how many there are, where each begins, and how many words it has.
#[tactic(auto, using(refusals::proofs::Laws::handed), unfolding(refusals::specs::Refusals::or_next_of, refusal_rows::specs::Parts::part_checked, crate::specs::Parts::instances_sized, crate::specs::Parts::instances_checked))]
fn check_instances(totals: Totals, lines: &[u32]) -> Result<(), Refusal>
    ensures { result ≡ instances_checked totals.instances totals.words lines.now }
{
    check_sizes(totals, lines)?;
    let n = totals.instances as usize;
    table_checks::check_starts(lines, n, totals.words)?;
    check_lengths(lines, n)
}

// 2 to 6 of the instances, their words, a reference label for each word and a weight for each instance.
fn check_data(
    labels: u32,
    totals: Totals,
    lines: &[u32],
    begins: &[u32],
    ids: &[u32],
    values: &[f64],
    references: &[u32],
    shares: &[f64],
) -> Result<(), Refusal>
    ensures { result ≡ data_checked labels (data_was totals lines begins ids values references shares) }
{
    let instances = check_instances(totals, lines);
    let line = line_check::check_line(totals.words, totals.attributes, begins, ids, values);
    let words = refusals::sooner(instances, line);
    let labelled = line_check::check_labels(labels, totals.words, references);
    let both = refusals::sooner(words, labelled);
    refusals::sooner(both, feature_gen::check_weights(shares, totals.instances))
}

// 2 of the result and work buffers.
#[tactic(auto, unfolding(refusals::specs::Refusals::or_next_of, refusal_rows::specs::Parts::part_checked, crate::specs::Parts::lent_checked))]
fn check_lent(features: u32, instances: u32, lent: Lent) -> Result<(), Refusal>
    ensures { result ≡ lent_checked features instances lent }
{
    let short = (lent.weights < features as usize)
        | (lent.beside < features as usize)
        | (lent.truly < features as usize)
        | (lent.predicted < features as usize)
        | (lent.order < instances as usize);
    refusals::refuse_if(2, 0, short)
}

// Whether a trainer can learn from these tables, into buffers of these lengths.
pub fn check_input(
    labels: u32,
    counts: Counts,
    kinds: &[u8],
    destinations: &[u32],
    sources: &[u32],
    attribute_starts: &[u32],
    attribute_entries: &[u32],
    label_starts: &[u32],
    label_entries: &[u32],
    totals: Totals,
    lines: &[u32],
    begins: &[u32],
    ids: &[u32],
    values: &[f64],
    references: &[u32],
    shares: &[f64],
    lent: Lent,
) -> Result<(), Refusal>
    ensures { let m = model_was labels counts kinds destinations sources attribute_starts attribute_entries label_starts label_entries in
        result ≡ input_checked (record { model = m; corpus = data_was totals lines begins ids values references shares; lent = lent }) }
{
    score_tables::check_labels(labels)?;
    let tables = feature_gen::check_tables(
        labels,
        counts,
        kinds,
        destinations,
        sources,
        attribute_starts,
        attribute_entries,
        label_starts,
        label_entries,
    );
    let data = check_data(
        labels, totals, lines, begins, ids, values, references, shares,
    );
    let both = refusals::sooner(tables, data);
    let room = check_lent(counts.features, totals.instances, lent);
    refusals::sooner(both, room)
}
