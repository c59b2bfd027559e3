// The trainers, as one call with the method as a parameter. It tests all that it is given, with refusals 1 to 7, then learns.
#![tactic(auto)]

ghost use Rattle.std.specs.Prelude.{◌≡◌};
ghost use Rattle.feature_gen.specs.Lent.{model_was};
ghost use Rattle.lines.specs.Entry.{data_was};
ghost use Rattle.trainers.specs.Promise.{Given, Promised};
ghost use Rattle.trainers.specs.Lent.{buffers_of, sizes_for};

use feature_gen::Counts;
use lines::Totals;
use parameters::Method;
use prediction::Sizes;
use refusals::Refusal;
use training::Trained;
use training_check::Lent;

// The counts of the call, as they are used inside.
fn sizes_of(labels: u32, counts: Counts, totals: Totals) -> Sizes
    ensures { result ≡ sizes_for labels counts totals }
{
    Sizes {
        labels: labels as usize,
        features: counts.features as usize,
        attribute_lists: counts.attribute_lists as usize,
        label_lists: counts.label_lists as usize,
        attribute_entries: counts.attribute_entries as usize,
        label_entries: counts.label_entries as usize,
        instances: totals.instances as usize,
        words: totals.words as usize,
        attributes: totals.attributes as usize,
    }
}

// The trained weights at the front of `weights`, with epochs, visits and updates; or the refusal.
pub fn train(
    method: Method,
    labels: u32,
    counts: Counts,
    kinds: &[u8],
    destinations: &[u32],
    sources: &[u32],
    attribute_starts: &[u32],
    attribute_entries: &[u32],
    label_starts: &[u32],
    label_entries: &[u32],
    totals: Totals,
    lines: &[u32],
    begins: &[u32],
    ids: &[u32],
    values: &[f64],
    references: &[u32],
    shares: &[f64],
    weights: &mut [f64],
    beside: &mut [f64],
    truly: &mut [f64],
    predicted: &mut [f64],
    order: &mut [u32],
) -> Result<Trained, Refusal>
    ensures { let given : Given = record {
      model = model_was labels counts kinds destinations sources attribute_starts attribute_entries label_starts label_entries;
      corpus = data_was totals lines begins ids values references shares;
    } in
        let before = buffers_of weights.old beside.old truly.old predicted.old order.old in
        let after = buffers_of weights.new beside.new truly.new predicted.new order.new in
        Promised method given before (record { answer = result; after = after }) }
{
    let lent = Lent {
        weights: weights.len(),
        beside: beside.len(),
        truly: truly.len(),
        predicted: predicted.len(),
        order: order.len(),
    };
    let input = training_check::check_input(
        labels,
        counts,
        kinds,
        destinations,
        sources,
        attribute_starts,
        attribute_entries,
        label_starts,
        label_entries,
        totals,
        lines,
        begins,
        ids,
        values,
        references,
        shares,
        lent,
    );
    parameters::check_parameters(input, method)?;
    let trainer = parameters::trainer_of(method);
    let settings = parameters::settings_of(method);
    let sizes = sizes_of(labels, counts, totals);
    let features = counts.features as usize;
    let instances = totals.instances as usize;
    learning::train(
        trainer,
        sizes,
        kinds,
        destinations,
        sources,
        attribute_starts,
        attribute_entries,
        label_starts,
        label_entries,
        lines,
        begins,
        ids,
        values,
        references,
        shares,
        settings.epochs as u64,
        settings.epsilon,
        settings.seed,
        &mut order[..instances],
        &mut weights[..features],
        &mut beside[..features],
        &mut truly[..features],
        &mut predicted[..features],
    )
}
