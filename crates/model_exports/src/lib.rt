// The check of a model, and its weights, for programs in C and Rust. Each is thin: one call of the crate feature_gen, and its
// answer as numbers.
#![tactic(auto)]

ghost use Rattle.feature_gen.specs.Lent.{model_was};
ghost use Rattle.model_exports.specs.Model.{Checks, Sets};

use answers::checks::Refused;
use feature_gen::Counts;

// Whether a model is one that document 01 accepts.
#[unsafe(no_mangle)]
pub extern "C" fn bodkinbloom_check_model(
    labels: u32,
    counts: Counts,
    kinds: &[u8],
    destinations: &[u32],
    sources: &[u32],
    weights: &[f64],
    attribute_starts: &[u32],
    attribute_entries: &[u32],
    label_starts: &[u32],
    label_entries: &[u32],
) -> Refused
    ensures { let model = model_was labels counts kinds destinations sources attribute_starts attribute_entries label_starts label_entries in
        Checks (record { model = model; weights = weights.now }) result }
{
    Refused::from(feature_gen::check_model(
        labels,
        counts,
        kinds,
        destinations,
        sources,
        weights,
        attribute_starts,
        attribute_entries,
        label_starts,
        label_entries,
    ))
}

// Every feature gets a new weight, in the front of `weights`.
#[unsafe(no_mangle)]
pub extern "C" fn bodkinbloom_set_weights(
    features: u32,
    new: &[f64],
    weights: &mut [f64],
) -> Refused
    ensures { Sets (record { features = features; new = new.now }) weights.old (record { answer = result; weights = weights.new }) }
{
    Refused::from(set_weights::set_weights(features, new, weights))
}
