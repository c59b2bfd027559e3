// `set_weights` of `feature_gen.rs`: every feature gets a new weight.
#![tactic(auto)]

ghost use Rattle.std.specs.Prelude.{◌≡◌, ◌++◌, ◌≤◌, length, take, drop};
ghost use Rattle.set_weights.specs.SetWeights.{new_checked, WeightsSet};

use refusals::Refusal;

// The first n of a table become those of another. As a loop: the library's copy takes more stack than a call from C may.
fn copy_front(n: usize, new: &[f64], weights: &mut [f64])
    requires n_in_bounds { n ≤ length new.now }
    requires n_in_bounds_2 { n ≤ length weights.old }
    ensures { weights.new ≡ take n new.now ++ drop n weights.old }
{
    for i in 0..n {
        weights[i] = new[i];
    }
}

// 2 of the count, 2 of the rooms, then 6, of new weights for a table of this length.
#[tactic(auto, using(refusals::proofs::Laws::handed), unfolding(refusals::specs::Refusals::or_next_of, crate::specs::SetWeights::new_checked))]
fn check_new(features: u32, new: &[f64], have: usize) -> Result<(), Refusal>
    ensures { result ≡ new_checked (record { features = features; new = new.now }) have }
{
    let n = features as usize;
    refusals::refuse_if(2, 0, feature_gen::MOST_FEATURES < features)?;
    refusals::refuse_if(2, 0, (new.len() < n) | (have < n))?;
    table_checks::check_numbers(new, n)
}

// Every feature gets a new weight. A call that is refused changes nothing.
pub fn set_weights(features: u32, new: &[f64], weights: &mut [f64]) -> Result<(), Refusal>
    ensures { WeightsSet (record { features = features; new = new.now }) weights.old (record { answer = result; weights = weights.new }) }
{
    check_new(features, new, weights.len())?;
    copy_front(features as usize, new, weights);
    Ok(())
}
