// The passive-aggressive update: weights and, with averaging, running sums after a visit whose labels differ, and what it
// adds to the epoch's loss.
#![tactic(auto)]

ghost use Rattle.std.specs.Prelude.{cond, false, ◌≡◌, ◌+◌, ◌-◌, ◌<◌, ◌≤◌, ℕ, length, set};
ghost use Rattle.lines.specs.Passes.{through};
ghost use Rattle.binary64.specs.Numbers.{nought, whole};
ghost use Rattle.training.specs.Rules.{squared, pulled, step_of, ◌⊕◌, ◌⊖◌, passive};
ghost use Rattle.training_tables.specs.Tables.{Both, Held, Moved, Updated};
ghost use Rattle.passive_aggressive.specs.Noted.{differing, fours_added, FourNotes};
ghost use Rattle.std.specs.Float.Ieee.{lt};
ghost use Rattle.roots.specs.Root.{nearest_root};

use training_tables::Outcome;

// What is asked of the true path beside the predicted one's score: the root of the number of wrong labels where the switch is
// on, else 1.
fn margin(sensitive: bool, wrong: u32) -> f64
    requires { wrong ≤ 128 }
    ensures { result ≡ cond sensitive (nearest_root wrong) (whole 1) }
{
    if sensitive { roots::root(wrong) } else { 1.0 }
}

// How far the predicted path's score is above the true one's, and the margin.
pub fn cost_of(sensitive: bool, wrong: u32, reached: f64, wanted: f64) -> f64
    requires { wrong ≤ 128 }
    ensures { result ≡ (reached ⊖ wanted) ⊕ cond sensitive (nearest_root wrong) (whole 1) }
{
    reached - wanted + margin(sensitive, wrong)
}

// The step by its variant: 0 Pa, 1 PaI, 2 PaII.
pub fn step_of(variant: u32, c: f64, cost: f64, norm: f64) -> f64
    ensures { result ≡ step_of variant c cost norm }
{
    if variant == 0 {
        return cost / norm;
    }
    if variant == 1 {
        return binary64::min(c, cost / norm);
    }
    cost / (norm + 1.0 / (2.0 * c))
}

// No step where no feature tells the two paths apart.
pub fn tau_of(variant: u32, c: f64, cost: f64, norm: f64) -> f64
    ensures { result ≡ cond (lt nought norm) (step_of variant c cost norm) nought }
{
    if 0.0 < norm {
        step_of(variant, c, cost, norm)
    } else {
        0.0
    }
}

// How many fours of features are noted before they are added up.
const NOTES: usize = 32;

// The differences of counts from one feature up to another, squared and added to a sum.
fn add_up(sum: f64, truly: &[f64], predicted: &[f64], first: usize, last: usize) -> f64
    requires { Both last (length truly.now) (length predicted.now) }
    ensures { result ≡ through (squared truly.now predicted.now) first (last - first) sum }
{
    let mut s = sum;
    for i in first..last {
        let delta = truly[i] - predicted[i];
        s += delta * delta;
    }
    s
}

// The counts of one of the four features from here on differ.
fn differ(truly: &[f64], predicted: &[f64], first: usize) -> bool
    requires { Both (first + 4) (length truly.now) (length predicted.now) }
    ensures { result ≡ through (differing truly.now predicted.now) first 4 false }
{
    let mut any = false;
    for i in first..first + 4 {
        any |= truly[i] - predicted[i] != 0.0;
    }
    any
}

// Four features are noted: the note stays where their counts differ, and otherwise the next one takes its place.
fn note(truly: &[f64], predicted: &[f64], first: usize, noted: usize, who: &mut [usize]) -> usize
    requires both { Both (first + 4) (length truly.now) (length predicted.now) }
    requires noted_in_bounds { noted < length who.old }
    ensures who_after { who.new ≡ set who.old noted first }
    ensures value { result ≡ cond (through (differing truly.now predicted.now) first 4 false) (noted + 1) noted }
{
    who[noted] = first;
    if differ(truly, predicted, first) {
        noted + 1
    } else {
        noted
    }
}

// The noted fours are added up, in their order.
fn settle(
    features: usize,
    truly: &[f64],
    predicted: &[f64],
    who: &[usize],
    noted: usize,
    sum: f64,
) -> f64
    requires both { Both features (length truly.now) (length predicted.now) }
    requires four_notes { FourNotes features who.now noted }
    ensures { result ≡ fours_added truly.now predicted.now who.now noted sum }
{
    let mut s = sum;
    for &first in &who[..noted] {
        s = add_up(s, truly, predicted, first, first + 4);
    }
    s
}

// The differences of counts, squared and added up. The instance's weight is not in them. A sum waits for the one before it,
// and the counts of few features differ: so the others are passed over, by fours.
pub fn norm(features: usize, truly: &[f64], predicted: &[f64]) -> f64
    requires { Both features (length truly.now) (length predicted.now) }
    ensures { result ≡ through (squared truly.now predicted.now) 0 features nought }
{
    let mut who = [0usize; NOTES];
    let mut noted = 0usize;
    let mut sum = 0.0;
    let fours = features / 4;
    for four in 0..fours {
        noted = note(truly, predicted, 4 * four, noted, &mut who);
        if noted == NOTES {
            sum = settle(features, truly, predicted, &who, noted, sum);
            noted = 0;
        }
    }
    let so_far = settle(features, truly, predicted, &who, noted, sum);
    add_up(so_far, truly, predicted, 4 * fours, features)
}

// Each feature's difference of counts, times the step, goes to its weight and, with averaging, times the counter too, to its
// running sum. The answer is whether both tables are finite then.
pub fn pull(
    features: usize,
    averaging: bool,
    tau: f64,
    counter: f64,
    truly: &[f64],
    predicted: &[f64],
    weights: &mut [f64],
    sums: &mut [f64],
) -> bool
    requires { Held features (length truly.now) (length predicted.now) (length weights.old) (length sums.old) }
    ensures { Moved features (pulled truly.now predicted.now averaging tau counter) (record { weights = weights.old; beside = sums.old }) (record { weights = weights.new; beside = sums.new }) result }
{
    let mut all = true;
    for i in 0..features {
        let delta = truly[i] - predicted[i];
        let w = weights[i] + tau * delta;
        weights[i] = w;
        if averaging {
            sums[i] += tau * counter * delta;
        }
        all &= binary64::are_finite(w, sums[i]);
    }
    all
}

// The whole update. It does not look at the number of words.
pub fn update(
    features: usize,
    variant: u32,
    c: f64,
    sensitive: bool,
    averaging: bool,
    wrong: u32,
    reached: f64,
    wanted: f64,
    weight: f64,
    counter: f64,
    truly: &[f64],
    predicted: &[f64],
    weights: &mut [f64],
    sums: &mut [f64],
) -> Outcome
    requires { (wrong ≤ 128) × Held features (length truly.now) (length predicted.now) (length weights.old) (length sums.old) }
    ensures { (words : ℕ) →
        Updated (passive variant c sensitive averaging) features
        (record { words = words; wrong = wrong; truly = truly.now; predicted = predicted.now; true_score = wanted; predicted_score = reached; weight = weight; counter = counter })
        (record { weights = weights.old; beside = sums.old })
        (record { weights = weights.new; beside = sums.new }) result }
{
    let cost = cost_of(sensitive, wrong, reached, wanted);
    let norm = norm(features, truly, predicted);
    let tau = tau_of(variant, c, cost, norm);
    let all = pull(
        features,
        averaging,
        tau * weight,
        counter,
        truly,
        predicted,
        weights,
        sums,
    );
    Outcome {
        loss: cost * weight,
        finite: all,
    }
}
