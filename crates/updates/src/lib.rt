// What is decided in a visit and in an epoch, apart from the tables; and what a visit does where labels differ: the update by the
// rule of its trainer, with refusals 8 and 9.
#![tactic(auto)]

ghost use Rattle.std.specs.Prelude.{◌&&◌, ◌≡◌, ◌≤◌, ◌<◌, ◌^◌, ◌+◌, eqb, length};
ghost use Rattle.std.specs.Float.Ieee.Scale.{finite};
ghost use Rattle.refusals.specs.Bounds.{the_instances, most};
ghost use Rattle.training.specs.Rules.{Learned, stops};
ghost use Rattle.training.specs.Visits.{refused_as, unchanged as unchanged_in};
ghost use Rattle.training.specs.Epochs.{is_refused, ends_after};
ghost use Rattle.parameters.specs.Trainers.{rule_of};
ghost use Rattle.updates.specs.Looked.{looked};
ghost use Rattle.binary64.specs.Numbers.{whole};
ghost use Rattle.training_tables.specs.Tables.{Held, Updated};
ghost use Rattle.updates.specs.Updating.{learned_as, state_of, mistake_with, Agreed, VisitCounted, settled};

use judging::Prediction;
use parameters::Trainer;
use training::{Progress, Visit};
use training_tables::Outcome;

// The place of 8 and of 9: "visits done".
fn place(s: Progress) -> u64
    requires { s.visits < 2 ^ 53 }
    ensures { result ≡ s.visits }
{
    s.visits
}

// A visit that is refused: the counters stay.
pub fn refuse(number: u32, s: Progress) -> Progress
    requires { s.visits < 2 ^ 53 }
    ensures { (learned : Learned) → result ≡ (refused_as number (record { progress = s; learned = learned })).progress }
{
    Progress {
        visit: Visit::Refused(refusals::numbered(number, place(s))),
        visits: s.visits,
        updates: s.updates,
        loss: s.loss,
    }
}

// A visit whose labels agree: it counts, and nothing is learned.
pub fn unchanged(s: Progress) -> Progress
    requires { (s.visits < 2 ^ 53) × (s.updates ≤ s.visits) }
    ensures { (learned : Learned) → result ≡ (unchanged_in (record { progress = s; learned = learned })).progress }
{
    Progress {
        visit: Visit::Unchanged,
        visits: s.visits + 1,
        updates: s.updates,
        loss: s.loss,
    }
}

// 8 for the scores, then whether the labels agree: the end of the visit, where it ends there.
fn look_at(scored: bool, agree: bool, s: Progress) -> Option<Progress>
    requires { (s.visits < 2 ^ 53) × (s.updates ≤ s.visits) }
    ensures { (learned : Learned) → result ≡ looked scored agree (record { progress = s; learned = learned }) }
{
    if !scored {
        return Some(refuse(8, s));
    }
    if agree {
        return Some(unchanged(s));
    }
    None
}

// The labels agree where none is wrong, whichever the epoch.
fn agree(wrong: u32) -> bool
    ensures { result ≡ eqb wrong 0 }
{
    wrong == 0
}

// What a visit finds before it learns: that it ends there, or that labels differ.
pub fn look(scored: bool, wrong: u32, s: Progress) -> Option<Progress>
    requires { (s.visits < 2 ^ 53) × (s.updates ≤ s.visits) }
    ensures { (learned : Learned) → result ≡ looked scored (eqb wrong 0) (record { progress = s; learned = learned }) }
{
    look_at(scored, agree(wrong), s)
}

// 9: whether the tables that a visit changed are finite, and the epoch's loss.
pub fn holds(tables: bool, loss: f64) -> bool
    ensures { result ≡ tables && finite loss }
{
    tables & binary64::is_finite(loss)
}

pub fn is_refused(v: Visit) -> bool
    ensures { result ≡ is_refused v }
{
    matches!(v, Visit::Refused(_))
}

// Whether an epoch's rate of loss ends training: below epsilon, with AROW also at it.
fn is_low(trainer: Trainer, epsilon: f64, rate: f64) -> bool
    ensures { result ≡ stops (rule_of trainer) epsilon rate }
{
    match trainer {
        Trainer::Perceptron => rate < epsilon,
        Trainer::Passive { .. } => rate < epsilon,
        Trainer::Arow { .. } => rate <= epsilon,
    }
}

// Whether training ends after an epoch.
pub fn ends(trainer: Trainer, epsilon: f64, instances: usize, s: Progress) -> bool
    requires { instances ≤ most the_instances }
    ensures { result ≡ ends_after (stops (rule_of trainer) epsilon) instances s }
{
    let v = s.visit;
    let loss = s.loss;
    if is_refused(v) {
        return true;
    }
    is_low(trainer, epsilon, loss / (instances as f64))
}

// The update by the trainer's rule.
fn update(
    trainer: Trainer,
    features: usize,
    words: u32,
    weight: f64,
    counter: f64,
    p: Prediction,
    truly: &[f64],
    predicted: &[f64],
    weights: &mut [f64],
    beside: &mut [f64],
) -> Outcome
    requires { (p.wrong ≤ 128) × Held features (length truly.now) (length predicted.now) (length weights.old) (length beside.old) }
    ensures { let k = mistake_with words p truly.now predicted.now weight counter in
        Updated (rule_of trainer) features k (learned_as weights.old beside.old) (learned_as weights.new beside.new) result }
{
    match trainer {
        Trainer::Perceptron => perceptron_update::update(
            features, words, p.wrong, weight, counter, truly, predicted, weights, beside,
        ),
        Trainer::Passive {
            variant,
            c,
            sensitive,
            averaging,
        } => passive_aggressive::update(
            features, variant, c, sensitive, averaging, p.wrong, p.reached, p.wanted, weight,
            counter, truly, predicted, weights, beside,
        ),
        Trainer::Arow { variance: _, gamma } => arow::update(
            features, gamma, p.wrong, p.reached, p.wanted, weight, truly, predicted, weights,
            beside,
        ),
    }
}

// The update, then 8 for the counts, then 9 for the tables and the epoch's loss. Weights that are finite after it tell that the
// counts were, so those are looked at only where something is not finite; the tables of a refused visit are read by nobody.
pub fn learn(
    trainer: Trainer,
    features: usize,
    words: u32,
    weight: f64,
    p: Prediction,
    s: Progress,
    truly: &[f64],
    predicted: &[f64],
    weights: &mut [f64],
    beside: &mut [f64],
) -> Progress
    requires wrong_bound { (p.wrong ≤ 128) × Held features (length truly.now) (length predicted.now) (length weights.old) (length beside.old) }
    requires visits_bound { (s.visits < 2 ^ 53) × (s.updates ≤ s.visits) }
    ensures fact { let k = mistake_with words p truly.now predicted.now weight (whole (s.visits + 1)) in
        let before = state_of s weights.old beside.old in
        Agreed (state_of result weights.new beside.new) (settled (rule_of trainer) features k before) }
    ensures visit_counted { VisitCounted s result }
{
    let visits = s.visits + 1;
    let counter = visits as f64;
    let outcome = update(
        trainer, features, words, weight, counter, p, truly, predicted, weights, beside,
    );
    let loss = s.loss + outcome.loss;
    if holds(outcome.finite, loss) {
        let updates = s.updates + 1;
        return Progress {
            visit: Visit::Updated,
            visits: visits,
            updates: updates,
            loss: loss,
        };
    }
    if fronts::all_finite(truly, features) & fronts::all_finite(predicted, features) {
        refuse(9, s)
    } else {
        refuse(8, s)
    }
}
