// Training: what a visit, an epoch and a trained result are, for the three trainers. Definitions and theorems only, and the
// types that the trainers' code shares.
#![tactic(auto)]

// "A visit ends as unchanged, updated or refused."
#[derive(Clone, Copy)]
pub enum Visit {
    Unchanged,
    Updated,
    Refused(refusals::Refusal),
}

// A training step: how the last visit ended, beside the counters and the epoch's loss.
#[derive(Clone, Copy)]
pub struct Progress {
    pub visit: Visit,
    pub visits: u64,
    pub updates: u64,
    pub loss: f64,
}

// "The answer gives epochs run, visits and updates."
#[derive(Clone, Copy)]
pub struct Trained {
    pub epochs: u64,
    pub visits: u64,
    pub updates: u64,
}
