// The parameters of the three trainers, the trainer that they stand for, and refusal 7: "each trainer tests only its own".
#![tactic(auto)]

ghost use Rattle.std.specs.Prelude.{◌≡◌, [], ◌∷◌};
ghost use Rattle.refusals.specs.Refusals.{first_from, first};
ghost use Rattle.parameters.specs.Trainers.{on, rule_of, rule_for, settings_in, settings_for};
ghost use Rattle.parameters.specs.Parameters.{negative, not_above_zero, epochs, epsilon, sevens, passives_own, arows_own, own_of};

use refusals::Refusal;

pub const MOST_EPOCHS: u32 = 1000;

pub const LAST_VARIANT: u32 = 2;

#[repr(C)]
#[derive(Clone, Copy)]
pub struct Perceptron {
    pub epochs: u32,
    pub epsilon: f64,
    pub seed: u64,
}

// Variants 0 Pa, 1 PaI, 2 PaII. Of the two switches 0 is off and all else on.
#[repr(C)]
#[derive(Clone, Copy)]
pub struct Passive {
    pub epochs: u32,
    pub epsilon: f64,
    pub seed: u64,
    pub variant: u32,
    pub c: f64,
    pub sensitive: u32,
    pub averaging: u32,
}

#[repr(C)]
#[derive(Clone, Copy)]
pub struct Arow {
    pub epochs: u32,
    pub epsilon: f64,
    pub seed: u64,
    pub variance: f64,
    pub gamma: f64,
}

// Which trainer is called, and with which parameters.
#[derive(Clone, Copy)]
pub enum Method {
    AveragedPerceptron(Perceptron),
    PassiveAggressive(Passive),
    Arow(Arow),
}

// The epochs allowed, epsilon and the seed, which every method has.
#[derive(Clone, Copy)]
pub struct Settings {
    pub epochs: u32,
    pub epsilon: f64,
    pub seed: u64,
}

// A trainer with its own parameters; variants 0 Pa, 1 PaI, 2 PaII.
#[derive(Clone, Copy)]
pub enum Trainer {
    Perceptron,
    Passive {
        variant: u32,
        c: f64,
        sensitive: bool,
        averaging: bool,
    },
    Arow {
        variance: f64,
        gamma: f64,
    },
}

// A switch that comes as a number.
fn is_on(switch: u32) -> bool
    ensures { result ≡ on switch }
{
    switch != 0
}

// The trainer that a method stands for.
pub fn trainer_of(method: Method) -> Trainer
    ensures { rule_of result ≡ rule_for method }
{
    match method {
        Method::AveragedPerceptron(_) => Trainer::Perceptron,
        Method::PassiveAggressive(p) => Trainer::Passive {
            variant: p.variant,
            c: p.c,
            sensitive: is_on(p.sensitive),
            averaging: is_on(p.averaging),
        },
        Method::Arow(p) => Trainer::Arow {
            variance: p.variance,
            gamma: p.gamma,
        },
    }
}

// What every method has.
pub fn settings_of(method: Method) -> Settings
    ensures { settings_in result ≡ settings_for method }
{
    match method {
        Method::AveragedPerceptron(p) => Settings {
            epochs: p.epochs,
            epsilon: p.epsilon,
            seed: p.seed,
        },
        Method::PassiveAggressive(p) => Settings {
            epochs: p.epochs,
            epsilon: p.epsilon,
            seed: p.seed,
        },
        Method::Arow(p) => Settings {
            epochs: p.epochs,
            epsilon: p.epsilon,
            seed: p.seed,
        },
    }
}

// Below 0, or not finite: −0 is neither.
fn is_negative(x: f64) -> bool
    ensures { result ≡ negative x }
{
    (x < 0.0) | !binary64::is_finite(x)
}

// Not above 0, or not finite.
fn is_not_above_zero(x: f64) -> bool
    ensures { result ≡ not_above_zero x }
{
    !(0.0 < x) | !binary64::is_finite(x)
}

// Epochs and epsilon, which every trainer has.
#[tactic(auto, using(refusals::proofs::Laws::handed), unfolding(refusals::specs::Refusals::or_next_of))]
fn check_shared(rounds: u32, stop: f64) -> Result<(), Refusal>
    ensures { result ≡ first (sevens (epochs rounds ∷ epsilon stop ∷ [])) }
{
    refusals::refuse_if(7, 1, refusals::is_outside(1, MOST_EPOCHS, rounds))?;
    refusals::refuse_if(7, 2, is_negative(stop))
}

// C is tested for every variant, as in the Rust's setter.
#[tactic(auto, using(refusals::proofs::Laws::handed), unfolding(refusals::specs::Refusals::or_next_of))]
fn check_passive(parameters: Passive) -> Result<(), Refusal>
    ensures { result ≡ first (sevens (passives_own parameters)) }
{
    check_shared(parameters.epochs, parameters.epsilon)?;
    refusals::refuse_if(7, 3, is_not_above_zero(parameters.c))?;
    refusals::refuse_if(7, 5, LAST_VARIANT < parameters.variant)
}

#[tactic(auto, using(refusals::proofs::Laws::handed), unfolding(refusals::specs::Refusals::or_next_of))]
fn check_arow(parameters: Arow) -> Result<(), Refusal>
    ensures { result ≡ first (sevens (arows_own parameters)) }
{
    check_shared(parameters.epochs, parameters.epsilon)?;
    refusals::refuse_if(7, 3, is_not_above_zero(parameters.variance))?;
    refusals::refuse_if(7, 4, is_not_above_zero(parameters.gamma))
}

// 7 after the answer of an input's check: each method's own.
#[tactic(auto, using(refusals::proofs::Laws::handed), unfolding(refusals::specs::Refusals::or_next_of))]
pub fn check_parameters(input: Result<(), Refusal>, method: Method) -> Result<(), Refusal>
    ensures { result ≡ first_from input (sevens (own_of method)) }
{
    input?;
    match method {
        Method::AveragedPerceptron(p) => check_shared(p.epochs, p.epsilon),
        Method::PassiveAggressive(p) => check_passive(p),
        Method::Arow(p) => check_arow(p),
    }
}
