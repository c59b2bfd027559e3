// The answer of a training.
ghost use Rattle.std.specs.Prelude.{◌≡◌};
ghost use Rattle.training.specs.Said.{said};
ghost use Rattle.answers.specs.Numbers.{trained_numbers};

use refusals::Refusal;

// The refusal's number and place, or epochs run, visits and updates; what has no value is 0.
#[repr(C)]
#[derive(Clone, Copy)]
pub struct Trained {
    pub number: u32,
    pub place: u64,
    pub epochs: u64,
    pub visits: u64,
    pub updates: u64,
}

impl From<Result<training::Trained, Refusal>> for Trained {
    ghost from_gives = { λ answer told. told ≡ trained_numbers (said answer) };

    fn from(answer: Result<training::Trained, Refusal>) -> Trained {
        match answer {
            Ok(trained) => Trained {
                number: 0,
                place: 0,
                epochs: trained.epochs,
                visits: trained.visits,
                updates: trained.updates,
            },
            Err(why) => Trained {
                number: why.number,
                place: why.place,
                epochs: 0,
                visits: 0,
                updates: 0,
            },
        }
    }
}
