// The answers of a decoded line and of a scored path.
ghost use Rattle.std.specs.Prelude.{◌≡◌, Ok};
ghost use Rattle.viterbi.specs.Promise.{said};
ghost use Rattle.sequence_score.specs.Promise.{said as score_said};
ghost use Rattle.answers.specs.Numbers.{decoded_numbers, scored_numbers};

use refusals::Refusal;
use viterbi_end::Found;

// The answer of a decoded line: `has_lead` is 0 where there is no lead.
#[repr(C)]
#[derive(Clone, Copy)]
pub struct Decoded {
    pub number: u32,
    pub has_lead: u32,
    pub place: u64,
    pub sum: f64,
    pub lead: f64,
}

// The answer of a scored path.
#[repr(C)]
#[derive(Clone, Copy)]
pub struct Scored {
    pub number: u32,
    pub place: u64,
    pub score: f64,
}

impl From<Found> for Decoded {
    ghost from_gives = { λ found told. told ≡ decoded_numbers (said (Ok found)) };

    fn from(found: Found) -> Decoded {
        match found.lead {
            None => Decoded {
                number: 0,
                has_lead: 0,
                place: 0,
                sum: found.sum,
                lead: 0.0,
            },
            Some(lead) => Decoded {
                number: 0,
                has_lead: 1,
                place: 0,
                sum: found.sum,
                lead,
            },
        }
    }
}

impl From<Result<Found, Refusal>> for Decoded {
    ghost from_gives = { λ answer told. told ≡ decoded_numbers (said answer) };

    fn from(answer: Result<Found, Refusal>) -> Decoded {
        match answer {
            Ok(found) => found.into(),
            Err(why) => Decoded {
                number: why.number,
                has_lead: 0,
                place: why.place,
                sum: 0.0,
                lead: 0.0,
            },
        }
    }
}

impl From<Result<f64, Refusal>> for Scored {
    ghost from_gives = { λ answer told. told ≡ scored_numbers (score_said answer) };

    fn from(answer: Result<f64, Refusal>) -> Scored {
        match answer {
            Ok(score) => Scored {
                number: 0,
                place: 0,
                score: score,
            },
            Err(why) => Scored {
                number: why.number,
                place: why.place,
                score: 0.0,
            },
        }
    }
}
