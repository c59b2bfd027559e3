// An answer that only says whether something is refused.
ghost use Rattle.std.specs.Prelude.{◌≡◌};
ghost use Rattle.refusals.specs.Said.{said_of};
ghost use Rattle.answers.specs.Numbers.{numbers};

use refusals::Refusal;

// A refusal of document 01; the number 0 says that nothing was refused.
#[repr(C)]
#[derive(Clone, Copy)]
pub struct Refused {
    pub number: u32,
    pub place: u64,
}

impl From<Result<(), Refusal>> for Refused {
    ghost from_gives = { λ answer told. told ≡ numbers (said_of answer) };

    fn from(answer: Result<(), Refusal>) -> Refused {
        match answer {
            Ok(()) => Refused {
                number: 0,
                place: 0,
            },
            Err(why) => Refused {
                number: why.number,
                place: why.place,
            },
        }
    }
}
