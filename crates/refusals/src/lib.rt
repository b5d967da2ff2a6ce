// Why a service refuses, and what services give back to C: a refusal's number, and an answer with a count.
#![tactic(auto)]

ghost use Rattle.std.specs.Prelude.{◌≡◌};
ghost use Rattle.refusals.specs.Refused.{number_of, refused, counted};

// Each reason for which a service refuses, in the order of the specification's numbers.
#[derive(Clone, Copy, Debug, PartialEq, Eq)]
pub enum Refusal {
    WrongLength = 1,
    UnknownKind = 2,
    NotZero = 3,
    LateChild = 4,
    NoSuchAtom = 5,
    WrongSort = 6,
    NotATree = 7,
    WrongSize = 8,
    WrongCell = 9,
    NoRoom = 10,
    StarStands = 11,
    StarTurns = 12,
    WrongRules = 13,
    TooLong = 14,
    NoSign = 18,
    NotTheForm = 19,
}

// The specification's number, which C compares.
impl From<Refusal> for u8 {
    ghost use Rattle.std.specs.Prelude.{◌≡◌};
    ghost use Rattle.refusals.specs.Refused.{number_of};

    ghost from_gives = { λ refusal number. number ≡ number_of refusal };

    fn from(refusal: Refusal) -> u8 {
        refusal as u8
    }
}

// For C: a refusal's number, or 0 and how many records, rules or bytes were written.
#[repr(C)]
#[derive(Drop)]
pub struct Counted {
    pub refusal: u8,
    pub count: u64,
}

impl From<Result<usize, Refusal>> for Counted {
    ghost use Rattle.std.specs.Prelude.{◌≡◌};
    ghost use Rattle.refusals.specs.Refused.{refused, counted};

    ghost from_gives = { λ answer c. (c.refusal ≡ refused answer) × (c.count ≡ counted answer) };

    fn from(answer: Result<usize, Refusal>) -> Counted {
        match answer {
            // `u64` has no `From<usize>`.
            Ok(count) => Counted {
                refusal: 0,
                count: count as u64,
            },
            Err(refusal) => Counted {
                refusal: refusal.into(),
                count: 0,
            },
        }
    }
}

// 0 where nothing is refused, else the refusal's number.
pub fn number(answer: Result<(), Refusal>) -> u8
    ensures { result ≡ refused answer }
{
    match answer {
        Ok(()) => 0,
        Err(refusal) => refusal.into(),
    }
}
