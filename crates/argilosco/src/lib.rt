// The public calls: what they answer, and what they promise. The crate argilosco_c exports them for C and Rust.

#![tactic(auto)]

ghost use Rattle.std.specs.Prelude.{◌≡◌};
ghost use Rattle.argilosco.specs.Answer.{written_of, schedule_of};

use records::refusal::Refusal;

pub mod expand;
mod hold;
pub mod normalise;
pub mod schedule;

// What expanding and normalising answer: 0 or the refusal's number, and how many bytes of the output were written.
#[repr(C)]
#[derive(Clone, Copy)]
pub struct Written {
    pub number: u32,
    pub written: u32,
}

// What scheduling answers: also how many sequences were opened.
#[repr(C)]
#[derive(Clone, Copy)]
pub struct Scheduled {
    pub number: u32,
    pub written: u32,
    pub openings: u32,
}

impl From<Result<u32, Refusal>> for Written {
    ghost from_gives = { λ result answer. answer ≡ written_of result };

    fn from(answer: Result<u32, Refusal>) -> Written {
        match answer {
            Ok(written) => Written { number: 0, written },
            Err(refusal) => Written {
                number: u32::from(refusal),
                written: 0,
            },
        }
    }
}

impl From<Result<Scheduled, Refusal>> for Scheduled {
    ghost from_gives = { λ result answer. answer ≡ schedule_of result };

    fn from(answer: Result<Scheduled, Refusal>) -> Scheduled {
        match answer {
            Ok(scheduled) => scheduled,
            Err(refusal) => Scheduled {
                number: u32::from(refusal),
                written: 0,
                openings: 0,
            },
        }
    }
}
