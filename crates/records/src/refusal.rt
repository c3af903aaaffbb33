// Why a call is refused.
ghost use Rattle.std.specs.Prelude.{◌≡◌};
ghost use Rattle.records.specs.Outcome.{number_of};

// What keeps a call from being done; of what holds, the first in this order is given.
#[derive(Clone, Copy)]
pub enum Refusal {
    // The length is no multiple of 12, or over 49,152 bytes.
    Length,
    // A record cannot be read.
    Unreadable,
    // A number is too large, or given twice.
    Number,
    // A value is out of its bounds.
    Value,
    // A flow or a link names itself, or what is not in the table.
    Loose,
    // The cycle is over 48,000 ticks, or there are over 48 jobs or 64 flows.
    TooLarge,
    // The links form a ring.
    Ring,
    // No start times meet windows and links.
    NoStarts,
    // The output is too short.
    NoRoom,
}

impl From<Refusal> for u32 {
    ghost from_gives = { λ refusal number. number ≡ number_of refusal };

    fn from(refusal: Refusal) -> u32 {
        match refusal {
            Refusal::Length => 1,
            Refusal::Unreadable => 2,
            Refusal::Number => 3,
            Refusal::Value => 4,
            Refusal::Loose => 5,
            Refusal::TooLarge => 6,
            Refusal::Ring => 7,
            Refusal::NoStarts => 8,
            Refusal::NoRoom => 9,
        }
    }
}
