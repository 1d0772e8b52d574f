// Why a call is refused, and the number of each answer.
#![tactic(auto)]

ghost use Rattle.std.specs.Prelude.{◌≡◌};
ghost use Rattle.answers.specs.Refusal.{number_of, answer_of};

// The answer of a call that was not refused.
pub const DONE: u8 = 0;

// Why a call is refused. As a number it is the answer of that call.
#[derive(Clone, Copy, Debug, PartialEq, Eq)]
pub enum Refusal {
    // A geometry that is not allowed, a lent buffer of another length, or a state that breaks a rule.
    Invalid = 1,
    // An access that is not 4 bytes wide, not at a multiple of 4, or past the BAR.
    BadAccess = 2,
    // A write to a read-only place.
    ReadOnly = 3,
    // No register at this offset of the first page.
    NoRegister = 4,
    // A packet while the device is off.
    DeviceOff = 5,
    // A slot out of range, taken at an add, or absent at a remove, a packet or a lookup.
    BadSlot = 6,
    NoRoom = 7,
    // An event that the slot doesn't offer.
    NotOffered = 8,
    // A badly formed packet, entry, event or record.
    Malformed = 9,
    // The other end's index is impossible.
    BadIndex = 10,
    NothingToRead = 11,
    // A bad node text, or settings that lack what a mode needs.
    BadSetting = 12,
}

impl Refusal {
    pub fn number(self) -> u8
        ensures { result ≡ number_of self }
    {
        self as u8
    }
}

// The number that a caller without enums gets: 0, or why the call was refused.
pub fn answer_of(outcome: Result<(), Refusal>) -> u8
    ensures { result ≡ answer_of outcome }
{
    match outcome {
        Ok(()) => DONE,
        Err(refusal) => refusal.number(),
    }
}
