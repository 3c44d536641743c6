// The refusals, and the number of each: each has the name and the value that it has in the definitions. What is done answers 0.
ghost use Rattle.std.specs.Prelude.{◌≡◌};
ghost use Rattle.store.specs.Numbers.{number_of, number_in};

// Why a call, or an operation above the calls, does nothing.
#[derive(Clone, Copy, Debug, PartialEq, Eq)]
pub enum Refusal {
    // Open: the limits are out of range; the words are not as many as they ask for.
    BadLimits = 1,
    BadLength = 2,

    // The words are not those of a sound store.
    NotSound = 3,

    // The serial, and the day or the code of a fault, are not valid.
    BadSerial = 4,
    BadFault = 5,

    // A card has the serial; no card has it.
    AlreadyHeld = 6,
    NotHeld = 7,

    // As many cards, or faults, are held as the limit allows.
    CardsFull = 8,
    FaultsFull = 9,

    // The room, or the output, is too short for the answer; the scratch is too short.
    ShortRoom = 10,
    ShortScratch = 11,

    // A line is not well formed; a text is too long.
    BadLine = 12,
    LongText = 13,

    // A report is asked over no store, or over more than eight.
    BadStores = 14,

    // Open: the load bounds are out of range.
    BadBounds = 15,
}

impl From<Refusal> for u32 {
    ghost from_gives = { λ refusal number. number ≡ number_of refusal };

    fn from(refusal: Refusal) -> u32 {
        refusal as u32
    }
}

// The number of what was done or refused.
pub fn number_of(outcome: Result<(), Refusal>) -> u32
    ensures { result ≡ number_in outcome }
{
    match outcome {
        Ok(()) => 0,
        Err(refusal) => refusal.into(),
    }
}
