// The numbered answers of document 01 as one error enum. `specs/Numbers.antt` gives each case its number and values.
#![tactic(auto)]

ghost use Rattle.std.specs.Prelude.{◌≡◌};
ghost use Rattle.answers.specs.Numbers.{number_of, first_value};

// Why an input was refused: a case for each numbered answer, with the values that the document gives it.
#[derive(Clone, Copy, Debug, PartialEq, Eq)]
pub enum Refusal {
    Malformed,
    UnknownVersion,
    NetworkNotAllowed,
    NetworkFlagClear,
    NeedsVersionTwo,
    TooLarge,
    BadParameter { index: u32 },
    MissingOutput,
    BadOperand { index: u32 },
    BadNode { index: u32 },
    BadState { index: u32 },
    BadDelay { index: u32 },
    TableTooShort,
    RegistersLocked,
    BadStepList,
    SizesDiffer,
    UnknownParameter,
    ValueOutOfRange,
    // A position counts control and sample steps, each up to 2^32 - 1, so it can need 33 bits.
    StepRefused { position: u64 },
    WrongBlockCheck,
    BadFrame,
}

impl Refusal {
    // The document's number of a refusal.
    pub fn number(self) -> u32
        ensures { result ≡ number_of self }
    {
        match self {
            Refusal::Malformed => 1,
            Refusal::UnknownVersion => 2,
            Refusal::NetworkNotAllowed => 3,
            Refusal::NetworkFlagClear => 4,
            Refusal::NeedsVersionTwo => 5,
            Refusal::TooLarge => 6,
            Refusal::BadParameter { .. } => 7,
            Refusal::MissingOutput => 8,
            Refusal::BadOperand { .. } => 9,
            Refusal::BadNode { .. } => 10,
            Refusal::BadState { .. } => 11,
            Refusal::BadDelay { .. } => 12,
            Refusal::TableTooShort => 13,
            Refusal::RegistersLocked => 14,
            Refusal::BadStepList => 15,
            Refusal::SizesDiffer => 16,
            Refusal::UnknownParameter => 17,
            Refusal::ValueOutOfRange => 18,
            Refusal::StepRefused { .. } => 19,
            Refusal::WrongBlockCheck => 20,
            Refusal::BadFrame => 21,
        }
    }

    // The first value that a refusal carries, 0 where it carries none.
    pub fn value(self) -> u64
        ensures { result ≡ first_value self }
    {
        match self {
            Refusal::BadParameter { index }
            | Refusal::BadOperand { index }
            | Refusal::BadNode { index }
            | Refusal::BadState { index }
            | Refusal::BadDelay { index } => index as u64,
            Refusal::StepRefused { position } => position,
            _ => 0,
        }
    }
}
