// Why a call is refused. Each has the number of documents 01 and 02; those to 12 have the meaning of the manual's Error Return Table.
ghost use Rattle.std.specs.Prelude.{◌≡◌};
ghost use Rattle.calls.specs.Numbers.{refusal_number};

#[derive(Clone, Copy, Debug, PartialEq, Eq)]
pub enum Refusal {
    // Seek method above 2; file mode function above 1; seek result below 0 or above 4,294,967,295.
    InvalidFunction,
    // No such plain file.
    FileNotFound,
    // No unused place.
    TooManyOpen,
    // Attribute bit not allowed; file open; read-only; new name taken; no slot; read on access 1, write on access 0.
    AccessDenied,
    // Handle not live.
    InvalidHandle,
    // Access above 2.
    InvalidAccess,
    // No more files.
    NoMoreFiles,
    // Image not of a kind (format: unknown kind byte or wrong length).
    OfNoKind,
    // Volume not sound.
    Unsound,
    // A name breaks the rules; a bad pattern.
    BreaksRules,
    // A stamp out of its ranges.
    OutOfRange,
}

impl Refusal {
    // The number that a caller of C sees.
    pub fn number(self) -> u32
        ensures { result ≡ refusal_number self }
    {
        match self {
            Refusal::InvalidFunction => 1,
            Refusal::FileNotFound => 2,
            Refusal::TooManyOpen => 4,
            Refusal::AccessDenied => 5,
            Refusal::InvalidHandle => 6,
            Refusal::InvalidAccess => 12,
            Refusal::NoMoreFiles => 18,
            Refusal::OfNoKind => 40,
            Refusal::Unsound => 41,
            Refusal::BreaksRules => 42,
            Refusal::OutOfRange => 43,
        }
    }
}
