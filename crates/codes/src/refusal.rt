// Why a call is refused: the codes of documents 01 and 02, each with a name.
ghost use Rattle.std.specs.Prelude.{◌≡◌, cond, Ok, Err};
ghost use Rattle.codes.specs.Refusals.{number, code_of as code_of_result};

// The reasons for which a server or a user refuses, in the order of their numbers.
#[derive(Clone, Copy, PartialEq, Eq)]
pub enum Refusal {
    // A server's.
    RequestMisshapen = 1,
    OtherLog = 2,
    OtherServersNode = 3,
    NotAboveHead = 4,
    NotHeads = 5,
    OtherBytesStored = 6,
    DigestOrSignature = 7,
    NothingStored = 8,
    StoreFull = 9,
    // A user's.
    AnswerMisshapen = 10,
    ServerRefused = 11,
    HeadsApart = 12,
    HeadsBehind = 13,
    RecordUnsigned = 14,
    OwnDigest = 15,
    NewDigest = 16,
    NoSignatureLeft = 17,
    WriteOpen = 18,
    EntryMisshapen = 19,
    LogFull = 20,
    BufferShort = 21,
    SettingOutOfRange = 22,
    ReadDigest = 23,
    PositionNotInVersion = 24,
    ScheduleRules = 26,
    // A server's again.
    NotGivable = 27,
    // A user's again.
    NothingToGiveUp = 28,
}

impl Refusal {
    // The number that documents 01 and 02 give it.
    pub fn number(self) -> u8
        ensures { result ≡ number self }
    {
        self as u8
    }
}

// Passes, or refuses with this reason.
pub fn require(passes: bool, otherwise: Refusal) -> Result<(), Refusal>
    ensures { result ≡ cond passes (Ok tt) (Err otherwise) }
{
    if passes {
        return Ok(());
    }
    Err(otherwise)
}

// The code of what passed or was refused: 0, or the refusal's number.
pub fn code_of<T: Drop>(judged: Result<T, Refusal>) -> u8
    ensures { result ≡ code_of_result judged }
{
    match judged {
        Ok(_) => 0,
        Err(refusal) => refusal.number(),
    }
}
