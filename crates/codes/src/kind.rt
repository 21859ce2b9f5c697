// What a request asks for: document 01's kinds, and the give-up of document 02, e.
ghost use Rattle.std.specs.Prelude.{◌≡◌, ◌<◌, ◌⊎◌, IfSome, IsNone};
ghost use Rattle.codes.specs.Kinds.{byte_of};

// The kinds of requests, in the order of their numbers.
#[derive(Clone, Copy, PartialEq, Eq)]
pub enum Kind {
    Status = 1,
    Node = 2,
    Operation = 3,
    Record = 4,
    Reserve = 5,
    PutOperation = 6,
    PutNode = 7,
    Commit = 8,
    GiveUp = 9,
}

impl Kind {
    // The kind that a byte of a message names: none for 0 and above 9.
    pub fn named_by(byte: u8) -> Option<Kind>
        ensures kind { IfSome result (λ kind. byte_of kind ≡ byte) }
        ensures none { IsNone result → (byte ≡ 0) ⊎ (9 < byte) }
    {
        match byte {
            1 => Some(Kind::Status),
            2 => Some(Kind::Node),
            3 => Some(Kind::Operation),
            4 => Some(Kind::Record),
            5 => Some(Kind::Reserve),
            6 => Some(Kind::PutOperation),
            7 => Some(Kind::PutNode),
            8 => Some(Kind::Commit),
            9 => Some(Kind::GiveUp),
            _ => None,
        }
    }

    // The byte that stands for the kind in a message.
    pub fn byte(self) -> u8
        ensures { result ≡ byte_of self }
    {
        self as u8
    }
}
