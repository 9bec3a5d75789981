//! The kinds of fault of a text, with their numbers and names.

ghost use Rattle.std.specs.Prelude.{◌≡◌, nat_eq};
ghost use Rattle.fzn_model.specs.FaultKinds.{kind_number, kind_name, kind_numbered};

/// The kinds of fault of a text. Those of an item and of its place are found here, the others by those that read the text
/// before.
#[derive(Debug, Clone, Copy, PartialEq, Eq)]
pub enum FaultKind {
    /// At this byte no token begins.
    Lex = 1,
    /// The stretch up to the next semicolon is no item.
    Syntax = 2,
    /// The item declares a name that an earlier item declared.
    NameTwice = 3,
    /// The item uses a name that no earlier item declared.
    NameUnknown = 4,
    /// The item's constraint isn't known.
    UnknownConstraint = 5,
    /// Arguments, a value, an index set or an objective don't fit.
    WrongArgument = 6,
    /// The declared type isn't taken.
    Unsupported = 7,
    /// An integer literal isn't in the range of numbers.
    OutOfRange = 8,
    /// With the item a limit is passed.
    TooMany = 9,
    /// The text ends without a solve item.
    NoSolve = 10,
    /// The item comes behind a solve item.
    AfterSolve = 11,
    /// The text is too long.
    TooLong = 12,
}

impl FaultKind {
    /// Its number.
    pub fn number(self) -> u8
        ensures { result ≡ kind_number self }
    {
        self as u8
    }

    /// Whether both are one kind.
    #[inline(always)]
    pub(crate) fn is_same(self, other: FaultKind) -> bool
        ensures { result ≡ nat_eq (kind_number self) (kind_number other) }
    {
        self.number() == other.number()
    }

    /// Its name.
    pub fn name(self) -> &'static str
        ensures { result.now ≡ kind_name self }
    {
        match self {
            Self::Lex => "Lex",
            Self::Syntax => "Syntax",
            Self::NameTwice => "NameTwice",
            Self::NameUnknown => "NameUnknown",
            Self::UnknownConstraint => "UnknownConstraint",
            Self::WrongArgument => "WrongArgument",
            Self::Unsupported => "Unsupported",
            Self::OutOfRange => "OutOfRange",
            Self::TooMany => "TooMany",
            Self::NoSolve => "NoSolve",
            Self::AfterSolve => "AfterSolve",
            Self::TooLong => "TooLong",
        }
    }

    /// The kind of this number, where there is one.
    #[tactic(auto, unfolding(crate::specs::FaultKinds::kind_numbered))]
    pub fn numbered(number: u8) -> Option<FaultKind>
        ensures { result ≡ kind_numbered number }
    {
        match number {
            1 => Some(Self::Lex),
            2 => Some(Self::Syntax),
            3 => Some(Self::NameTwice),
            4 => Some(Self::NameUnknown),
            5 => Some(Self::UnknownConstraint),
            6 => Some(Self::WrongArgument),
            7 => Some(Self::Unsupported),
            8 => Some(Self::OutOfRange),
            9 => Some(Self::TooMany),
            10 => Some(Self::NoSolve),
            11 => Some(Self::AfterSolve),
            12 => Some(Self::TooLong),
            _ => None,
        }
    }
}
