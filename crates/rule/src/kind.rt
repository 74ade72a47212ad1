// The kinds of entries: the operators of the logic, and letters.
ghost use Rattle.std.specs.Prelude.{◌≡◌};
ghost use Rattle.rule.specs.Kinds.{number_of_kind, Decodes};

#[derive(Clone, Copy, Debug, PartialEq, Eq)]
pub enum Kind {
    Letter,
    Not,
    Or,
    Previous,
    Next,
    Since,
    Until,
}

// A number above 6, which stands for no kind.
#[derive(Clone, Copy, Debug, PartialEq, Eq)]
pub struct UnknownKind(pub u8);

impl Kind {
    // The number that stands for it in a rule's bytes.
    pub fn number(self) -> u8
        ensures { result ≡ number_of_kind self }
    {
        match self {
            Kind::Letter => 0,
            Kind::Not => 1,
            Kind::Or => 2,
            Kind::Previous => 3,
            Kind::Next => 4,
            Kind::Since => 5,
            Kind::Until => 6,
        }
    }
}

impl TryFrom<u8> for Kind {
    type Error = UnknownKind;

    ghost try_from_gives = { Decodes };

    fn try_from(number: u8) -> Result<Self, UnknownKind> {
        match number {
            0 => Ok(Kind::Letter),
            1 => Ok(Kind::Not),
            2 => Ok(Kind::Or),
            3 => Ok(Kind::Previous),
            4 => Ok(Kind::Next),
            5 => Ok(Kind::Since),
            6 => Ok(Kind::Until),
            _ => Err(UnknownKind(number)),
        }
    }
}
