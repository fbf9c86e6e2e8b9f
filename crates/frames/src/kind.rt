// The kind of a frame, which its first byte tells.
ghost use Rattle.std.specs.Prelude.{◌≡◌, MatchResult};
ghost use Rattle.frames.specs.declared.kind.Kind.{Kind};
ghost use Rattle.frames.specs.Code.Kinds.{byte_of_kind};

#[derive(Clone, Copy)]
pub enum Kind {
    Header = 0x10,
    Hard = 0x20,
    Soft = 0x30,
    End = 0xFF,
}

// A byte that begins no frame.
#[derive(Clone, Copy)]
pub struct NoKind;

impl From<Kind> for u8 {
    ghost from_gives = { λ kind byte. byte ≡ byte_of_kind kind };

    fn from(kind: Kind) -> u8 {
        kind as u8
    }
}

impl TryFrom<u8> for Kind {
    type Error = NoKind;

    ghost try_from_gives = { λ byte tried. MatchResult tried (λ kind. byte ≡ byte_of_kind kind) (λ _. (kind : Kind) → ¬ (byte ≡ byte_of_kind kind)) };

    fn try_from(byte: u8) -> Result<Kind, NoKind> {
        match byte {
            0x10 => Ok(Kind::Header),
            0x20 => Ok(Kind::Hard),
            0x30 => Ok(Kind::Soft),
            0xFF => Ok(Kind::End),
            _ => Err(NoKind),
        }
    }
}
