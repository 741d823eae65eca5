// The status byte that a chip answers after 70h.
ghost use Rattle.std.specs.Prelude.{◌≡◌};
ghost use Rattle.flash.specs.Statuses.{ready, verdict_of};

/// What a status byte says of work that has ended.
#[derive(Clone, Copy, Debug, PartialEq, Eq)]
pub enum Verdict {
    Good,
    Failed,
    Protected,
}

/// Bit 6: the chip is ready.
pub fn is_ready(status: u8) -> bool
    ensures { result ≡ ready status }
{
    status & 0x40 != 0
}

/// Bit 0 first: the work failed. Then bit 7: clear, the chip was protected.
impl From<u8> for Verdict {
    ghost from_gives = { λ status verdict. verdict ≡ verdict_of status };

    fn from(status: u8) -> Verdict {
        if status & 0x01 != 0 {
            Verdict::Failed
        } else if status & 0x80 != 0 {
            Verdict::Good
        } else {
            Verdict::Protected
        }
    }
}
