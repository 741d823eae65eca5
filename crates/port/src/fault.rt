// A port that is full, as a fault.
ghost use Rattle.std.specs.Prelude.{◌≡◌, None as nowhere};
ghost use Rattle.flash.specs.declared.fault.Fault.TheVariants.{NoRoom as no_room};

use crate::port::Full;
use flash::fault::Fault;

impl From<Full> for Fault {
    ghost from_gives = { λ _ r. r ≡ no_room nowhere };

    fn from(_full: Full) -> Fault {
        Fault::NoRoom(None)
    }
}
