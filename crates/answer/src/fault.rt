// What reading a flash page meets.
ghost use Rattle.std.specs.Prelude.{◌≡◌, cond, eqb};
ghost use Rattle.model.specs.Sizes.{vacant};
ghost use Rattle.model.specs.Calls.{refused};
ghost use Rattle.answer.specs.Numbers.{refusal_of};

use crate::Refusal;

// Why a flash page cannot be read: what its code says (request A6), or its mark (request A12). Of two, the first stands.
#[derive(Clone, Copy, PartialEq, Eq, Debug)]
pub enum Fault {
    // 7: two bits or more of a chunk are flipped
    Unreadable,
    // 14: power failed before the page was programmed again
    Torn,
}

impl From<Fault> for Refusal {
    ghost use Rattle.answer.specs.Numbers.{refusal_for};

    ghost from_gives = { λ fault r. r ≡ refusal_for fault };

    // The refusal of a call that met this fault on the flash pages that it reads.
    fn from(fault: Fault) -> Refusal {
        match fault {
            Fault::Unreadable => Refusal::Unreadable,
            Fault::Torn => Refusal::Torn,
        }
    }
}

// The same by the fault's number, 7 or 14.
pub fn late(fault: u32) -> Refusal
    ensures { refusal_of result ≡ refused (cond (eqb fault 7) 7 14) vacant }
{
    if fault == 7 {
        return Refusal::Unreadable;
    }
    Refusal::Torn
}
