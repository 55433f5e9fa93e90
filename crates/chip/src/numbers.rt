// Faults by their numbers, as C has them.
ghost use Rattle.std.specs.Prelude.{◌≡◌};
ghost use Rattle.answer.specs.Numbers.{fault_number};
ghost use Rattle.chip.specs.Chip.{worse_of};

use crate::Seen;
use answer::Fault;

// Of two refusals met on flash pages, the one that stands: 7 before 14 (0: none).
pub fn worse(a: u32, b: u32) -> u32
    ensures { result ≡ worse_of a b }
{
    if (a == 7) | (b == 7) {
        7
    } else if (a == 14) | (b == 14) {
        14
    } else {
        0
    }
}

// What a read found a page to be, by the fault's number: 7 or 14; any other is none.
pub fn seen(fault: u32, mends: u32) -> Seen
    ensures { (fault_number result.fault ≡ worse_of fault 0) × (result.mends ≡ mends) }
{
    let fault = match fault {
        7 => Some(Fault::Unreadable),
        14 => Some(Fault::Torn),
        _ => None,
    };
    Seen { fault, mends }
}
