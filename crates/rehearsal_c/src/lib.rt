// Rehearsals for C and Rust programs: settings and tallies cross by value.
#![tactic(auto)]

ghost use Rattle.std.specs.Prelude.{◌≡◌};
ghost use Rattle.rehearsal.specs.Class.{rehearsal_of};
ghost use Rattle.rehearsal_c.specs.Numbers.{in_numbers};

use rehearsal::Setting;
use replies::Answer;
use tally::Tallies;

// `refusal` is 0, or 1 where a setting is out of range or a buffer would need over 32,768 bytes; all tallies are 0 then. Entry 0 of the
// reads and of the writes is 0: no call of a rehearsal goes by way 0. A number and no `Result`, since C is handed it.
#[repr(C)]
#[derive(Clone, Copy, PartialEq, Eq, Debug)]
pub struct Rehearsal {
    pub refusal: u32,
    pub tallies: Tallies,
}

// Rehearses a class.
#[unsafe(no_mangle)]
pub extern "C" fn clash_rehearse(setting: Setting) -> Rehearsal
    ensures { result ≡ in_numbers (rehearsal_of setting) }
{
    let r = rehearsal::rehearse(setting);
    Rehearsal {
        refusal: Answer::from(r.answer).refusal,
        tallies: r.tallies,
    }
}
