// Who calls a catalogue of runs, by numbers: for the calls that cross to C.
#![tactic(auto)]

ghost use Rattle.std.specs.Prelude.{◌≡◌};
ghost use Rattle.sheets.specs.View.{caller_of};
ghost use Rattle.callers.specs.Callers.{caller_at};

use sheets::roles::{Caller, Role};

// Who calls: role 0 trainee, 1 tutor, any other examiner. Not `From`, which takes one value: C hands the two in one by one.
#[tactic(auto, unfolding(crate::specs::Callers::role_at))]
pub fn caller(role: u32, number: u32) -> Caller
    ensures { caller_of result ≡ caller_at role number }
{
    let role = match role {
        0 => Role::Trainee,
        1 => Role::Tutor,
        _ => Role::Examiner,
    };
    Caller { role, number }
}
