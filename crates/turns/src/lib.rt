// One turn of a rehearsed class (request A13): the generator's three advances, and the call that they give. It knows no store.
#![tactic(auto)]

ghost use Rattle.std.specs.Prelude.{◌≡◌, ◌*◌, ◌%◌, ◌^◌, ◌<◌, ◌≤◌};
ghost use Rattle.turns.specs.Generator.{advanced};
ghost use Rattle.turns.specs.Turns.{page_of, call_of, turn_of};

use address::PageNo;

// What a bench asks of the store in its turn.
#[derive(Clone, Copy, PartialEq, Eq, Debug)]
pub enum Call {
    Read(PageNo),
    Write { page: PageNo, byte: u8 },
}

// What a turn is made with: N×K pages, and the rates of writes and of runs, 0 to 256.
#[derive(Clone, Copy, PartialEq, Eq, Debug)]
pub struct Rates {
    pub pages: u32,
    pub write: u32,
    pub run: u32,
}

// A turn: the call, the number of its page, and the state after the three advances.
#[derive(Clone, Copy, PartialEq, Eq, Debug)]
pub struct Turn {
    pub call: Call,
    pub page: u32,
    pub state: u32,
}

// The generator's next state.
#[tactic(auto, unfolding(crate::specs::Generator::advanced))]
fn advance(state: u32) -> u32
    ensures { result ≡ advanced state }
{
    let product = state.wrapping_mul(1664525);
    std::num::wrapping_add_u32(product, 1013904223)
}

// The page of a turn: the one after the bench's last page, or one by the third state.
#[tactic(auto, unfolding(crate::specs::Turns::page_of))]
fn page_of(second: u32, third: u32, run: u32, last: u32, pages: u32) -> u32
    requires { last < pages }
    ensures { result ≡ page_of second third run last pages }
{
    if second / 16777216 < run {
        return (last + 1) % pages;
    }
    third / 65536 % pages
}

// The call of a turn.
#[tactic(auto, unfolding(crate::specs::Turns::call_of))]
fn call_of(first: u32, third: u32, write: u32, page: u32) -> Call
    ensures { result ≡ call_of first third write page }
{
    if first / 16777216 < write {
        let byte = (third % 256) as u8;
        return Call::Write {
            page: PageNo(page),
            byte,
        };
    }
    Call::Read(PageNo(page))
}

// The turn that begins in this state, of a bench whose last page is given.
#[tactic(auto, unfolding(crate::specs::Turns::turn_of, crate::specs::Turns::turn_page))]
pub fn take(state: u32, last: u32, rates: Rates) -> Turn
    requires { last < rates.pages }
    ensures { result ≡ turn_of state last rates }
{
    let first = advance(state);
    let second = advance(first);
    let third = advance(second);
    let page = page_of(second, third, rates.run, last, rates.pages);
    let call = call_of(first, third, rates.write, page);
    Turn {
        call,
        page,
        state: third,
    }
}
