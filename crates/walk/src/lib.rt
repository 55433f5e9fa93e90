// A whole script: its lines carried out one after the other, and its output printed into a lent buffer. The store's buffers are lent one by
// one, as the store's calls take them.
#![tactic(auto)]

ghost use Rattle.std.specs.Prelude.{◌≤◌, ◌<◌, length};
ghost use Rattle.print.specs.Print.{wear_room};
ghost use Rattle.store.specs.View.{plain_lent};
ghost use Rattle.interpret.specs.Lines.{output_of};
ghost use Rattle.interpret.specs.View.{Memory};
ghost use Rattle.walk.specs.Walk.{Ready, More, Started, Onward, Output};

use store::Cache;

// Room for any line: the wear of 4,096 blocks takes the most.
pub const LINE_ROOM: usize = 45063;

// The record after the lines so far, the place and the number of the next line, and how many bytes are printed.
#[derive(Clone, Copy, PartialEq, Eq, Debug)]
pub struct Walk {
    pub cache: Cache,
    pub at: usize,
    pub number: u32,
    pub printed: usize,
}

// A walk at a script's first line. Input over 32,768 bytes prints only (bad 0): the walk is at its end.
pub fn start(script: &[u8], out: &mut [u8]) -> Walk
    requires { wear_room 4096 ≤ length out.old }
    ensures { Started script.now result out.new }
{
    let n = script.len();
    if n > 32768 {
        let printed = print::put_bad(out, 0, 0);
        return Walk {
            cache: Cache::blank(),
            at: n,
            number: 1,
            printed,
        };
    }
    Walk {
        cache: Cache::blank(),
        at: 0,
        number: 1,
        printed: 0,
    }
}

// Carries out lines, and prints each after the one before, until the script ends or there is less room left than a line may need.
pub fn run(
    script: &[u8],
    w: Walk,
    flash: &mut [u8],
    wear: &mut [u32],
    pspace: &mut [u8],
    bspace: &mut [u8],
    page: &mut [u8],
    out: &mut [u8],
) -> Walk
    requires memory { Memory (plain_lent flash.old wear.old pspace.old bspace.old) page.old }
    requires ready { Ready script.now w out.old }
    ensures onward { let u = plain_lent flash.old wear.old pspace.old bspace.old in
        let u' = plain_lent flash.new wear.new pspace.new bspace.new in
        Onward script.now w u out.old result u' out.new }
    ensures advances { More script.now w out.old → w.at < result.at }
    ensures ended { More script.now result out.new → ⊥ }
{
    let mut r = w;
    // No `for`: where the next line starts, and how much room is left, only the line before it tells.
    while (r.at < script.len()) & (LINE_ROOM <= out.len() - r.printed) {
        r = advance(script, r, flash, wear, pspace, bspace, page, out);
    }
    r
}

// Carries out one line, and prints it after what is printed.
fn advance(
    script: &[u8],
    w: Walk,
    flash: &mut [u8],
    wear: &mut [u32],
    pspace: &mut [u8],
    bspace: &mut [u8],
    page: &mut [u8],
    out: &mut [u8],
) -> Walk
    requires memory { Memory (plain_lent flash.old wear.old pspace.old bspace.old) page.old }
    requires ready { Ready script.now w out.old }
    requires more { More script.now w out.old }
    ensures onward { let u = plain_lent flash.old wear.old pspace.old bspace.old in
        let u' = plain_lent flash.new wear.new pspace.new bspace.new in
        Onward script.now w u out.old result u' out.new }
    ensures advances { w.at < result.at }
{
    let at = w.at;
    let number = w.number;
    let Some(item) = script::reader::form_at(script, at, number) else {
        return w;
    };
    let line = item.line;
    let c = w.cache;
    let printed = w.printed;
    let r = interpret::line(
        c,
        item.form,
        line,
        flash,
        wear,
        pspace,
        bspace,
        page,
        &mut out[printed..],
    );
    let cache = r.cache;
    Walk {
        cache,
        at: item.next,
        number: line + 1,
        printed: printed + r.printed,
    }
}

// The output of a script, from the first byte of out on, and how many bytes it has: as many whole lines as there is room for.
pub fn output(script: &[u8], out: &mut [u8]) -> usize
    ensures { Output (output_of script.now) out.new result }
{
    if out.len() < LINE_ROOM {
        return 0;
    }
    let mut flash = [0u8; 32768];
    let mut wear = [0u32; 4096];
    let mut pspace = [0u8; 32768];
    let mut bspace = [0u8; 32768];
    let mut page = [0u8; 2048];
    let w = start(script, out);
    let r = run(
        script,
        w,
        &mut flash,
        &mut wear,
        &mut pspace,
        &mut bspace,
        &mut page,
        out,
    );
    r.printed
}
