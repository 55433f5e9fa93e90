// The lines that the program writes.
use replies::Answer;
use std::io;

// What a call answers.
pub fn answer(rt: &impl Print, name: &str, n: u32, a: Answer) -> io::Result<()> {
    let Answer {
        refusal,
        way,
        block,
        rewrites,
        merged,
        mended,
        torn: _,
    } = a;
    print!(rt; "{name} {n}: refusal {refusal}, way {way}, block {block}")?;
    print!(rt; ", rewrites {rewrites}, merged {merged}, mended {mended}")
}

// A page by its last byte, and each byte that is another; and the end of the line.
pub fn page(rt: &impl Print, p: &[u8]) -> io::Result<()> {
    let Some(last) = p.last() else {
        return end(rt);
    };
    print!(rt; ", page of {last}")?;
    for (i, x) in p.iter().enumerate() {
        if x != last {
            print!(rt; ", byte {i} {x}")?;
        }
    }
    end(rt)
}

// The pages of flash.
pub fn flash(rt: &impl Print, f: &[u8; 1536]) -> io::Result<()> {
    for (n, p) in f.chunks_exact(256).enumerate() {
        print!(rt; "flash {n}")?;
        page(rt, p)?;
    }
    Ok(())
}

// The codes, three bytes a page.
pub fn codes(rt: &impl Print, c: &[u8; 18]) -> io::Result<()> {
    print!(rt; "codes")?;
    for x in c {
        print!(rt; " {x}")?;
    }
    end(rt)
}

pub fn wear(rt: &impl Print, w: [u32; 3]) -> io::Result<()> {
    let [first, second, third] = w;
    println!(rt; "wear {first} {second} {third}")
}

pub fn end(rt: &impl Print) -> io::Result<()> {
    println!(rt; "")
}
