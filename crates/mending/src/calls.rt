// A store with its buffers, and one call of a history with its line.
use crate::report;
use address::PageNo;
use cache::Sizes;
use std::io;
use store::Cache;

// What is called, and of which page.
#[derive(Clone, Copy, PartialEq, Eq, Debug)]
pub enum Call {
    Read(u32),
    // the page is filled with 40 and its number
    Write(u32),
    // byte 3 becomes 9
    Part(u32),
    // no byte does
    Nothing(u32),
    Step,
    Flush,
}

// A call by its letter and the digit of its page. Not `From`: two bytes are a call in these histories alone.
pub fn call_of(letter: u8, digit: u8) -> Call {
    let n = u32::from(digit % 8);
    match letter {
        b'r' => Call::Read(n),
        b'w' => Call::Write(n),
        b'p' => Call::Part(n),
        b'n' => Call::Nothing(n),
        b's' => Call::Step,
        _ => Call::Flush,
    }
}

// A coded store of 3 blocks of 2 pages of 256 bytes, with one slot and one frame.
#[derive(Clone, Copy, PartialEq, Eq, Debug)]
pub struct Held {
    cache: Cache,
    pub flash: [u8; 1536],
    pub codes: [u8; 18],
    pub wear: [u32; 3],
    pspace: [u8; 256],
    bspace: [u8; 512],
}

impl Held {
    // Opens the store on these buffers.
    pub fn open(sizes: Sizes, flash: [u8; 1536], codes: [u8; 18], wear: [u32; 3]) -> Held {
        let pspace = [0; 256];
        let bspace = [0; 512];
        let opened = Cache::open(sizes, &flash, &codes, &[], &wear, &pspace, &bspace, &[]);
        Held {
            cache: opened.cache,
            flash,
            codes,
            wear,
            pspace,
            bspace,
        }
    }

    // Makes the call, and says what it answers and what is in the page buffer then, which has bytes 7 at first.
    pub fn make(&mut self, rt: &impl Print, call: Call) -> io::Result<()> {
        match call {
            Call::Read(n) => self.read(rt, n),
            Call::Write(n) => self.write(rt, n),
            Call::Part(n) => self.part(rt, n, b"\x09"),
            Call::Nothing(n) => self.part(rt, n, b""),
            Call::Step => self.step(rt),
            Call::Flush => self.flush(rt),
        }
    }

    fn read(&mut self, rt: &impl Print, n: u32) -> io::Result<()> {
        let mut page = [7u8; 256];
        let out = self.cache.read(
            &self.flash,
            &self.codes,
            &[],
            &self.wear,
            &self.pspace,
            &self.bspace,
            &[],
            PageNo(n),
            &mut page,
        );
        self.cache = out.cache;
        report::answer(rt, "read", n, out.answer.into())?;
        report::page(rt, &page)
    }

    fn write(&mut self, rt: &impl Print, n: u32) -> io::Result<()> {
        let page = [(40 + n % 8) as u8; 256];
        let out = self.cache.write(
            &mut self.flash,
            &mut self.codes,
            &mut [],
            &mut self.wear,
            &mut self.pspace,
            &mut self.bspace,
            &mut [],
            PageNo(n),
            &page,
        );
        self.cache = out.cache;
        report::answer(rt, "write", n, out.answer.into())?;
        report::page(rt, &page)
    }

    fn part(&mut self, rt: &impl Print, n: u32, bytes: &[u8]) -> io::Result<()> {
        let mut page = [7u8; 256];
        let out = self.cache.write_part(
            &mut self.flash,
            &mut self.codes,
            &mut [],
            &mut self.wear,
            &mut self.pspace,
            &mut self.bspace,
            &mut [],
            PageNo(n),
            3,
            bytes,
            &mut page,
        );
        self.cache = out.cache;
        report::answer(rt, "part", n, out.answer.into())?;
        report::page(rt, &page)
    }

    fn step(&mut self, rt: &impl Print) -> io::Result<()> {
        let out = self.cache.flush_step(
            &mut self.flash,
            &mut self.codes,
            &mut [],
            &mut self.wear,
            &self.pspace,
            &mut self.bspace,
            &[],
        );
        self.cache = out.cache;
        report::answer(rt, "step", 0, out.answer.into())?;
        report::end(rt)
    }

    fn flush(&mut self, rt: &impl Print) -> io::Result<()> {
        let out = self.cache.flush(
            &mut self.flash,
            &mut self.codes,
            &mut [],
            &mut self.wear,
            &self.pspace,
            &mut self.bspace,
            &[],
        );
        self.cache = out.cache;
        report::answer(rt, "flush", 0, out.answer.into())?;
        report::end(rt)
    }
}
