//! Bits, one after another, written out as bytes.
ghost use Rattle.std.specs.Prelude.{◌≡◌, ◌+◌, ◌<◌, ◌≤◌, Bool, List, length};
ghost use Rattle.kernels.specs.Moved.{splice};
ghost use Rattle.slices.specs.Bits.{bytes_for, low_bytes, packed};
ghost use Rattle.slices.specs.Accumulated.{Adds, Ends, Room};

/// Bytes to write, the bits that are not written yet, how many, and the next byte.
#[derive(Drop)]
pub(crate) struct Accumulator<'a> {
    out: &'a mut [u8],
    low: u64,
    fill: u32,
    at: usize,
}

impl<'a> Accumulator<'a> {
    /// No bits, before the first of some bytes.
    pub(crate) fn new(out: &'a mut [u8]) -> Accumulator<'a>
        ensures same { result.out.ghost_name ≡ out.entry.ghost_name }
        ensures before { result.out.now ≡ out.old }
        ensures low { result.low ≡ 0 }
        ensures fill { result.fill ≡ 0 }
        ensures at { result.at ≡ 0 }
    {
        Accumulator {
            out,
            low: 0,
            fill: 0,
            at: 0,
        }
    }

    /// Appends the low `n` bits of `x`, and writes 64 once they are full.
    pub(crate) fn append(&mut self, x: u64, n: u32)
        requires size { n ≤ 64 }
        requires room { Room self.old n }
        ensures { (xs : List Bool) → length xs ≡ n → packed xs ≡ x → Adds xs self.old self.new }
    {
        let word = self.low | (x << self.fill);
        let all = self.fill + n;
        if all < 64 {
            self.low = word;
            self.fill = all;
        } else {
            store(self.out, self.at, word, 8);
            self.low = (x >> 1) >> (63 - self.fill);
            self.fill = all - 64;
            self.at += 8;
        }
    }

    /// Writes what is left, with 0 up to the end of the last byte.
    pub(crate) fn finish(self)
        requires fill { self.fill < 64 }
        requires room { self.at + bytes_for self.fill ≤ length self.out.now }
        ensures { Ends self.entry self.exit.0.now }
    {
        let Accumulator { out, low, fill, at } = self;
        store(out, at, low, fill.div_ceil(8) as usize);
    }
}

/// Writes the `n` lowest bytes of a word, the lowest first.
fn store(out: &mut [u8], at: usize, word: u64, n: usize)
    requires size { n ≤ 8 }
    requires room { at + n ≤ length out.old }
    ensures { out.new ≡ splice out.old at (low_bytes n word) }
{
    out[at..at + n].copy_from_slice(&word.to_le_bytes()[..n]);
}
