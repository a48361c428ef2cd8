//! Bits of borrowed bytes.
ghost use Rattle.std.specs.Prelude.{◌≡◌, ◌+◌, ◌≤◌, length, filter};
ghost use Rattle.std.specs.List.{range_with_len};
ghost use Rattle.selection.specs.Refusals.{answered};
ghost use Rattle.selection.specs.Selected.{set_between, window_bit, window_bits, window_fault, window_from, word_of};

use super::loads::bits_at;
use super::refusals::Refusal;

/// The longest selection.
pub const MAX_LEN: u64 = 16_777_216;

/// Bits as a selection: position `i` is selected exactly if bit `start + i` is set.
/// Bit `j` of byte `b`, lowest first, is bit `8 * b + j`.
#[derive(Clone, Copy)]
pub struct Window<'a> {
    pub bytes: &'a [u8],
    pub start: u64,
    pub len: u64,
}

impl Window<'_> {
    /// Refuses a window that is too long, or longer than its bytes.
    pub fn check(self) -> Result<(), Refusal>
        ensures { result ≡ answered (window_fault self.entry) tt }
    {
        if self.len > MAX_LEN {
            return Err(Refusal::Long);
        }
        if self.start as u128 + self.len as u128 > 8 * self.bytes.len() as u128 {
            return Err(Refusal::Short);
        }
        Ok(())
    }

    /// How many bits of the window are set.
    pub(crate) fn ones(self) -> u64
        ensures { result ≡ length (filter (window_bit self.entry) (range_with_len 0 self.entry.len)) }
    {
        self.ones_between(0, self.len)
    }

    /// Word `k` of the window: its 64 bits from bit `64 * k` on, and 0 for those past it.
    pub fn word(self, k: u64) -> u64
        ensures { result ≡ word_of self.entry k }
    {
        if k > self.len / 64 {
            return 0;
        }
        let n = (self.len - 64 * k).min(64);
        bits_at(self.bytes, self.start / 8 + 8 * k, self.start % 8, n)
    }

    /// The number that `n` bits make from position `from` on: at most 64 bits, and none past the
    /// window.
    pub fn bits(self, from: u64, n: u64) -> u64
        ensures { result ≡ window_bits self.entry from n }
    {
        let n = n.min(64).min(self.len.saturating_sub(from));
        let shift = self.start % 8 + from % 8;
        let byte = self.start / 8 + from / 8 + shift / 8;
        bits_at(self.bytes, byte, shift % 8, n)
    }

    /// How many bits are set from position `from` up to and without `to`.
    pub fn ones_between(self, from: u64, to: u64) -> u64
        ensures { result ≡ set_between self.entry from to }
    {
        let first = from.min(self.len);
        let n = to.min(self.len).saturating_sub(first);
        let head = (64 - (self.start % 8 + first % 8) % 8).min(n);
        u64::from(self.bits(first, head).count_ones()) + self.ones_in_words(first + head, n - head)
    }

    /// How many of `n` bits are set from position `first` on. No byte is read twice if the first
    /// bit is the lowest of a byte.
    fn ones_in_words(self, first: u64, n: u64) -> u64
        requires { first + n ≤ self.len }
        ensures { result ≡ length (filter (window_from self.entry first) (range_with_len 0 n)) }
    {
        let mut ones = 0;
        // by its number, since a position is 64 times that
        for k in 0..n.div_ceil(64) {
            ones += u64::from(self.bits(first + 64 * k, n - 64 * k).count_ones());
        }
        ones
    }
}
