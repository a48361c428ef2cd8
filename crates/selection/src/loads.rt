//! Numbers from bits of bytes.
ghost use Rattle.std.specs.Prelude.{◌≡◌, ◌+◌, ◌*◌, ◌/◌, ◌%◌, ◌^◌, ◌<◌, ◌≤◌, bit_or, drop, fold, reverse};
ghost use Rattle.selection.specs.Selected.{bits_from};

/// What `n` bits make, at most 64, from bit `shift`, below 8, of byte `at` on. A bit past the
/// bytes is 0, and no byte is read that has none of the bits.
pub fn bits_at(bytes: &[u8], at: u64, shift: u64, n: u64) -> u64
    requires { (shift < 8) × (n ≤ 64) }
    ensures { result ≡ bits_from bytes.now (8 * at + shift) n }
{
    if n == 0 {
        return 0;
    }
    let rest = bytes_from(bytes, at);
    let size = rest.len().min((shift + n).div_ceil(8) as usize);
    let part = &rest[..size];
    low_bits(joined_from(low_word(part), ninth_byte(part), shift), n)
}

/// What `n` bits make from bit `shift` of byte `at` on, where all of them lie in eight bytes. A bit
/// past the bytes is 0.
pub fn field_at(bytes: &[u8], at: u64, shift: u64, n: u64) -> u64
    requires { (shift + n ≤ 64) × (shift < 64) }
    ensures { result ≡ bits_from bytes.now (8 * at + shift) n }
{
    low_bits(low_word(bytes_from(bytes, at)) >> shift, n)
}

/// The bytes from byte `at` on.
fn bytes_from(bytes: &[u8], at: u64) -> &[u8]
    ensures { result.now ≡ drop at bytes.now }
{
    &bytes[bytes.len().min(at as usize)..]
}

/// The first eight bytes, as if 0 stood past the last.
fn low_word(bytes: &[u8]) -> u64
    ensures { result ≡ bits_from bytes.now 0 64 }
{
    match bytes.first_chunk() {
        Some(word) => u64::from_le_bytes(*word),
        None => gather(bytes),
    }
}

/// A few bytes, the first lowest.
fn gather(bytes: &[u8]) -> u64
    ensures { result ≡ fold (λ all byte. bit_or (all * 2 ^ 8 % 2 ^ 64) byte) 0 (reverse bytes.now) }
{
    bytes
        .iter()
        .rev()
        .fold(0, |all, byte| (all << 8) | u64::from(*byte))
}

/// The ninth byte, or 0 where there is none.
fn ninth_byte(bytes: &[u8]) -> u64
    ensures { result ≡ bits_from bytes.now 64 8 }
{
    bytes.get(8).map_or(0, |byte| u64::from(*byte))
}

/// Bits `shift` to `shift + 63` of nine bytes.
fn joined_from(low: u64, high: u64, shift: u64) -> u64
    requires { (shift < 8) × (high < 256) }
    ensures { result ≡ (high * 2 ^ 64 + low) / 2 ^ shift % 2 ^ 64 }
{
    (low >> shift) | ((high << 1) << (63 - shift))
}

/// The lowest `n` bits.
fn low_bits(x: u64, n: u64) -> u64
    requires { n ≤ 64 }
    ensures { result ≡ x % 2 ^ n }
{
    if n < 64 { x & ((1 << n) - 1) } else { x }
}
