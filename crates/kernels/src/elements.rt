//! The types of readings.
ghost use Rattle.std.specs.Prelude.{◌≡◌, ℕ};
ghost use Rattle.kernels.specs.Moved.{limit_at_width};

/// A type of readings, which states its width in bytes.
pub trait Element: Copy {
    const WIDTH: usize;

    ghost WIDTH: { ℕ };

    /// `WIDTH`, as a call.
    fn stated_width() -> usize
        ensures { result ≡ WIDTH }
    {
        Self::WIDTH
    }
}

/// What a lift reported: when, which lift, and which code.
#[derive(Clone, Copy, PartialEq, Eq, Debug)]
pub struct Event {
    pub time: u64,
    pub lift: u32,
    pub code: u32,
}

impl Element for u8 {
    const WIDTH: usize = 1;

    ghost WIDTH = { 1 };
}

impl Element for u16 {
    const WIDTH: usize = 2;

    ghost WIDTH = { 2 };
}

impl Element for u32 {
    const WIDTH: usize = 4;

    ghost WIDTH = { 4 };
}

impl Element for f32 {
    const WIDTH: usize = 4;

    ghost WIDTH = { 4 };
}

impl Element for u64 {
    const WIDTH: usize = 8;

    ghost WIDTH = { 8 };
}

impl Element for Event {
    const WIDTH: usize = 16;

    ghost WIDTH = { 16 };
}

/// The most positions of a chunk that are fetched one by one.
pub fn sparse_limit<T: Element>() -> u64
    ensures { result ≡ limit_at_width T.Element.WIDTH }
{
    // the rule is a table by width
    match T::WIDTH {
        1 => 16,
        2 => 32,
        4 => 64,
        _ => 160,
    }
}
