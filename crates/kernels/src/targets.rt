//! What elements are put into.
ghost use Rattle.std.specs.Prelude.{ℕ, ◌<◌, [], ◌∷◌, List};
ghost use Rattle.std.specs.List.{range_with_len};
ghost use Rattle.kernels.specs.Targets.{CanCopy, CanList, CanMove, Copied, Lists, Moves};

use super::slice::{copy_to, move_block};

/// What elements are put into, one after another, by the places that they stand at.
pub(crate) trait Target {
    /// The elements at some places can be put, in this order.
    ghost can: { Self → List ℕ → Type 0 };

    /// They have been.
    ghost took: { Self → List ℕ → Self → Type 0 };

    /// Puts the element at a place.
    fn put(&mut self, from: usize)
        requires { can self.old (from ∷ []) }
        ensures { took self.old (from ∷ []) self.new };

    /// Puts `n` elements, from a place on.
    fn put_run(&mut self, from: usize, n: usize)
        requires some { 0 < n }
        requires able { can self.old (range_with_len from n) }
        ensures { took self.old (range_with_len from n) self.new };
}

/// Elements of `src` are copied to other places, `at` is the next of them.
#[derive(Drop)]
pub(crate) struct Copying<'a, T> {
    pub(crate) src: &'a [T],
    pub(crate) places: &'a mut [T],
    pub(crate) at: usize,
}

impl<T: Copy> Target for Copying<'_, T> {
    ghost can = { CanCopy };

    ghost took = { Copied };

    fn put(&mut self, from: usize) {
        self.places[self.at] = self.src[from];
        self.at += 1;
    }

    fn put_run(&mut self, from: usize, n: usize) {
        copy_to(self.src, from, n, self.places, self.at);
        self.at += n;
    }
}

/// Elements of a slice are moved down in it, `at` is the next place.
#[derive(Drop)]
pub(crate) struct Moving<'a, T> {
    pub(crate) values: &'a mut [T],
    pub(crate) at: usize,
}

impl<T: Copy> Target for Moving<'_, T> {
    ghost can = { CanMove };

    ghost took = { Moves };

    fn put(&mut self, from: usize) {
        self.values[self.at] = self.values[from];
        self.at += 1;
    }

    fn put_run(&mut self, from: usize, n: usize) {
        move_block(self.values, from, n, self.at);
        self.at += n;
    }
}

/// The places, each moved up by `base`, are listed, `at` is the next place of the list.
#[derive(Drop)]
pub(crate) struct Listing<'a> {
    pub(crate) base: u64,
    pub(crate) places: &'a mut [u64],
    pub(crate) at: usize,
}

impl Target for Listing<'_> {
    ghost can = { CanList };

    ghost took = { Lists };

    fn put(&mut self, from: usize) {
        self.places[self.at] = self.base + from as u64;
        self.at += 1;
    }

    fn put_run(&mut self, from: usize, n: usize) {
        // the places are what is listed
        for place in from..from + n {
            self.put(place);
        }
    }
}
