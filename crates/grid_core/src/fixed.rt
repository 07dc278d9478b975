//! A list whose length stays.
#![tactic(auto)]

ghost use Rattle.std.specs.Prelude.{◌≡◌, ◌<◌, length, vec_len, replicate, slice_index_or, IfOk};
ghost use Rattle.std.specs.Borrow.{sem};

use std::alloc::{AllocError, Global};
use std::marker::Model;
use std::ops::{DerefSlice, DerefSliceMut, Index, IndexMut};

/// A list whose length stays. It lends its items, and nothing else: no call of it takes memory, and none lends an allocator.
#[derive(Debug, Drop)]
pub struct Fixed<T> {
    list: Vec<T>,
}

impl<T> Model for Fixed<T> {
    ghost use Rattle.std.specs.Global.{Vec};

    ghost Value = { Vec T };

    ghost view = { λ f. f.list };
}

impl<T> Fixed<T> {
    /// The list of these items.
    pub fn of(list: Vec<T>) -> Fixed<T>
        ensures { result ≡ list }
    {
        Fixed { list }
    }

    /// How many items there are.
    pub fn len(&self) -> usize
        ensures { result ≡ vec_len self.now }
    {
        self.list.len()
    }
}

impl<T: Copy + Drop> Fixed<T> {
    /// A list of so many copies of the item.
    ///
    /// # Errors
    ///
    /// When memory was refused.
    pub fn copies(alloc: Global, item: T, count: usize) -> Result<Fixed<T>, AllocError>
        ensures items { IfOk result (λ f. f.items ≡ replicate count item) }
        ensures len { IfOk result (λ f. vec_len f ≡ count) }
    {
        let mut list = Vec::with_capacity(alloc, count)?;
        list.resize(count, item)?;
        Ok(Fixed { list })
    }
}

impl<T> DerefSlice for Fixed<T> {
    type Elem = T;

    ghost deref_gives = { λ f xs. (xs ≡ f.items) × (length xs ≡ vec_len f) };

    fn deref(&self) -> &[T]
        ensures value { result.now ≡ self.now.items }
        ensures len { length result.now ≡ vec_len self.now }
    {
        self.list.as_slice()
    }
}

impl<T> DerefSliceMut for Fixed<T> {
    ghost use Rattle.grid_core.specs.Fixed.{lends_slice};

    fn deref_mut(&mut self) -> &mut [T]
        ensures* writes_back { sem 𝓛 (lends_slice T.row self.entry result) }
        ensures value { result.now ≡ self.old.items }
        ensures len { length result.now ≡ vec_len self.old }
    {
        self.list.as_mut_slice()
    }
}

impl<T> Index<usize> for Fixed<T> {
    type Output = T;

    ghost can_index = { λ f i. i < vec_len f };

    ghost index_gives = { λ f i x. x ≡ slice_index_or f.items i x };

    fn index(&self, index: usize) -> &T {
        &self.list[index]
    }
}

impl<T> IndexMut<usize> for Fixed<T> {
    ghost use Rattle.grid_core.specs.Fixed.{lends_item};

    fn index_mut(&mut self, index: usize) -> &mut T
        requires { index < vec_len self.old }
        ensures* writes_back { sem 𝓛 (lends_item T.row self.entry index result) }
        ensures value { result.now ≡ slice_index_or self.old.items index result.now }
    {
        &mut self.list[index]
    }
}
