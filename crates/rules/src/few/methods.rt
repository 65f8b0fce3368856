// How lists of a few items are made, read and copied.
ghost use Rattle.std.specs.Prelude.{◌≡◌, ◌≤◌, ◌<◌, [], ◌∷◌, ◌++◌, length, slice_set, MatchOption, MatchResult, ⊤};
ghost use Rattle.rules.specs.Fews.{listed, FewOf};

use super::Few;
use std::alloc::AllocError;

// By hand: "`Clone` cannot be derived for a struct with a ghost field", the checker says of this generic one.
impl<T: Copy, const N: usize> Clone for Few<T, N> {
    ghost is_clone = { λ few copy. copy ≡ few };

    ghost is_infallible = { λ _. ⊤ };

    fn clone(&self) -> Result<Few<T, N>, AllocError>
        ensures cases { MatchResult result (λ copy. copy ≡ self.now) (λ _. ¬ ⊤) }
    {
        Ok(*self)
    }
}

impl<T: Copy, const N: usize> Few<T, N> {
    // The list of no item. The blank stands where no item is.
    pub fn empty(blank: T) -> Few<T, N>
        ensures { FewOf N blank [] result }
    {
        Few {
            count: 0,
            held: [blank; N],
        }
    }

    // The list of these items; none where they are more than N. The blank stands where no item is.
    pub fn from_slice(items: &[T], blank: T) -> Option<Few<T, N>>
        ensures { MatchOption result (N < length items.now) (λ few. (length items.now ≤ N) × FewOf N blank items.now few) }
    {
        if items.len() > N {
            return None;
        }
        let mut held = [blank; N];
        held[..items.len()].copy_from_slice(items);
        Some(Few {
            count: items.len(),
            held,
        })
    }

    // Adds an item at the end and leaves the entries past it as they are, or gives the item back where N items are there.
    pub fn push(&mut self, item: T) -> Result<(), T>
        ensures { MatchResult result (λ _. (length (listed self.old) < N) × (listed self.new ≡ listed self.old ++ item ∷ []) × (self.new.held ≡ slice_set self.old.held self.old.count item)) (λ back. (length (listed self.old) ≡ N) × (self.new ≡ self.old) × (back ≡ item)) }
    {
        if self.count == N {
            return Err(item);
        }
        self.held[self.count] = item;
        self.count += 1;
        Ok(())
    }

    // The items, in order.
    pub fn as_slice(&self) -> &[T]
        ensures { result.now ≡ listed self.now }
    {
        &self.held[..self.count]
    }
}
