// An array that is filled from its start, and how far it is. Memory is fixed here, with no heap, so it is no Vec; nor is it the kit's `ArrayVec`, since the edit
// `part_not_cut` changes a line of `items`.
ghost use Rattle.std.specs.Prelude.{◌≡◌, [], ◌∷◌, ◌++◌, length, take, MatchResult, List};

use std::marker::Model;

// There is no place left.
#[derive(Clone, Copy)]
pub struct Full;

#[derive(Drop)]
pub struct Filled<T, const N: usize> {
    room: [T; N],
    // How many places are filled, the first ones.
    count: usize,
}

// Clauses see what has been put into it, in order.
impl<T, const N: usize> Model for Filled<T, N> {
    ghost Value = { List T };

    ghost view = { λ f. take f.count f.room };
}

impl<T: Copy, const N: usize> Filled<T, N> {
    // What stands in the room is never seen.
    pub fn new(any: T) -> Self
        ensures { result ≡ [] }
    {
        Filled {
            room: [any; N],
            count: 0,
        }
    }

    pub fn clear(&mut self)
        ensures { self.new ≡ [] }
    {
        self.count = 0;
    }

    // Puts it behind the others, unless all places are filled.
    pub fn push(&mut self, item: T) -> Result<(), Full>
        ensures { MatchResult result (λ _. self.new ≡ self.old ++ item ∷ []) (λ _. (self.new ≡ self.old) × (length self.old ≡ N)) }
    {
        let at = self.count;
        if self.room.len() <= at {
            return Err(Full);
        }
        self.room[at] = item;
        self.count = at + 1;
        Ok(())
    }

    pub fn len(&self) -> usize
        ensures { result ≡ length self.now }
    {
        self.items().len()
    }

    // The count is cut to the room's length, so that nothing has to be known of it. A ghost field as in `Input` would know it, but then `part_not_cut`,
    // the cut left out, would be proved.
    pub fn items(&self) -> &[T]
        ensures { result.now ≡ self.now }
    {
        let end = self.count.min(self.room.len());
        &self.room[..end]
    }
}
