// A set that is filled in the order of ages, each record into a slot of its own, whatever its place in the dense order: the slots wait as free ones, and
// the dense order is put right after the pushes.
ghost use Rattle.std.specs.Prelude.{◌≡◌, ◌++◌, List, ℕ, ◌-◌, ◌*◌, ◌≤◌, ◌<◌, length, drop, get_or};
ghost use Rattle.algebra.specs.Ranges.{up_from};
ghost use Rattle.intersection_set.specs.Store.{Rec, Store, no_rec};
ghost use Rattle.intersection_set.specs.Filling.{waiting, EachSlot, Shuffled, reordered};
ghost use Rattle.intersection_set.specs.Pool.{counts_of, order};
ghost use Rattle.intersection_set.specs.Within.{Sized};
ghost use Rattle.intersection_set.specs.Holds.{Stack, Holds};
ghost use Rattle.intersection_set.specs.Set.{pool_in, buffers_in, order_in, SameBuffers, SameLists, cleared};

use crate::intersection_set::IndexIntersectionSet;
use crate::sparse_index::{NONE, SparseIndex};
use crate::utils::Counts;

// Writes 0, 1, 2, .. over the first `count` entries.
fn number(list: &mut [u16], count: usize)
    requires { (count ≤ length list.old) × (count ≤ 65536) }
    ensures { list.new ≡ up_from 0 count ++ drop count list.old }
{
    let part = &mut list[..count];
    for (i, entry) in part.iter_mut().enumerate() {
        *entry = i as u16;
    }
}

impl<'a> IndexIntersectionSet<'a> {
    // No records, as after `clear`, but the slots in the first `count` entries of `free` wait for the first pushes, which take them from the last on.
    pub fn clear_waiting(&mut self, count: usize)
        ensures same { SameBuffers self.old self.new }
        ensures cleared { buffers_in self.new ≡ cleared (buffers_in self.old) }
        ensures counts { self.new.counts ≡ counts_of 0 count count 0 }
        ensures holds { (n : ℕ) (l : List ℕ) → n ≤ 256 → Sized n (pool_in self.new) → length l ≡ count → count ≤ n * (n - 1)
            → Stack self.new.free.now l → EachSlot l → Holds n (pool_in self.new) (waiting l) }
    {
        self.heads.fill(NONE);
        self.tangles.fill(0);
        self.counts = Counts {
            live: 0,
            grown: count,
            freed: count,
            pushes: 0,
        };
    }

    // The slot freed last, which the next push takes.
    pub fn last_freed(&self) -> SparseIndex
        requires { (0 < self.now.counts.freed) × (self.now.counts.freed ≤ length self.now.free.now) }
        ensures { result.0 ≡ get_or self.now.free.now (self.now.counts.freed - 1) 0 }
    {
        SparseIndex(self.free[self.counts.freed - 1])
    }

    // The dense order becomes that of the slots, which are 0, 1, 2, .. where none is free.
    pub fn order_by_slot(&mut self)
        requires { (n : ℕ) × (s : Store) × Holds n (pool_in self.old) s }
        ensures same { SameBuffers self.old self.new × SameLists self.old self.new }
        ensures slots { (self.new.free.now ≡ self.old.free.now) × (self.new.counts ≡ self.old.counts) }
        ensures order { let live = self.old.counts.live in
            order_in self.new ≡ order (up_from 0 live ++ drop live self.old.dense.now) (up_from 0 live ++ drop live self.old.reverse.now) }
        ensures holds { (n : ℕ) (s : Store) (d : List Rec) → Holds n (pool_in self.old) s → Shuffled s.dense d
            → ((j : ℕ) → j < length d → (get_or d j no_rec).slot ≡ j) → Holds n (pool_in self.new) (reordered d s) }
    {
        let live = self.counts.live;
        number(self.dense, live);
        number(self.reverse, live);
    }
}
