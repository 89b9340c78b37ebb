// Slots that are taken and freed, and the dense order of those in use (utils.rs, `SparseVec` and `DenseCollection`).
ghost use Rattle.std.specs.Prelude.{◌≡◌, ◌+◌, ◌-◌, ◌<◌, length, set};
ghost use Rattle.intersection_set.specs.Pool.{counts_of, take_slot, dense_push, dense_remove};
ghost use Rattle.intersection_set.specs.Within.{TakeOk, AppendOk, DropOk};
ghost use Rattle.intersection_set.specs.Set.{SameBuffers, SameLists, order_in};

use crate::intersection_set::IndexIntersectionSet;
use crate::sparse_index::SparseIndex;

// How many slots are in use, how many were grown so far, how many of these are free again, and how many pushes were made: the age of the next record.
#[derive(Clone, Copy)]
pub struct Counts {
    pub live: usize,
    pub grown: usize,
    pub freed: usize,
    pub pushes: u32,
}

impl<'a> IndexIntersectionSet<'a> {
    // The slot freed last, else the next new one.
    #[tactic(auto, unfolding(crate::specs::Pool::take_slot))]
    fn take(&mut self) -> SparseIndex
        requires { TakeOk self.old.counts self.old.free.now }
        ensures same { SameBuffers self.old self.new × SameLists self.old self.new }
        ensures slots { (order_in self.new ≡ order_in self.old) × (self.new.free.now ≡ self.old.free.now) }
        ensures slot { result.0 ≡ (take_slot self.old.counts self.old.free.now).slot }
        ensures counts { self.new.counts ≡ (take_slot self.old.counts self.old.free.now).counts }
    {
        self.counts.live += 1;
        if self.counts.freed == 0 {
            let grown = self.counts.grown;
            self.counts.grown += 1;
            SparseIndex(grown as u16)
        } else {
            self.counts.freed -= 1;
            let last = self.free[self.counts.freed];
            SparseIndex(last)
        }
    }

    // Takes a slot, and appends it to the dense order.
    #[tactic(auto, unfolding(crate::specs::Pool::dense_push))]
    pub fn alloc(&mut self) -> SparseIndex
        requires { TakeOk self.old.counts self.old.free.now
            × AppendOk (take_slot self.old.counts self.old.free.now).slot self.old.counts.live (order_in self.old) }
        ensures same { SameBuffers self.old self.new × SameLists self.old self.new }
        ensures slot { result.0 ≡ (take_slot self.old.counts self.old.free.now).slot }
        ensures counts { self.new.counts ≡ (take_slot self.old.counts self.old.free.now).counts }
        ensures order { order_in self.new ≡ dense_push result.0 self.old.counts.live (order_in self.old) }
        ensures free { self.new.free.now ≡ self.old.free.now }
    {
        let live = self.counts.live;
        let s = self.take();
        self.dense[live] = s.0;
        self.reverse[s.0 as usize] = live as u16;
        s
    }

    // Takes s out of the dense order, and frees it. Its dense entry is swapped with the last one, whose place is then that of s.
    #[tactic(auto, unfolding(crate::specs::Pool::dense_remove))]
    pub fn release(&mut self, s: SparseIndex)
        requires { DropOk s.0 self.old.counts.live (order_in self.old) × (self.old.counts.freed < length self.old.free.now) }
        ensures same { SameBuffers self.old self.new × SameLists self.old self.new }
        ensures order { order_in self.new ≡ dense_remove s.0 self.old.counts.live (order_in self.old) }
        ensures free { self.new.free.now ≡ set self.old.free.now self.old.counts.freed s.0 }
        ensures counts { self.new.counts ≡ counts_of (self.old.counts.live - 1) self.old.counts.grown (self.old.counts.freed + 1) self.old.counts.pushes }
    {
        self.counts.live -= 1;
        let place = self.reverse[s.0 as usize];
        let last = self.dense[self.counts.live];
        self.dense[place as usize] = last;
        self.reverse[last as usize] = place;
        self.free[self.counts.freed] = s.0;
        self.counts.freed += 1;
    }
}
