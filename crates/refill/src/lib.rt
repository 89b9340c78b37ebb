// A pool of crossing records is filled from the lines of an image, which has its records in dense order: the record at place i comes into the slot i, and
// keeps its age.
//
// Only pushes write records, and they give ages in their order, each slot as it comes to hand. So the slots wait as free ones, in the order of the ages;
// the records are pushed in that order; and the dense order is put right at the end.
#![tactic(auto)]

ghost use Rattle.std.specs.Prelude.{◌≡◌, List, ℕ, ◌-◌, ◌*◌, ◌≤◌, ◌<◌, length};
ghost use Rattle.geometry.specs.Plane.{Point};
ghost use Rattle.index_edge.specs.Number.{edge_of};
ghost use Rattle.intersection_set.specs.Within.{Room};
ghost use Rattle.intersection_set.specs.Holds.{Stack, Holds};
ghost use Rattle.intersection_set.specs.Filling.{waiting};
ghost use Rattle.intersection_set.specs.Set.{pool_in, buffers_in, SameBuffers};
ghost use Rattle.machine.specs.Board.{Board};
ghost use Rattle.resume.specs.Image.{Line, Image, taken_up};
ghost use Rattle.resume.specs.Fit.{Fit};
ghost use Rattle.refill.specs.Filling.{line_at, Fills, slots_by_age, filled};

use intersection_set::intersection_set::{IndexIntersection, IndexIntersectionSet};

// The slots of the records, the oldest record's last: pushes take slots from the end.
fn stack_slots<A: Fn(usize) -> u32>(free: &mut [u16], count: usize, age: A)
    ghost lines: { List Line }
    requires fills { (n : ℕ) × Fills n lines × (length free.old ≡ n * (n - 1)) }
    requires count { count ≡ length lines }
    requires can { (i : ℕ) → i < count → A.pre age i }
    requires gives { (i : ℕ) (a : _) → i < count → A.post age i a → a ≡ (line_at lines i).age }
    ensures long { length free.new ≡ length free.old }
    ensures stack { Stack free.new (slots_by_age lines) }
{
    for i in 0..count {
        free[count - 1 - age(i) as usize] = i as u16;
    }
}

// Pushes the records, the oldest first: the next one is that of the slot which the push takes.
fn push_waiting<R: Fn(usize) -> IndexIntersection>(
    set: &mut IndexIntersectionSet<'_>,
    count: usize,
    read: R,
)
    ghost lines: { List Line }
    requires fills { Fills set.old.vertices lines }
    requires count { count ≡ length lines }
    requires held { Holds set.old.vertices (pool_in set.old) (waiting (slots_by_age lines)) }
    requires can { (i : ℕ) → i < count → R.pre read i }
    requires gives { (i : ℕ) (r : _) → i < count → R.post read i r
        → (edge_of r.min ≡ (line_at lines i).e0) × (edge_of r.max ≡ (line_at lines i).e1) }
    ensures same { SameBuffers set.old set.new }
    ensures holds { Holds set.old.vertices (pool_in set.new) (filled lines count) }
{
    for _ in 0..count {
        let slot = set.last_freed();
        set.push(read(slot.0 as usize));
    }
}

// Fills a pool from the records of an image: whatever the buffers held, they then hold the store that is taken up from it. `age` answers the age of the
// record at a dense place, and `read` its two edges.
pub fn refill<A: Fn(usize) -> u32, R: Fn(usize) -> IndexIntersection>(
    set: &mut IndexIntersectionSet<'_>,
    count: usize,
    age: A,
    read: R,
)
    ghost image: { Image }
    requires lent { (set.old.vertices ≤ 256) × Room set.old.vertices (buffers_in set.old) }
    requires fit { (pt : ℕ → Point) × Board set.old.vertices pt × Fit set.old.vertices pt image }
    requires count { count ≡ length image.lines }
    requires can_age { (i : ℕ) → i < count → A.pre age i }
    requires ages { (i : ℕ) (a : _) → i < count → A.post age i a → a ≡ (line_at image.lines i).age }
    requires can_read { (i : ℕ) → i < count → R.pre read i }
    requires reads { (i : ℕ) (r : _) → i < count → R.post read i r
        → (edge_of r.min ≡ (line_at image.lines i).e0) × (edge_of r.max ≡ (line_at image.lines i).e1) }
    ensures same { SameBuffers set.old set.new }
    ensures holds { Holds set.old.vertices (pool_in set.new) (taken_up image.lines) }
{
    stack_slots(set.free, count, age);
    set.clear_waiting(count);
    push_waiting(set, count, read);
    set.order_by_slot();
}
