// What a call is lent to be written: ring, index, the buffers of the records and the tree. Check 2 says how many entries of each are needed; no other is read or written.
ghost use Rattle.std.specs.Prelude.{◌≡◌, false, ◌<◌, ◌≤◌, length, take};
ghost use Rattle.algebra.specs.Ranges.{up_from};
ghost use Rattle.geometry.specs.Spots.{spots};
ghost use Rattle.polygon.specs.Ring.{index_of, IsRing, Indexed};
ghost use Rattle.intersection_set.specs.Pool.{lent};
ghost use Rattle.intersection_set.specs.Within.{Room};
ghost use Rattle.machine.specs.Machine.{begin as starting};
ghost use Rattle.machine.specs.Answer.{refusal, too_many};
ghost use Rattle.box_tree.specs.Tree.{ring_tree, tree_size};
ghost use Rattle.resolve.specs.Ended.{Counted, Ended};
ghost use Rattle.two_opt.specs.Entry.{short_of};
ghost use Rattle.two_opt.specs.Lent.{loan_of, SameWorkspace, Enough, Starting, RanIn};

use box_tree::tree::{too_short as tree_too_short, tree_size};
use checks::accept::{Given, record_size, too_many, too_short};
use geometry::lent::Points;
use intersection_set::intersection_set::IndexIntersectionSet;
use intersection_set::utils::Counts;
use polygon::polygon::{Polygon, identity, rebuild_index};
use resolve::resolve::{Resolved, resolve};

#[derive(Drop)]
pub struct Workspace<'a> {
    pub ring: &'a mut [u16],
    pub index: &'a mut [u16],
    pub heads: &'a mut [u16],
    pub ends: &'a mut [u64],
    pub links: &'a mut [u64],
    pub ages: &'a mut [u32],
    pub dense: &'a mut [u16],
    pub reverse: &'a mut [u16],
    pub free: &'a mut [u16],
    pub tangles: &'a mut [u16],
    pub tree: &'a mut [i32],
}

// A run from the ring, of which this is the index, its records in these buffers. It is lent exactly what check 2 asks for, so that no entry past it can be
// reached; and it takes the slices one by one, since of parts that are lent to a field the prover does not say what they hold after it.
fn resolve_in(
    points: Points<'_>,
    picks: &[u32],
    ring: &mut [u16],
    index: &mut [u16],
    heads: &mut [u16],
    ends: &mut [u64],
    links: &mut [u64],
    ages: &mut [u32],
    dense: &mut [u16],
    reverse: &mut [u16],
    free: &mut [u16],
    tangles: &mut [u16],
    tree: &mut [i32],
) -> Resolved
    requires { let given = lent heads.old ends.old links.old ages.old dense.old reverse.old free.old tangles.old in
        Indexed points.n ring.old index.old × (refusal points.n (spots points) false (too_many picks.now) ring.old ≡ 0) × Room points.n given × (length tree.old ≡ tree_size points.n) }
    ensures tree { tree.new ≡ ring_tree points.entry.n (spots points.entry) ring.new }
    ensures ended { let n = points.entry.n in
        let pt = spots points.entry in
        let first = (starting n pt ring.old).now in
        let is = lent heads.new ends.new links.new ages.new dense.new reverse.new free.new tangles.new in
        Counted n pt first picks.now result.moves result.cross result.left × Ended n pt first picks.now ring.new index.new is }
{
    let counts = Counts {
        live: 0,
        grown: 0,
        freed: 0,
        pushes: 0,
    };
    let mut set = IndexIntersectionSet {
        vertices: points.n,
        heads,
        ends,
        links,
        ages,
        dense,
        reverse,
        free,
        tangles,
        counts,
    };
    let mut polygon = Polygon { ring, index };
    resolve(&mut set, points, &mut polygon, tree, picks)
}

// A ring copied, and its index.
fn copy_ring(from: &[u16], ring: &mut [u16], index: &mut [u16])
    requires { let n = length from.now in
        IsRing n from.now × (n < 65536) × (length ring.old ≡ n) × (length index.old ≡ n) }
    ensures ring { ring.new ≡ from.now }
    ensures index { index.new ≡ index_of (length from.now) from.now }
{
    ring.copy_from_slice(from);
    rebuild_index(from, index);
}

impl<'a> Workspace<'a> {
    // A call with n points and these picks, with what checks 2 and 19 say of it.
    pub fn given<'p>(&self, n: usize, x: &'p [i32], y: &'p [i32], picks: &[u32]) -> Given<'p>
        ensures points { (result.n ≡ n) × (result.x ≡ x.entry) × (result.y ≡ y.entry) }
        ensures short { n ≤ 256 → result.short ≡ short_of n x.now y.now (loan_of self.now) }
        ensures many { result.many ≡ too_many picks.now }
    {
        let of_points = [x.len(), y.len(), self.ring.len(), self.index.len()];
        let of_records = [
            self.heads.len(),
            self.ends.len(),
            self.links.len(),
            self.ages.len(),
            self.dense.len(),
            self.reverse.len(),
            self.free.len(),
            self.tangles.len(),
        ];
        let short = too_short(n, &of_points, &of_records) || tree_too_short(n, self.tree);
        let many = too_many(picks);
        Given {
            n,
            x,
            y,
            short,
            many,
        }
    }

    // The ring alone.
    pub(crate) fn ring(&self) -> &[u16]
        ensures { result.now ≡ self.now.ring.now }
    {
        self.ring
    }

    // The points in their own order. What ring and index held is not read.
    pub(crate) fn start_in_order(&mut self, n: usize)
        requires { (n < 65536) × Enough n (loan_of self.old) }
        ensures same { SameWorkspace self.old self.new }
        ensures started { Starting n (up_from 0 n) (loan_of self.old) (loan_of self.new) }
    {
        identity(&mut self.ring[..n], &mut self.index[..n]);
    }

    // The index of the ring. What it held is not read. The ring is lent by `&mut` too: the prover lends no field to be read beside one to be written.
    pub(crate) fn start_from_ring(&mut self, n: usize)
        requires { (n < 65536) × Enough n (loan_of self.old) × IsRing n (take n self.old.ring.now) }
        ensures same { SameWorkspace self.old self.new }
        ensures started { Starting n (take n self.old.ring.now) (loan_of self.old) (loan_of self.new) }
    {
        rebuild_index(&mut self.ring[..n], &mut self.index[..n]);
    }

    // A ring that is read elsewhere, and its index.
    pub fn start_from(&mut self, ring: &[u16])
        requires { let n = length ring.now in
            (n < 65536) × Enough n (loan_of self.old) × IsRing n ring.now }
        ensures same { SameWorkspace self.old self.new }
        ensures started { Starting (length ring.now) ring.now (loan_of self.old) (loan_of self.new) }
    {
        let n = ring.len();
        copy_ring(ring, &mut self.ring[..n], &mut self.index[..n]);
    }

    // A run from the ring that the first entries of `ring` and `index` hold.
    pub(crate) fn resolve(&mut self, points: Points<'_>, picks: &[u32]) -> Resolved
        requires { let n = points.n in
            let start = take n self.old.ring.now in
            Enough n (loan_of self.old) × (take n self.old.index.now ≡ index_of n start) × (refusal n (spots points) false (too_many picks.now) start ≡ 0) }
        ensures same { SameWorkspace self.old self.new }
        ensures ran { RanIn points.entry.n (spots points.entry) picks.now (loan_of self.old) (loan_of self.new) result }
    {
        let n = points.n;
        let size = record_size(n);
        resolve_in(
            points,
            picks,
            &mut self.ring[..n],
            &mut self.index[..n],
            &mut self.heads[..size],
            &mut self.ends[..size],
            &mut self.links[..size],
            &mut self.ages[..size],
            &mut self.dense[..size],
            &mut self.reverse[..size],
            &mut self.free[..size],
            &mut self.tangles[..size],
            &mut self.tree[..tree_size(n)],
        )
    }
}
