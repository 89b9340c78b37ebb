// Crossing records, each linked along its two edges (intersection_set.rs, `IndexIntersectionSet`).
//
// A record is two words, indexed by its slot, each of four 16-bit numbers, the first lowest. `ends` has the points of its edges: edge0's min
// and max, edge1's min and max. `links` has its links along their lists: next and previous along edge0, next and previous along edge1.
// `ages` has its age, the count of pushes made before it. `heads` has each edge's newest record, and `tangles`, at the same places, how many records name the
// edge. The buffers are lent, and of parts of fixed size, as the C interface has them.
ghost use Rattle.std.specs.Prelude.{◌≡◌, not, map, ℕ, ◌<◌, ◌≤◌, length, get_or, set, eqb};
ghost use Rattle.index_edge.specs.Edge.{Edge};
ghost use Rattle.index_edge.specs.Number.{edge_of};
ghost use Rattle.intersection_set.specs.Store.{Store, no_rec, empty, push as pushed, remove_all as all_removed, chosen};
ghost use Rattle.intersection_set.specs.Lists.{none, head_place};
ghost use Rattle.intersection_set.specs.Words.{packed, part0, part1, part2, part3, unit_of, with_link};
ghost use Rattle.intersection_set.specs.Pool.{Pool, edges_of, links_in, nexts_in, prevs_in, links_of, pair_of, no_ends, counts_of, end0, end1, head_at, set_end, set_head, unlink_from, raised, lowered, put_edges, put_ends, clear_ends, pool_push, pool_remove, lesser, greater};
ghost use Rattle.intersection_set.specs.Within.{Proper, EndOk, HeadOk, UnlinkOk, RaiseOk, LowerOk, RaiseBoth, LowerBoth, Sized, PushOk, RemoveOk};
ghost use Rattle.intersection_set.specs.Holds.{Holds, MayPush};
ghost use Rattle.intersection_set.specs.Stored.{stored, goes_back, Slot};
ghost use Rattle.intersection_set.specs.Set.{pool_in, buffers_in, SameBuffers, cleared};

use crate::sparse_index::{NONE, SparseIndex};
use crate::utils::Counts;
use index_edge::{IndexEdge, PointId};

// Two edges that meet, the smaller first.
#[derive(Clone, Copy, PartialEq, Eq, PartialOrd, Ord, Debug)]
pub struct IndexIntersection {
    pub min: IndexEdge,
    pub max: IndexEdge,
}

impl IndexIntersection {
    pub fn new(a: IndexEdge, b: IndexEdge) -> IndexIntersection
        ensures { (edge_of result.min ≡ lesser (edge_of a) (edge_of b)) × (edge_of result.max ≡ greater (edge_of a) (edge_of b)) }
    {
        IndexIntersection {
            min: a.min(b),
            max: a.max(b),
        }
    }
}

// Where an edge's head stands (`Index<IndexEdge>`), and its count.
pub fn place(n: usize, e: IndexEdge) -> usize
    requires { (n ≤ 256) × Proper n (edge_of e) }
    ensures { result ≡ head_place n (edge_of e) }
{
    (e.max.0 as usize) + n * (e.min.0 as usize)
}

// A word of four 16-bit numbers, the first lowest.
fn pack(a: u16, b: u16, c: u16, d: u16) -> u64
    ensures { result ≡ packed a b c d }
{
    (a as u64) + (b as u64) * 65536 + (c as u64) * 4294967296 + (d as u64) * 281474976710656
}

// The numbers of a word.
fn unpack(w: u64) -> (u16, u16, u16, u16)
    ensures { (result.0 ≡ part0 w) × (result.1 ≡ part1 w) × (result.2 ≡ part2 w) × (result.3 ≡ part3 w) }
{
    (
        (w % 65536) as u16,
        (w / 65536 % 65536) as u16,
        (w / 4294967296 % 65536) as u16,
        (w / 281474976710656) as u16,
    )
}

// The two edges of a record, by its first word.
#[tactic(auto, unfolding(crate::specs::Pool::pair_of))]
pub fn edges_in(word: u64) -> IndexIntersection
    ensures { (edge_of result.min ≡ (pair_of word).e0) × (edge_of result.max ≡ (pair_of word).e1) }
{
    let (min0, max0, min1, max1) = unpack(word);
    IndexIntersection {
        min: IndexEdge {
            min: PointId(min0),
            max: PointId(max0),
        },
        max: IndexEdge {
            min: PointId(min1),
            max: PointId(max1),
        },
    }
}

// Those of the record at i.
#[tactic(auto, using(crate::proofs::Words::pair_reads), unfolding(crate::specs::Pool::pair_of))]
fn edges_at(ends: &[u64], i: usize) -> IndexIntersection
    requires { i < length ends.now }
    ensures { (edge_of result.min ≡ end0 (edges_of ends.now) i) × (edge_of result.max ≡ end1 (edges_of ends.now) i) }
{
    edges_in(ends[i])
}

// The next and the previous record in the list of one of a record's edges (`IsectEdge`).
#[derive(Clone, Copy)]
struct Neighbours {
    next: Option<SparseIndex>,
    prev: Option<SparseIndex>,
    ghost slots: { Slot next × Slot prev },
}

// Those of the record at i, along its first edge and along its second.
#[tactic(auto, using(crate::proofs::Words::links_read), unfolding(crate::specs::Pool::links_in))]
fn neighbours_at(links: &[u64], i: usize) -> (Neighbours, Neighbours)
    requires { i < length links.now }
    ensures { (stored result.0.next ≡ (get_or (map nexts_in links.now) i no_ends).x0) × (stored result.0.prev ≡ (get_or (map prevs_in links.now) i no_ends).x0)
        × (stored result.1.next ≡ (get_or (map nexts_in links.now) i no_ends).x1) × (stored result.1.prev ≡ (get_or (map prevs_in links.now) i no_ends).x1) }
{
    let (next0, prev0, next1, prev1) = unpack(links[i]);
    (
        Neighbours {
            next: SparseIndex::read(next0),
            prev: SparseIndex::read(prev0),
        },
        Neighbours {
            next: SparseIndex::read(next1),
            prev: SparseIndex::read(prev1),
        },
    )
}

// Which link of a record along an edge's list.
#[derive(Clone, Copy)]
enum Link {
    Next,
    Prev,
}

// What a link along the first or the second edge of a record counts by in its word: a factor, so that the word is changed without a branch.
fn link_unit(link: Link, first: bool) -> u64
    ensures { result ≡ unit_of (goes_back link) first }
{
    match (link, first) {
        (Link::Next, true) => 1,
        (Link::Prev, true) => 65536,
        (Link::Next, false) => 4294967296,
        (Link::Prev, false) => 281474976710656,
    }
}

// A word of links with one of them anew: `first` is what the comparison with the record's edge answers.
#[tactic(auto, using(crate::proofs::Words::is_anew))]
fn with_link(link: Link, first: bool, w: u64, v: u16) -> u64
    ensures { result ≡ with_link (goes_back link) first w v }
{
    let unit = link_unit(link, first);
    w - (w / unit % 65536) * unit + (v as u64) * unit
}

// The helpers below take the slices that they need, not the set: what they leave as it was then needs no clause.

// Sets a link of the record s to v, along its edge e (`IndexMut<IndexEdge>`). Nothing where s is no record.
#[tactic(auto, using(crate::proofs::Words::in_words), unfolding(crate::specs::Pool::set_end))]
fn set_link(
    link: Link,
    s: Option<SparseIndex>,
    e: IndexEdge,
    v: Option<SparseIndex>,
    links: &mut [u64],
    ends: &[u64],
)
    requires { EndOk (stored s) (edges_of ends.now) (map (links_in (goes_back link)) links.old) × Slot s }
    ensures { (map (links_in (goes_back link)) links.new ≡ set_end (stored s) (edge_of e) (stored v) (edges_of ends.now) (map (links_in (goes_back link)) links.old))
        × (map (links_in (not (goes_back link))) links.new ≡ map (links_in (not (goes_back link))) links.old) }
{
    let Some(s) = s else {
        return;
    };
    let i = s.0 as usize;
    let first = e == edges_at(ends, i).min;
    links[i] = with_link(link, first, links[i], SparseIndex::stored(v));
}

// s becomes the newest record of an edge; answers the one that was the newest.
fn take_head(n: usize, e: IndexEdge, s: SparseIndex, heads: &mut [u16]) -> Option<SparseIndex>
    requires { HeadOk n (edge_of e) heads.old }
    ensures taken { (stored result ≡ head_at n (edge_of e) heads.old) × (heads.new ≡ set heads.old (head_place n (edge_of e)) s.0) }
    ensures slot { Slot result }
{
    let at = place(n, e);
    let old = heads[at];
    heads[at] = s.0;
    SparseIndex::read(old)
}

// Writes the two edges of a record, and that these come next along them, with none in front of it.
fn put_record(
    s: SparseIndex,
    isect: IndexIntersection,
    next0: Option<SparseIndex>,
    next1: Option<SparseIndex>,
    ends: &mut [u64],
    links: &mut [u64],
)
    requires { (s.0 < length ends.old) × (s.0 < length links.old) }
    ensures { (edges_of ends.new ≡ put_edges s.0 (edge_of isect.min) (edge_of isect.max) (edges_of ends.old))
        × (map nexts_in links.new ≡ put_ends s.0 (stored next0) (stored next1) (map nexts_in links.old))
        × (map prevs_in links.new ≡ clear_ends s.0 (map prevs_in links.old)) }
{
    let i = s.0 as usize;
    ends[i] = pack(
        isect.min.min.0,
        isect.min.max.0,
        isect.max.min.0,
        isect.max.max.0,
    );
    links[i] = pack(
        SparseIndex::stored(next0),
        NONE,
        SparseIndex::stored(next1),
        NONE,
    );
}

// An edge's head moves on to next, where the record that goes was the newest.
#[tactic(auto, unfolding(crate::specs::Pool::set_head))]
fn set_head(n: usize, e: IndexEdge, gone: Neighbours, heads: &mut [u16])
    requires { HeadOk n (edge_of e) heads.old }
    ensures { heads.new ≡ set_head n (edge_of e) (stored gone.next) (stored gone.prev) heads.old }
{
    let at = place(n, e);
    if gone.prev.is_none() {
        heads[at] = SparseIndex::stored(gone.next);
    }
}

// Takes a record out of the list of e, along which it has these neighbours.
#[tactic(auto, unfolding(crate::specs::Pool::unlink_from))]
fn unlink(
    n: usize,
    e: IndexEdge,
    gone: Neighbours,
    heads: &mut [u16],
    links: &mut [u64],
    ends: &[u64],
)
    requires { UnlinkOk n (edge_of e) (stored gone.next) (stored gone.prev) (edges_of ends.now) (links_of heads.old links.old) }
    ensures { links_of heads.new links.new ≡ unlink_from n (edge_of e) (stored gone.next) (stored gone.prev) (edges_of ends.now) (links_of heads.old links.old) }
{
    set_head(n, e, gone, heads);
    set_link(Link::Next, gone.prev, e, gone.next, links, ends);
    set_link(Link::Prev, gone.next, e, gone.prev, links, ends);
}

// One record more names an edge.
#[tactic(auto, unfolding(crate::specs::Pool::raised))]
fn raise(n: usize, e: IndexEdge, tangles: &mut [u16])
    requires { RaiseOk n (edge_of e) tangles.old }
    ensures { tangles.new ≡ raised n (edge_of e) tangles.old }
{
    tangles[place(n, e)] += 1;
}

// One record less.
#[tactic(auto, unfolding(crate::specs::Pool::lowered))]
fn lower(n: usize, e: IndexEdge, tangles: &mut [u16])
    requires { LowerOk n (edge_of e) tangles.old }
    ensures { tangles.new ≡ lowered n (edge_of e) tangles.old }
{
    tangles[place(n, e)] -= 1;
}

// A record more names each of its edges.
fn raise_both(n: usize, isect: IndexIntersection, tangles: &mut [u16])
    requires { RaiseBoth n (edge_of isect.min) (edge_of isect.max) tangles.old }
    ensures { tangles.new ≡ raised n (edge_of isect.max) (raised n (edge_of isect.min) tangles.old) }
{
    raise(n, isect.min, tangles);
    raise(n, isect.max, tangles);
}

// A record less.
fn lower_both(n: usize, isect: IndexIntersection, tangles: &mut [u16])
    requires { LowerBoth n (edge_of isect.min) (edge_of isect.max) tangles.old }
    ensures { tangles.new ≡ lowered n (edge_of isect.max) (lowered n (edge_of isect.min) tangles.old) }
{
    lower(n, isect.min, tangles);
    lower(n, isect.max, tangles);
}

// The records of a ring of `vertices` points, in lent buffers of n×(n-1) entries each. What they hold is a store of records (`Holds`). The slots' buffers
// lie flat beside the others: with a struct for them inside this one, a caller's proof does not learn what its buffers hold afterwards. Nor is the store a
// field: a ghost field is a proposition.
#[derive(Drop)]
pub struct IndexIntersectionSet<'a> {
    pub vertices: usize,
    pub heads: &'a mut [u16],
    pub ends: &'a mut [u64],
    pub links: &'a mut [u64],
    pub ages: &'a mut [u32],
    pub dense: &'a mut [u16],
    pub reverse: &'a mut [u16],
    pub free: &'a mut [u16],
    pub tangles: &'a mut [u16],
    pub counts: Counts,
}

impl<'a> IndexIntersectionSet<'a> {
    // No records (`new`): every head is none and every count 0, whatever the other buffers hold.
    pub fn clear(&mut self)
        ensures same { SameBuffers self.old self.new }
        ensures cleared { buffers_in self.new ≡ cleared (buffers_in self.old) }
        ensures counts { self.new.counts ≡ counts_of 0 0 0 0 }
        ensures empty { (n : ℕ) → n ≤ 256 → Sized n (pool_in self.new) → Holds n (pool_in self.new) empty }
    {
        self.clear_waiting(0);
    }

    pub fn len(&self) -> usize
        ensures { result ≡ self.now.counts.live }
    {
        self.counts.live
    }

    pub fn is_empty(&self) -> bool
        ensures { result ≡ eqb self.now.counts.live 0 }
    {
        self.len() == 0
    }

    // The newest record of an edge (`Index<IndexEdge>`).
    fn by_edge(&self, e: IndexEdge) -> Option<SparseIndex>
        requires { HeadOk self.now.vertices (edge_of e) self.now.heads.now }
        ensures { (stored result ≡ head_at self.now.vertices (edge_of e) self.now.heads.now) × Slot result }
    {
        SparseIndex::read(self.heads[place(self.vertices, e)])
    }

    // Records two edges that meet, with its age: in a slot of its own, in front of both edges' lists. It counts for both.
    pub fn push(&mut self, isect: IndexIntersection)
        requires { PushOk self.old.vertices (edge_of isect.min) (edge_of isect.max) (pool_in self.old) }
        ensures same { SameBuffers self.old self.new }
        ensures free { self.new.free.now ≡ self.old.free.now }
        ensures pushed { pool_in self.new ≡ pool_push self.old.vertices (edge_of isect.min) (edge_of isect.max) (pool_in self.old) }
        ensures holds { (a b : Edge) (s : Store) → edge_of isect.min ≡ lesser a b → edge_of isect.max ≡ greater a b
            → Holds self.old.vertices (pool_in self.old) s → MayPush self.old.vertices a b s → Holds self.old.vertices (pool_in self.new) (pushed a b s) }
    {
        let n = self.vertices;
        let s = self.alloc();
        self.ages[s.0 as usize] = self.counts.pushes;
        self.counts.pushes += 1;
        let next0 = take_head(n, isect.min, s, self.heads);
        let next1 = take_head(n, isect.max, s, self.heads);
        let ends = &mut *self.ends;
        let links = &mut *self.links;
        put_record(s, isect, next0, next1, ends, links);
        set_link(Link::Prev, next0, isect.min, Some(s), links, ends);
        set_link(Link::Prev, next1, isect.max, Some(s), links, ends);
        raise_both(n, isect, self.tangles);
    }

    // Removes a record: out of both edges' lists and counts and the dense order, and its slot is free.
    fn remove(&mut self, s: SparseIndex)
        requires { RemoveOk self.old.vertices s.0 (pool_in self.old) }
        ensures same { SameBuffers self.old self.new }
        ensures ends { self.new.ends.now ≡ self.old.ends.now }
        ensures removed { pool_in self.new ≡ pool_remove self.old.vertices s.0 (pool_in self.old) }
    {
        let n = self.vertices;
        let i = s.0 as usize;
        self.release(s);
        let heads = &mut *self.heads;
        let links = &mut *self.links;
        let ends = &mut *self.ends;
        let isect = edges_at(ends, i);
        let (along_min, along_max) = neighbours_at(links, i);
        unlink(n, isect.min, along_min, heads, links, ends);
        unlink(n, isect.max, along_max, heads, links, ends);
        lower_both(n, isect, self.tangles);
    }

    // Removes every record of an edge, newest first, until its list has none.
    pub fn remove_all(&mut self, e: IndexEdge)
        requires { Proper self.old.vertices (edge_of e) × ((s : Store) × Holds self.old.vertices (pool_in self.old) s) }
        ensures same { SameBuffers self.old self.new }
        ensures ends { self.new.ends.now ≡ self.old.ends.now }
        ensures removed { (s : Store) → Holds self.old.vertices (pool_in self.old) s → Holds self.old.vertices (pool_in self.new) (all_removed (edge_of e) s) }
    {
        while let Some(newest) = self.by_edge(e) {
            self.remove(newest);
        }
    }

    // The record that a pick takes from the dense order.
    pub fn random(&self, pick: u32) -> IndexIntersection
        requires { (0 < self.now.counts.live)
            × ((n : ℕ) × (p : Pool) × (s : Store) × Holds n p s × (p.edges ≡ edges_of self.now.ends.now) × (p.order.dense ≡ self.now.dense.now) × (p.counts ≡ self.now.counts)) }
        ensures { (n : ℕ) (p : Pool) (s : Store) → Holds n p s → p.edges ≡ edges_of self.now.ends.now → p.order.dense ≡ self.now.dense.now → p.counts ≡ self.now.counts
            → (edge_of result.min ≡ (get_or s.dense (chosen pick s) no_rec).e0) × (edge_of result.max ≡ (get_or s.dense (chosen pick s) no_rec).e1) }
    {
        let at = (pick as usize) % self.len();
        edges_at(self.ends, self.dense[at] as usize)
    }
}
