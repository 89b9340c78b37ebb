// A stopped run is taken up from its image, and goes on. It checks for itself what the image says; a refused call writes nothing.
#![tactic(auto)]

ghost use Rattle.std.specs.Prelude.{◌≡◌, true, false, ◌&&◌, ◌-◌, ◌*◌, ◌≤◌, ◌<◌, length, take};
ghost use Rattle.geometry.specs.Spots.{spots};
ghost use Rattle.polygon.specs.Ring.{IsRing, Indexed, index_of};
ghost use Rattle.polygon.specs.Lent.{SameLoans};
ghost use Rattle.intersection_set.specs.Pool.{lent};
ghost use Rattle.intersection_set.specs.Set.{buffers_in, SameBuffers};
ghost use Rattle.intersection_set.specs.Within.{Room};
ghost use Rattle.machine.specs.Board.{Board};
ghost use Rattle.box_tree.specs.Tree.{ring_tree, tree_size};
ghost use Rattle.resolve.specs.Ended.{Counted, Ended};
ghost use Rattle.two_opt.specs.Entry.{answer_of};
ghost use Rattle.two_opt.specs.Lent.{loan_of, SameWorkspace, Enough, Starting, RanFrom};
ghost use Rattle.resume.specs.Image.{take_up as state_of};
ghost use Rattle.resume.specs.Check.{fits};
ghost use Rattle.resume.specs.Fit.{Fit};
ghost use Rattle.image.specs.Reading.{read_image, point_count, ring_in};
ghost use Rattle.take_up.specs.TakenUp.{TakenUp};

use audit::ages::{are_all, sort_ages};
use audit::pairs::name_exactly;
use box_tree::tree::{build, tree_size};
use checks::accept::{Given, record_size};
use geometry::lent::Points;
use image::image_file::ImageFile;
use intersection_set::intersection_set::{IndexIntersectionSet, edges_in};
use intersection_set::utils::Counts;
use job::reader::fill;
use polygon::polygon::{Polygon, rebuild_index};
use refill::refill;
use refusal::Refusal;
use resolve::resolve::{Resolved, go_on};
use two_opt::entries::{Delivered, answer_of};
use two_opt::workspace::Workspace;

// Check 21: ages are 0 up to the record count less one, and the records name exactly the pairs that meet.
fn is_fit(file: ImageFile<'_>, points: Points<'_>, ring: &[u16]) -> bool
    requires { (points.n ≡ file.header.points) × IsRing points.n ring.now × Board points.n (spots points) × (ring.now ≡ ring_in file.bytes.now) }
    ensures { result ≡ fits points.entry.n (spots points.entry) (read_image file.entry.bytes.now) }
{
    let mut table = [0u32; 65280];
    let count = file.header.records;
    if !name_exactly(
        points,
        ring,
        count,
        |i| edges_in(file.ends_at(i)),
        &mut table,
    ) {
        return false;
    }
    sort_ages(&mut table, count, |i| file.age_at(i));
    are_all(&table[..count])
}

// A run from the image's state: the ring's tree, the records, then a move for each pick. The polygon holds the image's ring already.
fn go_on_from(
    file: ImageFile<'_>,
    set: &mut IndexIntersectionSet<'_>,
    points: Points<'_>,
    polygon: &mut Polygon<'_>,
    tree: &mut [i32],
    picks: &[u32],
) -> Resolved
    requires lent { let n = points.n in
        (set.old.vertices ≡ n) × Room n (buffers_in set.old) × (length polygon.old.ring.now ≡ n) × (length tree.old ≡ tree_size n) }
    requires image { (polygon.old.ring.now ≡ ring_in file.bytes.now) × Board points.n (spots points) × Fit points.n (spots points) (read_image file.bytes.now) × (length picks.now ≤ 1000000) }
    ensures same { SameBuffers set.old set.new }
    ensures loans { SameLoans polygon.old polygon.new }
    ensures tree { tree.new ≡ ring_tree points.entry.n (spots points.entry) polygon.new.ring.now }
    ensures ended { let n = points.entry.n in
        let pt = spots points.entry in
        let first = state_of (read_image file.entry.bytes.now) in
        Counted n pt first picks.now result.moves result.cross result.left × Ended n pt first picks.now polygon.new.ring.now polygon.new.index.now (buffers_in set.new) }
{
    build(points, polygon.as_slice(), tree);
    refill(
        set,
        file.header.records,
        |i| file.age_at(i),
        |i| edges_in(file.ends_at(i)),
    );
    go_on(set, points, polygon, tree, picks)
}

// A run from the image's state, in buffers that are lent with exactly the entries that check 2 asks for; ring and index hold the image's ring already. It takes the
// slices one by one, as a run from a start does (two_opt/src/workspace.rt).
fn go_on_in(
    points: Points<'_>,
    file: ImageFile<'_>,
    picks: &[u32],
    ring: &mut [u16],
    index: &mut [u16],
    heads: &mut [u16],
    ends: &mut [u64],
    links: &mut [u64],
    ages: &mut [u32],
    dense: &mut [u16],
    reverse: &mut [u16],
    free: &mut [u16],
    tangles: &mut [u16],
    tree: &mut [i32],
) -> Resolved
    requires lent { let given = lent heads.old ends.old links.old ages.old dense.old reverse.old free.old tangles.old in
        Indexed points.n ring.old index.old × Room points.n given × (length tree.old ≡ tree_size points.n) }
    requires image { (ring.old ≡ ring_in file.bytes.now) × Board points.n (spots points) × Fit points.n (spots points) (read_image file.bytes.now) × (length picks.now ≤ 1000000) }
    ensures tree { tree.new ≡ ring_tree points.entry.n (spots points.entry) ring.new }
    ensures ended { let n = points.entry.n in
        let pt = spots points.entry in
        let first = state_of (read_image file.entry.bytes.now) in
        let is = lent heads.new ends.new links.new ages.new dense.new reverse.new free.new tangles.new in
        Counted n pt first picks.now result.moves result.cross result.left × Ended n pt first picks.now ring.new index.new is }
{
    let counts = Counts {
        live: 0,
        grown: 0,
        freed: 0,
        pushes: 0,
    };
    let mut set = IndexIntersectionSet {
        vertices: points.n,
        heads,
        ends,
        links,
        ages,
        dense,
        reverse,
        free,
        tangles,
        counts,
    };
    let mut polygon = Polygon { ring, index };
    go_on_from(file, &mut set, points, &mut polygon, tree, picks)
}

// The same over the first entries of what is lent.
fn go_on_with(
    points: Points<'_>,
    file: ImageFile<'_>,
    picks: &[u32],
    work: &mut Workspace<'_>,
) -> Resolved
    requires lent { let n = points.n in
        let start = take n work.old.ring.now in
        Enough n (loan_of work.old) × (take n work.old.index.now ≡ index_of n start) × (start ≡ ring_in file.bytes.now) }
    requires image { Board points.n (spots points) × Fit points.n (spots points) (read_image file.bytes.now) × (length picks.now ≤ 1000000) }
    ensures same { SameWorkspace work.old work.new }
    ensures ran { RanFrom points.entry.n (spots points.entry) (state_of (read_image file.entry.bytes.now)) picks.now (loan_of work.old) (loan_of work.new) result }
{
    let n = points.n;
    let size = record_size(n);
    go_on_in(
        points,
        file,
        picks,
        &mut work.ring[..n],
        &mut work.index[..n],
        &mut work.heads[..size],
        &mut work.ends[..size],
        &mut work.links[..size],
        &mut work.ages[..size],
        &mut work.dense[..size],
        &mut work.reverse[..size],
        &mut work.free[..size],
        &mut work.tangles[..size],
        &mut work.tree[..tree_size(n)],
    )
}

// Takes up a run from its image and goes on with the picks, in what is lent: x, y and the workspace hold points, ring and records of the image then. A refusal but
// number 8 leaves all as it was, so that points and ring are checked in arrays of their own before they are written.
pub fn take_up(
    image: &[u8],
    picks: &[u32],
    x: &mut [i32],
    y: &mut [i32],
    work: &mut Workspace<'_>,
) -> Result<Delivered, Refusal>
    ensures same { SameWorkspace work.old work.new }
    ensures taken { let is = loan_of work.new in
        TakenUp image.now picks.now x.old y.old (loan_of work.old) x.new y.new is (answer_of result (take (point_count image.now) is.ring)) }
{
    let file = ImageFile::new(image)?;
    let n = file.header.points;
    let few = n.min(256);
    let mut px = [0i32; 256];
    let mut py = [0i32; 256];
    let mut ring = [0u16; 256];
    fill(&mut px, few, move |i| file.x_at(i));
    fill(&mut py, few, move |i| file.y_at(i));
    fill(&mut ring, few, move |i| file.ring_at(i));
    let Given { short, many, .. } = work.given(n, x, y, picks);
    let points = Given {
        n,
        x: &px,
        y: &py,
        short,
        many,
    }
    .check_ring(&ring)?;
    let ring = &ring[..n];
    if !is_fit(file, points, ring) {
        return Err(Refusal::WrongRecords);
    }
    fill(x, n, move |i| file.x_at(i));
    fill(y, n, move |i| file.y_at(i));
    work.start_from(ring);
    answer_of(go_on_with(points, file, picks, work))
}
