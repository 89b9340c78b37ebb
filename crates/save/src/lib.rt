// The state of a stopped run goes into an image. It checks for itself what it is lent, as taking up checks an image.
#![tactic(auto)]

ghost use Rattle.std.specs.Prelude.{◌≡◌, true, ◌&&◌, ◌≤◌, ◌<◌, ◌-◌, ◌*◌, length, take};
ghost use Rattle.geometry.specs.Spots.{spots};
ghost use Rattle.polygon.specs.Ring.{IsRing};
ghost use Rattle.machine.specs.Board.{Board};
ghost use Rattle.resume.specs.Check.{savable};
ghost use Rattle.image.specs.Bytes.{image_length};
ghost use Rattle.audit.specs.Sorted.{Sorted};
ghost use Rattle.save.specs.Saved.{records_of, slots_fit, too_short as is_short, Saving};

use audit::ages::{differ, rank, sort_ages};
use audit::pairs::name_exactly;
use checks::accept::{Given, record_size, too_short};
use geometry::lent::Points;
use image::writing::write_image;
use intersection_set::intersection_set::{IndexIntersection, edges_in};
use refusal::Refusal;

// The records of a run, to be read: how many are live, their slots in dense order, and by slot the word of its edges and its age.
#[derive(Clone, Copy)]
pub struct Records<'a> {
    pub live: usize,
    pub dense: &'a [u16],
    pub ends: &'a [u64],
    pub ages: &'a [u32],
}

// The bytes of an image of n points and so many records.
fn image_size(n: usize, live: usize) -> usize
    requires { (n ≤ 256) × (live ≤ n * (n - 1)) }
    ensures { result ≡ image_length n live }
{
    28 + 10 * n + 12 * live
}

// Check 2.
#[tactic(auto, unfolding(crate::specs::Saved::too_short))]
fn is_short(n: usize, x: &[i32], y: &[i32], ring: &[u16], records: Records<'_>, out: &[u8]) -> bool
    ensures { n ≤ 256 → result ≡ is_short n x.now y.now ring.now records.entry.live records.entry.dense.now records.entry.ends.now records.entry.ages.now out.now }
{
    let of_points = [x.len(), y.len(), ring.len()];
    let of_records = [records.dense.len(), records.ends.len(), records.ages.len()];
    if 256 < n || too_short(n, &of_points, &of_records) {
        return true;
    }
    record_size(n) < records.live || out.len() < image_size(n, records.live)
}

impl<'a> Records<'a> {
    ghost use Rattle.std.specs.Prelude.{◌≡◌, ◌&&◌, ◌≤◌, ◌<◌, length, get_or};
    ghost use Rattle.index_edge.specs.Number.{edge_of};
    ghost use Rattle.intersection_set.specs.Store.{no_rec};
    ghost use Rattle.resume.specs.AgesAside.{age_at};
    ghost use Rattle.resume.specs.Image.{line_of};
    ghost use Rattle.image.specs.Bytes.{line_of_word};
    ghost use Rattle.save.specs.Saved.{records_of, slots_fit, Reads};

    // The word of the edges of the record at a dense place.
    fn ends(self, i: usize) -> u64
        requires { Reads self.live self.dense.now self.ends.now self.ages.now × (i < self.live) }
        ensures { result ≡ get_or self.entry.ends.now (get_or self.entry.dense.now i 0) 0 }
    {
        self.ends[self.dense[i] as usize]
    }

    // Its age.
    fn age(self, i: usize) -> u32
        requires { Reads self.live self.dense.now self.ends.now self.ages.now × (i < self.live) }
        ensures { result ≡ age_at (records_of self.entry.live self.entry.dense.now self.entry.ends.now self.entry.ages.now) i }
    {
        self.ages[self.dense[i] as usize]
    }

    // Its edges.
    fn edges(self, i: usize) -> IndexIntersection
        requires { Reads self.live self.dense.now self.ends.now self.ages.now × (i < self.live) }
        ensures { let r = get_or (records_of self.entry.live self.entry.dense.now self.entry.ends.now self.entry.ages.now) i no_rec in
            (edge_of result.min ≡ r.e0) × (edge_of result.max ≡ r.e1) }
    {
        edges_in(self.ends(i))
    }

    // Its edges and its age as they go into an image: the age renumbered, by the ages in rising order.
    fn line(self, i: usize, sorted: &[u32]) -> (u64, u32)
        requires { let d = records_of self.live self.dense.now self.ends.now self.ages.now in
            Reads self.live self.dense.now self.ends.now self.ages.now × (i < self.live) × Sorted d sorted.now × (length sorted.now < 4294967296) }
        ensures { let d = records_of self.entry.live self.entry.dense.now self.entry.ends.now self.entry.ages.now in
            line_of_word result.0 result.1 ≡ line_of d (get_or d i no_rec) }
    {
        (self.ends(i), rank(sorted, self.age(i)))
    }

    // Each live dense entry is a slot.
    fn slots_fit(self, n: usize) -> bool
        requires { (n ≤ 256) × (self.live ≤ length self.dense.now) }
        ensures { result ≡ slots_fit n self.entry.live self.entry.dense.now }
    {
        let size = record_size(n);
        (0..self.live).all(|i| (self.dense[i] as usize) < size)
    }

    // Check 21: slots and ages, and the pairs that meet. Then the table starts with the ages, in rising order.
    fn can_be_saved(self, points: Points<'_>, ring: &[u16], table: &mut [u32]) -> bool
        requires lent { let n = points.n in
            IsRing n ring.now × Board n (spots points) × (n * (n - 1) ≤ length table.old) }
        requires read { let size = points.n * (points.n - 1) in
            (self.live ≤ size) × (size ≤ length self.dense.now) × (size ≤ length self.ends.now) × (size ≤ length self.ages.now) }
        ensures size { length table.new ≡ length table.old }
        ensures decides { let n = points.entry.n in
            let d = records_of self.entry.live self.entry.dense.now self.entry.ends.now self.entry.ages.now in
            result ≡ (slots_fit n self.entry.live self.entry.dense.now && savable n (spots points.entry) ring.now d) }
        ensures sorted { result ≡ true → Sorted (records_of self.entry.live self.entry.dense.now self.entry.ends.now self.entry.ages.now) (take self.entry.live table.new) }
        ensures reads { result ≡ true → Reads self.entry.live self.entry.dense.now self.entry.ends.now self.entry.ages.now }
    {
        if !self.slots_fit(points.n) {
            return false;
        }
        if !name_exactly(points, ring, self.live, |i| self.edges(i), table) {
            return false;
        }
        sort_ages(table, self.live, |i| self.age(i));
        differ(&table[..self.live])
    }
}

// Writes the image of the run that is lent to the start of `out`, and answers its length. A refused call writes nothing.
pub fn save(
    n: usize,
    x: &[i32],
    y: &[i32],
    ring: &[u16],
    records: Records<'_>,
    out: &mut [u8],
) -> Result<usize, Refusal>
    ensures { Saving n x.now y.now ring.now records.entry.live records.entry.dense.now records.entry.ends.now records.entry.ages.now out.old result out.new }
{
    let short = is_short(n, x, y, ring, records, out);
    let many = false;
    let points = Given {
        n,
        x,
        y,
        short,
        many,
    }
    .check_ring(ring)?;
    let mut table = [0u32; 65280];
    if !records.can_be_saved(points, &ring[..n], &mut table) {
        return Err(Refusal::WrongRecords);
    }
    let sorted = &table[..records.live];
    Ok(write_image(
        out,
        n,
        x,
        y,
        ring,
        records.live,
        |i| records.line(i, sorted),
    ))
}
