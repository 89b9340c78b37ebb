// An image is written: the header, the points, the ring, the records.
ghost use Rattle.std.specs.Prelude.{◌≡◌, ◌+◌, ◌*◌, ◌^◌, ◌≤◌, ◌<◌, ℕ, map, length, take};
ghost use Rattle.algebra.specs.Ranges.{up_from};
ghost use Rattle.job.specs.Buffers.{put};
ghost use Rattle.job.specs.Writing.{Wrote, HasRoom};
ghost use Rattle.resume.specs.Image.{Line};
ghost use Rattle.image.specs.Halves.{half_bytes, halves_of};
ghost use Rattle.image.specs.Bytes.{image_length, image_header, line_bytes, lines_bytes, line_of_word, frame_bytes, image_bytes, image_by};

use job::encoder::put_pairs;
use job::writer::Writer;

// The seven words of an image of n points and `count` records.
#[tactic(auto, unfolding(crate::specs::Bytes::image_header))]
fn header(n: u32, count: u32) -> [u32; 7]
    requires { image_length n count < 2 ^ 32 }
    ensures { result ≡ image_header n count }
{
    let records = 28 + 10 * n;
    [n, 28, 28 + 8 * n, count, records, 12, records + 12 * count]
}

// A 16-bit word.
#[tactic(auto, using(crate::proofs::Halves::le_half))]
fn put_half(w: &mut Writer, v: u16)
    requires { HasRoom w.old 2 }
    ensures { Wrote w.old w.new (half_bytes v) }
{
    w.text(&v.to_le_bytes());
}

// The ring.
pub fn put_ring(w: &mut Writer, ring: &[u16])
    requires { HasRoom w.old (2 * length ring.now) }
    ensures { Wrote w.old w.new (halves_of ring.now) }
{
    for v in ring {
        put_half(w, *v);
    }
}

// A record: the word of its edges, as the pool has it, has their point numbers in the order of the image.
#[tactic(auto, using(job::proofs::Writing::wrote_then, crate::proofs::Lines::le_line))]
pub fn put_line(w: &mut Writer, ends: u64, age: u32)
    requires { HasRoom w.old 12 }
    ensures { Wrote w.old w.new (line_bytes (line_of_word ends age)) }
{
    w.text(&ends.to_le_bytes());
    w.words(&[age]);
}

// The records, by number.
fn put_lines<L: Fn(usize) -> (u64, u32)>(w: &mut Writer, count: usize, line: L)
    ghost entry: { ℕ → Line }
    requires room { HasRoom w.old (12 * count) }
    requires can { (i : ℕ) → i < count → L.pre line i }
    requires gives { (i : ℕ) (r : _) → i < count → L.post line i r → line_of_word r.0 r.1 ≡ entry i }
    ensures { Wrote w.old w.new (lines_bytes (map entry (up_from 0 count))) }
{
    for i in 0..count {
        let (ends, age) = line(i);
        put_line(w, ends, age);
    }
}

// All that stands before the records.
fn put_frame(w: &mut Writer, n: usize, x: &[i32], y: &[i32], ring: &[u16], count: usize)
    requires room { HasRoom w.old (28 + 10 * n) × (image_length n count < 2 ^ 32) }
    requires lent { (n ≤ length x.now) × (n ≤ length y.now) × (n ≤ length ring.now) }
    ensures { Wrote w.old w.new (frame_bytes n x.now y.now (take n ring.now) count) }
{
    w.words(&header(n as u32, count as u32));
    put_pairs(w, &x[..n], &y[..n]);
    put_ring(w, &ring[..n]);
}

// Writes the image of the first n points, the first n entries of the ring and `count` records to the start of `out`, and answers its length.
pub fn write_image<L: Fn(usize) -> (u64, u32)>(
    out: &mut [u8],
    n: usize,
    x: &[i32],
    y: &[i32],
    ring: &[u16],
    count: usize,
    line: L,
) -> usize
    ghost entry: { ℕ → Line }
    requires room { (image_length n count ≤ length out.old) × (image_length n count < 2 ^ 32) }
    requires lent { (n ≤ length x.now) × (n ≤ length y.now) × (n ≤ length ring.now) }
    requires can { (i : ℕ) → i < count → L.pre line i }
    requires gives { (i : ℕ) (r : _) → i < count → L.post line i r → line_of_word r.0 r.1 ≡ entry i }
    ensures length { result ≡ image_length n count }
    ensures bytes { out.new ≡ put out.old 0 (image_bytes n x.now y.now (image_by n ring.now count entry)) }
{
    let mut w = Writer::new(out);
    put_frame(&mut w, n, x, y, ring, count);
    put_lines(&mut w, count, line);
    w.at()
}
