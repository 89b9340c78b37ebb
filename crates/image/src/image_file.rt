// An image that is read in place: the numbers of its points, of its ring and of its records.
ghost use Rattle.std.specs.Prelude.{◌≡◌, IfOk};
ghost use Rattle.image.specs.Reading.{image_fault, Within};
ghost use Rattle.refusal.specs.Number.{refused};

use super::header::{Header, accepted_header};
use job::word::word_at;
use refusal::Refusal;

// The bytes of an image that check 20 lets pass, and its header.
#[derive(Clone, Copy)]
pub struct ImageFile<'a> {
    pub bytes: &'a [u8],
    pub header: Header,
    pub ghost within: { Within bytes.now header },
}

impl<'a> ImageFile<'a> {
    ghost use Rattle.std.specs.Prelude.{◌≡◌, ◌+◌, ◌≤◌, ◌<◌, length};
    ghost use Rattle.intersection_set.specs.Pool.{pair, pair_of};
    ghost use Rattle.image.specs.Halves.{half};
    ghost use Rattle.image.specs.Reading.{x_in, y_in, ring_entry, line_start, line_in};

    pub fn new(bytes: &'a [u8]) -> Result<ImageFile<'a>, Refusal>
        ensures number { refused result ≡ image_fault bytes.now }
        ensures same { IfOk result (λ file. file.bytes.now ≡ bytes.now) }
    {
        let header = accepted_header(bytes)?;
        Ok(ImageFile { bytes, header })
    }

    // The coordinates of point i, in steps.
    pub fn x_at(self, i: usize) -> i32
        requires { i < self.header.points }
        ensures { result ≡ x_in self.entry.bytes.now i }
    {
        word_at(self.bytes, self.header.point_start + 8 * i).cast_signed()
    }

    pub fn y_at(self, i: usize) -> i32
        requires { i < self.header.points }
        ensures { result ≡ y_in self.entry.bytes.now i }
    {
        word_at(self.bytes, self.header.point_start + 4 + 8 * i).cast_signed()
    }

    // The 16-bit word at byte k.
    #[tactic(auto, unfolding(crate::specs::Halves::half))]
    fn half_at(self, k: usize) -> u16
        requires { k + 2 ≤ length self.bytes.now }
        ensures { result ≡ half self.entry.bytes.now k }
    {
        u16::from_le_bytes([self.bytes[k], self.bytes[k + 1]])
    }

    // The number of the point at position i of the ring.
    pub fn ring_at(self, i: usize) -> u16
        requires { i < self.header.points }
        ensures { result ≡ ring_entry self.entry.bytes.now i }
    {
        self.half_at(self.header.ring_start + 2 * i)
    }

    // Where record i starts: its edges take 8 bytes, and at width 12 its age the 4 behind them.
    fn line_start(self, i: usize) -> usize
        requires { i < self.header.records }
        ensures start { result ≡ line_start self.entry.bytes.now i }
        ensures ends { result + 8 ≤ length self.entry.bytes.now }
        ensures age { self.entry.header.width ≡ 12 → result + 12 ≤ length self.entry.bytes.now }
    {
        self.header.record_start + self.header.width * i
    }

    // The edges of record i, as they stand in the first word of a record of the pool.
    #[tactic(auto, unfolding(intersection_set::specs::Pool::pair_of))]
    pub fn ends_at(self, i: usize) -> u64
        requires { i < self.header.records }
        ensures { let line = line_in self.entry.bytes.now i in pair_of result ≡ pair line.e0 line.e1 }
    {
        let k = self.line_start(i);
        let e0 = self.half_at(k) as u64 + self.half_at(k + 2) as u64 * 65536;
        let e1 = self.half_at(k + 4) as u64 + self.half_at(k + 6) as u64 * 65536;
        e0 + e1 * 4294967296
    }

    // The age of record i: at width 8 its place.
    #[tactic(auto, unfolding(crate::specs::Reading::age_in))]
    pub fn age_at(self, i: usize) -> u32
        requires { i < self.header.records }
        ensures { result ≡ (line_in self.entry.bytes.now i).age }
    {
        let k = self.line_start(i);
        if self.header.width == 12 {
            word_at(self.bytes, k + 8)
        } else {
            i as u32
        }
    }
}
