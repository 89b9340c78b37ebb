// The header of an image: seven words.
ghost use Rattle.std.specs.Prelude.{◌≡◌, true, ◌+◌, ◌*◌, ◌^◌, ◌≤◌, ◌<◌, length, IfOk, OnOk};
ghost use Rattle.image.specs.Reading.{outside, known_width, decide_image, image_fault, Within};
ghost use Rattle.refusal.specs.Number.{refused};

use job::word::word_at;
use refusal::Refusal;

// The words, in their order.
#[derive(Clone, Copy)]
pub struct Header {
    pub points: usize,
    pub point_start: usize,
    pub ring_start: usize,
    pub records: usize,
    pub record_start: usize,
    pub width: usize,
    pub total: usize,
}

// An area starts before byte 28, or ends past the total. Start and size come from words of 32 bits, so their sum in 64 does not wrap.
#[tactic(auto, unfolding(crate::specs::Reading::outside))]
fn is_outside(start: usize, size: usize, total: usize) -> bool
    requires { start + size < 2 ^ 64 }
    ensures { result ≡ outside start size total }
{
    start < 28 || total < start + size
}

impl Header {
    // Check 20, of an image that has all seven words.
    #[tactic(auto, unfolding(crate::specs::Reading::decide_image, crate::specs::Reading::outside))]
    fn check(self, len: usize) -> Result<(), Refusal>
        requires length { 28 ≤ len }
        requires points { (self.points < 2 ^ 32) × (self.point_start < 2 ^ 32) × (self.ring_start < 2 ^ 32) }
        requires records { (self.records < 2 ^ 32) × (self.record_start < 2 ^ 32) }
        ensures number { refused result
            ≡ decide_image len self.points self.point_start self.ring_start self.records self.record_start self.width self.total }
        ensures points { OnOk result ((self.point_start + 8 * self.points ≤ len) × (self.ring_start + 2 * self.points ≤ len)) }
        ensures records { OnOk result (self.record_start + self.width * self.records ≤ len) }
        ensures width { OnOk result (known_width self.width ≡ true) }
    {
        if self.total != len || self.width != 8 && self.width != 12 {
            return Err(Refusal::ImageFile);
        }
        if is_outside(self.point_start, 8 * self.points, len)
            || is_outside(self.ring_start, 2 * self.points, len)
            || is_outside(self.record_start, self.width * self.records, len)
        {
            return Err(Refusal::ImageFile);
        }
        Ok(())
    }
}

// The header of an image that check 20 lets pass.
pub fn accepted_header(image: &[u8]) -> Result<Header, Refusal>
    ensures number { refused result ≡ image_fault image.now }
    ensures within { IfOk result (λ h. Within image.now h) }
{
    if image.len() < 28 {
        return Err(Refusal::ImageFile);
    }
    let header = Header {
        points: word_at(image, 0) as usize,
        point_start: word_at(image, 4) as usize,
        ring_start: word_at(image, 8) as usize,
        records: word_at(image, 12) as usize,
        record_start: word_at(image, 16) as usize,
        width: word_at(image, 20) as usize,
        total: word_at(image, 24) as usize,
    };
    header.check(image.len())?;
    Ok(header)
}
