// The feed of a loop for hosts.
ghost use Rattle.std.specs.Prelude.{◌≡◌, Result};
ghost use Rattle.refusal.specs.declared.Refusal.{Refusal};
ghost use Rattle.geometry.specs.Answers.{told};
ghost use Rattle.host.specs.Numbers.{fed, feed_in_numbers};

use checks::accept::Given;
use job::feed::Loop;
use refusal::Refusal;

// Code 0 with the feed, else the number of the refusal and no feed.
#[repr(C)]
#[derive(Clone, Copy)]
pub struct TourFeed {
    pub code: u32,
    pub feed: u64,
}

impl From<Result<u64, Refusal>> for TourFeed {
    ghost from_gives = { λ feed given. given ≡ feed_in_numbers (told feed) };

    fn from(feed: Result<u64, Refusal>) -> TourFeed {
        match feed {
            Ok(feed) => TourFeed { code: 0, feed },
            Err(refusal) => TourFeed {
                code: refusal.number() as u32,
                feed: 0,
            },
        }
    }
}

fn feed(n: usize, x: &[i32], y: &[i32], ring: &[u16]) -> Result<u64, Refusal>
    ensures { told result ≡ fed n x.now y.now ring.now }
{
    Given::with_ring(n, x, y, ring).first_four(ring)?;
    let ring = &ring[..n];
    Ok(Loop { x, y, ring }.feed())
}

// The feed of the loop that the ring's first n entries name.
#[unsafe(no_mangle)]
pub extern "C" fn tour_feed(n: usize, x: &[i32], y: &[i32], ring: &[u16]) -> TourFeed
    ensures { result ≡ feed_in_numbers (fed n x.now y.now ring.now) }
{
    feed(n, x, y, ring).into()
}
