// The feed of a loop, metered along its edges.
ghost use Rattle.job.specs.Feed.{Drawn};

use geometry::distance::squared_euclidean_distance;
use geometry::point::{NearPoint, Point};
use integer_root::integer_root;
use polygon::position::next_place;

// A loop that can be told: position i is on point number ring[i], which is lent at x and y and within the limits. Not over `Points`: the points that it does
// not name may be any, and more than 256.
#[derive(Clone, Copy)]
pub struct Loop<'a> {
    pub x: &'a [i32],
    pub y: &'a [i32],
    pub ring: &'a [u16],
    pub ghost drawn: { Drawn x.now y.now ring.now },
}

impl<'a> Loop<'a> {
    ghost use Rattle.std.specs.Prelude.{◌≡◌, ◌<◌, length};
    ghost use Rattle.geometry.specs.Lent.{spot};
    ghost use Rattle.polygon.specs.Ring.{at};
    ghost use Rattle.job.specs.Feed.{edge_feed, feed_of};
    ghost use Rattle.job.specs.Loops.{spots};

    // The point at position i.
    pub fn at(self, i: usize) -> NearPoint
        requires { i < length self.ring.now }
        ensures { spot result.point ≡ spots self.entry (at self.entry.ring.now i) }
    {
        let k = self.ring[i] as usize;
        let point = Point {
            x: self.x[k],
            y: self.y[k],
        };
        NearPoint { point }
    }

    // The edge from position i to the next.
    #[tactic(auto, using(crate::proofs::Feeds::feed_by, crate::proofs::Feeds::feed_small), unfolding(crate::specs::Feed::edge_feed))]
    fn edge(self, i: usize) -> u64
        requires { i < length self.ring.now }
        ensures value { result ≡ edge_feed (spots self.entry) self.entry.ring.now i }
        ensures bound { result < 2828427125 }
    {
        let a = self.at(i);
        let b = self.at(next_place(self.ring.len(), i));
        integer_root(squared_euclidean_distance(a, b))
    }

    // The sum over the edges: of 256 it is below 2⁴⁰.
    #[tactic(auto, using(algebra::specs::Sums::sum_next))]
    pub fn feed(self) -> u64
        ensures { result ≡ feed_of (spots self.entry) self.entry.ring.now }
    {
        let mut sum = 0;
        for i in 0..self.ring.len() {
            sum += self.edge(i);
        }
        sum
    }
}
