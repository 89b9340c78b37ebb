// Exact plane geometry over 32-bit coordinates: orientation, what a segment contains, how two segments meet, and how far apart two points are.
//
// The entries `orient`, `contains`, `contact` and `meets` check what they are given and refuse what is out of range. The other functions do not
// check: they are for hot loops over points that are known to be within the limits, most of them as `NearPoint`s.
#![tactic(auto)]

pub mod distance;
pub mod lent;
pub mod line_segment;
pub mod orientation;
pub mod point;
