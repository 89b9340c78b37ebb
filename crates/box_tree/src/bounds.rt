// Boxes with sides along the axes.
ghost use Rattle.std.specs.Prelude.{◌≡◌, ◌≤◌, ◌++◌, length, drop};
ghost use Rattle.geometry.specs.Lent.{spot};
ghost use Rattle.box_tree.specs.Boxes.{span, unite, share};
ghost use Rattle.box_tree.specs.Tree.{four, read_box};

use geometry::point::Point;
use std::marker::Model;
use std::simd::prelude::*;

// Least x, least y, greatest x, greatest y, as the four lanes of one vector.
#[derive(Clone, Copy, Debug, PartialEq, Eq)]
pub struct Bounds {
    lanes: i32x4,
}

impl Model for Bounds {
    ghost use Rattle.box_tree.specs.Boxes.{Bounds};
    ghost use Rattle.box_tree.specs.Tree.{four, read_box};
    ghost use Rattle.box_tree.specs.Lanes.{Lanes};

    ghost Value = { Bounds };

    ghost view = { λ b. read_box b.lanes };

    ghost invariant = { λ b. Lanes b.lanes };

    ghost inverse = { λ b. record { lanes = four b } };

    ghost inverse_ok = { λ b h i. record { lanes = h.whole i } };
}

impl Bounds {
    // The box of a segment.
    pub fn new(a: Point, b: Point) -> Bounds
        ensures { result ≡ span (spot a) (spot b) }
    {
        let first = i32x4::from_array([a.x, a.y, a.x, a.y]);
        let second = i32x4::from_array([b.x, b.y, b.x, b.y]);
        Bounds { lanes: first }.union(Bounds { lanes: second })
    }

    // The least box around two.
    pub fn union(self, other: Bounds) -> Bounds
        ensures { result ≡ unite self other }
    {
        let least = self.lanes.simd_min(other.lanes);
        let greatest = self.lanes.simd_max(other.lanes);
        Bounds {
            lanes: least.shuffle(greatest, [0, 1, 6, 7]),
        }
    }

    // Two boxes share a place: no lower side of either is above the upper side of the other. No part of the test is a branch.
    pub fn shares(self, other: Bounds) -> bool
        ensures { result ≡ share self other }
    {
        let from = other.lanes.shuffle(self.lanes, [0, 1, 4, 5]);
        let to = self.lanes.shuffle(other.lanes, [2, 3, 6, 7]);
        from.simd_gt(to).to_bitmask() == 0
    }

    // The box in front of a buffer.
    pub fn read(tree: &[i32]) -> Bounds
        requires { 4 ≤ length tree.now }
        ensures { result ≡ read_box tree.now }
    {
        Bounds {
            lanes: i32x4::from_array([tree[0], tree[1], tree[2], tree[3]]),
        }
    }

    pub fn write(self, tree: &mut [i32])
        requires { 4 ≤ length tree.old }
        ensures { tree.new ≡ four self ++ drop 4 tree.old }
    {
        self.lanes.copy_to_slice(tree);
    }
}
