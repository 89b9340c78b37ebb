// The edges of a loop that meet one of them, for hosts.
ghost use Rattle.std.specs.Prelude.{◌≡◌, ◌≤◌, ◌<◌, ◌++◌, length, drop, Result};
ghost use Rattle.geometry.specs.Spots.{spots};
ghost use Rattle.polygon.specs.Ring.{IsRing};
ghost use Rattle.machine.specs.Board.{Board};
ghost use Rattle.box_tree.specs.Tree.{ring_tree, tree_size};
ghost use Rattle.refusal.specs.declared.Refusal.{Refusal};
ghost use Rattle.sweeps.specs.declared.query.Contacts.{Contacts};
ghost use Rattle.host.specs.Query.{meeting, tests_at, query_short, queried, tree_after, found_after, query_in_numbers};

use box_tree::tree::{build, too_short as tree_too_short, tree_size};
use checks::accept::{Given, too_short};
use geometry::lent::Points;
use polygon::position::{Position, PositionId};
use refusal::Refusal;
use sweeps::edges::edge_at;
use sweeps::query::{Contacts, query};

// Code 0 with how many edges were found and how many were tested, else the number of the refusal and neither.
#[repr(C)]
#[derive(Clone, Copy)]
pub struct TourQueried {
    pub code: u32,
    pub count: usize,
    pub tested: usize,
}

impl From<Result<Contacts, Refusal>> for TourQueried {
    ghost from_gives = { λ done given. given ≡ query_in_numbers done };

    fn from(done: Result<Contacts, Refusal>) -> TourQueried {
        match done {
            Ok(Contacts { count, tested }) => TourQueried {
                code: 0,
                count,
                tested,
            },
            Err(refusal) => TourQueried {
                code: refusal.number() as u32,
                count: 0,
                tested: 0,
            },
        }
    }
}

// The tree of the ring, and by it the edges that meet the one at a position: only so many entries are written as there are of them.
fn contacts_at(
    points: Points<'_>,
    ring: &[u16],
    tree: &mut [i32],
    position: PositionId,
    found: &mut [u16],
) -> Contacts
    requires { let n = points.n in
        IsRing n ring.now × Board n (spots points) × (length tree.old ≡ tree_size n) × (position.0 < n) × (n ≤ length found.old) }
    ensures tree { tree.new ≡ ring_tree points.entry.n (spots points.entry) ring.now }
    ensures found { let l = meeting points.entry.n (spots points.entry) ring.now position.0 in
        found.new ≡ l ++ drop (length l) found.old }
    ensures count { result.count ≡ length (meeting points.entry.n (spots points.entry) ring.now position.0) }
    ensures tested { result.tested ≡ tests_at points.entry.n (spots points.entry) ring.now position.0 }
{
    build(points, ring, tree);
    let here = Position {
        id: position,
        size: points.size(),
    };
    let mut places = [0u16; 256];
    let done = query(points, ring, tree, edge_at(ring, here), &mut places);
    let count = done.count;
    found[..count].copy_from_slice(&places[..count]);
    done
}

// Check 2. No edge starts at a position of n or more: for that the ring is too short.
fn is_short(
    n: usize,
    x: &[i32],
    y: &[i32],
    ring: &[u16],
    tree: &[i32],
    position: usize,
    found: &[u16],
) -> bool
    ensures { n ≤ 256 → result ≡ query_short n x.now y.now ring.now tree.now position found.now }
{
    let of_points = [x.len(), y.len(), ring.len(), found.len()];
    too_short(n, &of_points, &[]) || tree_too_short(n, tree) || n <= position
}

// Checks 1 to 7, as of a loop that starts from this ring, and what was asked.
fn contacts(
    n: usize,
    x: &[i32],
    y: &[i32],
    ring: &[u16],
    tree: &mut [i32],
    position: usize,
    found: &mut [u16],
) -> Result<Contacts, Refusal>
    ensures answer { query_in_numbers result ≡ queried n x.now y.now ring.now tree.old position found.old }
    ensures tree { tree.new ≡ tree_after n x.now y.now ring.now tree.old position found.old }
    ensures found { found.new ≡ found_after n x.now y.now ring.now tree.old position found.old }
{
    let short = is_short(n, x, y, ring, tree, position, found);
    let many = false;
    let given = Given {
        n,
        x,
        y,
        short,
        many,
    };
    let points = given.check_ring(ring)?;
    let position = PositionId(position as u16);
    Ok(contacts_at(
        points,
        &ring[..n],
        &mut tree[..tree_size(n)],
        position,
        found,
    ))
}

// The positions of the edges that meet the one at a position, by the tree of the ring, which is left in `tree` whatever that held.
#[unsafe(no_mangle)]
pub extern "C" fn tour_query(
    n: usize,
    x: &[i32],
    y: &[i32],
    ring: &[u16],
    tree: &mut [i32],
    position: usize,
    found: &mut [u16],
) -> TourQueried
    ensures answer { result ≡ queried n x.now y.now ring.now tree.old position found.old }
    ensures tree { tree.new ≡ tree_after n x.now y.now ring.now tree.old position found.old }
    ensures found { found.new ≡ found_after n x.now y.now ring.now tree.old position found.old }
{
    contacts(n, x, y, ring, tree, position, found).into()
}
