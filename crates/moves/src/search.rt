// The search of a hoist (two_opt.rs, in `untangle`): of the edges of two runs, in order, the first that holds a kink of them, and the first such kink.
//
// The original collects the kinks, and goes from edge to edge, for each over all of them. Here each point is asked once whether it is a kink, and is then
// looked for only among the edges that come before the best one so far: an edge that comes later can be no answer.
ghost use Rattle.std.specs.Prelude.{◌≡◌, ◌≤◌, ◌<◌};
ghost use Rattle.machine.specs.Board.{Board};
ghost use Rattle.machine.specs.Search.{search_edges, kink_and_edge};
ghost use Rattle.moves.specs.Walk.{ring_of, place_of, point_of, On};
ghost use Rattle.moves.specs.Runs.{RunIn, points_of, edges_of, run_points, run_edges};
ghost use Rattle.moves.specs.Best.{mergable_of, better, over_kinks};
ghost use Rattle.moves.specs.Beside.{Starts, Beside};

use super::extremes::{Run, distance, linear_extremes};
use super::kink::Kink;
use super::vertex::Vertex;
use geometry::line_segment::is_inside;
use polygon::position::{Position, PositionId};

// What the search finds: the position of a kink, and that of the edge that holds it strictly inside.
#[derive(Clone, Copy, Debug, PartialEq, Eq)]
pub struct Mergable {
    pub kink: PositionId,
    pub edge: PositionId,
}

// The best pair so far, and how many edges of both runs come before its edge: all of them while nothing is found.
#[derive(Clone, Copy, Debug, PartialEq, Eq)]
pub struct Best {
    pub passed: u16,
    pub found: Option<Mergable>,
}

// An edge of a run: where it starts, and how many edges of both runs come before it.
#[derive(Clone, Copy, Debug, PartialEq, Eq)]
pub struct RunEdge {
    pub at: Position,
    pub passed: u16,
}

// Passes over the edges whose ends lie on one side of the kink in point order, up to `end`: none of them holds it. `below` tells on which side the first starts.
fn pass_beside(kink: Kink<'_>, below: bool, start: RunEdge, end: u16) -> RunEdge
    requires { Starts kink.vertex below start.at × (start.passed ≤ end) }
    ensures { Beside kink.entry.vertex below end start result }
{
    let mut at = start.at;
    for passed in start.passed..end {
        let next = at.next();
        if kink.is_above(kink.vertex.at(next)) != below {
            return RunEdge { at, passed };
        }
        at = next;
    }
    RunEdge { at, passed: end }
}

// The kink with the first edge of a run that holds it, if that comes before the best edge so far. `before` edges come before the run. A turn of the loop goes
// from one side of the kink to the other, past as many edges as lie there.
#[inline(always)] // a call for each kink: a row takes 2 to 3 % more without
fn better_on_run(kink: Kink<'_>, run: Run, before: u16, best: Best) -> Best
    requires { RunIn kink.vertex.points.n run × (before < kink.vertex.points.n) }
    ensures { result ≡ better kink.entry.vertex.points.n (point_of kink.entry.vertex) (ring_of kink.entry.vertex) (place_of kink.entry.vertex) before (edges_of kink.entry.vertex.points.n run) best }
{
    let end = best.passed.min(before + run.edges);
    let mut below = kink.is_above(kink.vertex.at(run.from));
    let mut edge = RunEdge {
        at: run.from,
        passed: before,
    };
    while edge.passed < end {
        let across = pass_beside(kink, below, edge, end);
        if end <= across.passed {
            return best;
        }
        if kink.vertex.at(across.at).holds(kink.point) {
            let found = Mergable {
                kink: kink.vertex.cursor.position.id,
                edge: across.at.id,
            };
            return Best {
                passed: across.passed,
                found: Some(found),
            };
        }
        edge = RunEdge {
            at: across.at.next(),
            passed: across.passed + 1,
        };
        below = !below;
    }
    best
}

// The best pair with one kink more. The two runs are no struct: that both are on the vertex's ring would need the vertex in it.
fn with_kink(vertex: Vertex<'_>, a: Run, b: Run, best: Best) -> Best
    requires { RunIn vertex.points.n a × RunIn vertex.points.n b }
    ensures { result ≡ better vertex.entry.points.n (point_of vertex.entry) (ring_of vertex.entry) (place_of vertex.entry) 0 (run_edges vertex.entry.points.n a b) best }
{
    let kink = Kink::new(vertex);
    let of_a = better_on_run(kink, a, 0, best);
    // No edge of the second run comes before one of the first.
    if of_a.passed <= a.edges {
        return of_a;
    }
    better_on_run(kink, b, a.edges, of_a)
}

// The best pair with all points of a run, its end included. `on` stands somewhere on the ring.
fn with_run(on: Vertex<'_>, run: Run, a: Run, b: Run, start: Best) -> Best
    requires { RunIn on.points.n run × RunIn on.points.n a × RunIn on.points.n b }
    ensures { result ≡ over_kinks on.entry.points.n (point_of on.entry) (ring_of on.entry) (run_edges on.entry.points.n a b) (points_of on.entry.points.n run) start }
{
    let mut best = start;
    let mut at = on.at(run.from);
    let mut before = at.prev().point();
    let mut here = at.point();
    for _ in 0..run.edges + 1 {
        // No pair is better than one of the first edge.
        if best.passed == 0 {
            return best;
        }
        let next = at.next();
        let after = next.point();
        // A kink would shorten the loop if it were taken out: a corner or a turning back. It is not strictly between its neighbours on a line.
        if !is_inside(before, after, here) {
            best = with_kink(at, a, b, best);
        }
        before = here;
        here = after;
        at = next;
    }
    best
}

// The search of one run.
fn search_run(on: Vertex<'_>, run: Run) -> Option<Mergable>
    requires { RunIn on.points.n run }
    ensures { mergable_of result ≡ search_edges on.entry.points.n (point_of on.entry) (ring_of on.entry) (points_of on.entry.points.n run) (edges_of on.entry.points.n run) }
{
    let no_edges = Run {
        from: run.from,
        edges: 0,
    };
    let unfound = Best {
        passed: run.edges,
        found: None,
    };
    with_run(on, run, run, no_edges, unfound).found
}

// The search of two runs.
fn search_runs(on: Vertex<'_>, a: Run, b: Run) -> Option<Mergable>
    requires { RunIn on.points.n a × RunIn on.points.n b }
    ensures { mergable_of result ≡ search_edges on.entry.points.n (point_of on.entry) (ring_of on.entry) (run_points on.entry.points.n a b) (run_edges on.entry.points.n a b) }
{
    let unfound = Best {
        passed: a.edges + b.edges,
        found: None,
    };
    let of_a = with_run(on, a, a, b, unfound);
    with_run(on, b, a, b, of_a).found
}

// The search for the edges that start at a vertex and at another position. Where the second lies on the first one's run there is only that to search.
pub fn kink_and_edge(da: Vertex<'_>, db: Position) -> Option<Mergable>
    requires { On da db × Board da.points.n (point_of da) }
    ensures { mergable_of result ≡ kink_and_edge da.entry.points.n (point_of da.entry) (ring_of da.entry) (place_of da.entry) db.id.0 }
{
    let a = linear_extremes(da);
    if distance(a.from, db) < a.edges {
        return search_run(da, a);
    }
    let b = linear_extremes(da.at(db));
    search_runs(da, a, b)
}
