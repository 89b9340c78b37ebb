// The text of an answer, line by line.
use refusal::Refusal;
use std::io::{self, Write};
use two_opt::entries::Delivered;

// The most points with which the tree is printed: with more the stored answers would grow large.
const SMALL: usize = 24;

// `ring A B ..`
fn write_ring<W: Write>(out: &mut W, ring: &[u16]) -> io::Result<()> {
    write!(out, "ring")?;
    for point in ring {
        write!(out, " {point}")?;
    }
    writeln!(out)
}

// The four point numbers of a record, which stand in one word. Read by its bytes, not as the library unpacks it, which is on trial here.
fn points_of(ends: u64) -> [u16; 4] {
    let [a0, a1, b0, b1, c0, c1, d0, d1] = ends.to_le_bytes();
    [
        u16::from_le_bytes([a0, a1]),
        u16::from_le_bytes([b0, b1]),
        u16::from_le_bytes([c0, c1]),
        u16::from_le_bytes([d0, d1]),
    ]
}

// `record A B C D` for the record in each slot.
fn write_records<W: Write>(out: &mut W, slots: &[u16], ends: &[u64]) -> io::Result<()> {
    for slot in slots {
        if let Some(word) = ends.get(*slot as usize) {
            let [a, b, c, d] = points_of(*word);
            writeln!(out, "record {a} {b} {c} {d}")?;
        }
    }
    Ok(())
}

// `ages A B ..`, for the record in each slot.
fn write_ages<W: Write>(out: &mut W, slots: &[u16], ages: &[u32]) -> io::Result<()> {
    write!(out, "ages")?;
    for slot in slots {
        if let Some(age) = ages.get(*slot as usize) {
            write!(out, " {age}")?;
        }
    }
    writeln!(out)
}

// `tangles A B ..`, of each edge of the ring how many records name it: it stands at max + n×min.
fn write_tangles<W: Write>(out: &mut W, ring: &[u16], tangles: &[u16]) -> io::Result<()> {
    write!(out, "tangles")?;
    let ends = ring.iter().cycle().skip(1);
    for (start, end) in ring.iter().zip(ends) {
        let row = ring.len().wrapping_mul(*start.min(end) as usize);
        if let Some(count) = tangles.get(row.wrapping_add(*start.max(end) as usize)) {
            write!(out, " {count}")?;
        }
    }
    writeln!(out)
}

// `tree A B ..`, the four numbers of each of the 2n-1 boxes, for a small n. Counted here, not as the library counts them, which is on trial.
fn write_tree<W: Write>(out: &mut W, n: usize, tree: &[i32]) -> io::Result<()> {
    if SMALL < n {
        return Ok(());
    }
    write!(out, "tree")?;
    for number in tree.iter().take(4 * (2 * n).saturating_sub(1)) {
        write!(out, " {number}")?;
    }
    writeln!(out)
}

// What an entry answered, with the ring and the records left, their ages, the counts by edge and the tree.
pub fn write_answer<W: Write>(
    out: &mut W,
    done: Result<Delivered, Refusal>,
    ring: &[u16],
    dense: &[u16],
    ends: &[u64],
    ages: &[u32],
    tangles: &[u16],
    tree: &[i32],
) -> io::Result<()> {
    match done {
        Ok(Delivered { moves, cross }) => {
            writeln!(out, "ok moves {moves} cross {cross}")?;
            write_ring(out, ring)?;
            write_tree(out, ring.len(), tree)
        }
        Err(refusal @ Refusal::PicksUsedUp { moves, left }) => {
            writeln!(
                out,
                "refused {} moves {moves} left {left}",
                refusal.number()
            )?;
            write_ring(out, ring)?;
            let slots = &dense[..left.min(dense.len())];
            write_records(out, slots, ends)?;
            write_ages(out, slots, ages)?;
            write_tangles(out, ring, tangles)?;
            write_tree(out, ring.len(), tree)
        }
        Err(refusal) => writeln!(out, "refused {}", refusal.number()),
    }
}
