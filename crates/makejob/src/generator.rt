// The generator by which `picks SEED COUNT` draws.
ghost use Rattle.std.specs.Prelude.{◌≡◌, ◌++◌, ◌+◌, ◌≤◌, map};
ghost use Rattle.algebra.specs.Ranges.{up_from};
ghost use Rattle.arrayvec.specs.ArrayVec.{array_vec_len};
ghost use Rattle.makejob.specs.Drawn.{next_state, rotated, drawn};

use arrayvec::ArrayVec;

// One step of the generator.
fn next_state(s: u32) -> u32
    ensures { result ≡ next_state s }
{
    s.wrapping_mul(1664525).wrapping_add(1013904223)
}

#[tactic(auto, using(crate::proofs::Rotated::rotated_is))]
fn rotate(s: u32) -> u32
    ensures { result ≡ rotated s }
{
    s.rotate_right(16)
}

// Appends `count` picks.
pub fn draw(seed: u32, count: usize, picks: &mut ArrayVec<u32, 4096>)
    requires { array_vec_len picks.old + count ≤ 4096 }
    ensures items { picks.new.items ≡ picks.old.items ++ map (drawn seed) (up_from 0 count) }
    ensures len { array_vec_len picks.new ≡ array_vec_len picks.old + count }
{
    let mut s = seed;
    for _ in 0..count {
        s = next_state(s);
        picks.push(rotate(s));
    }
}
