// The public entry. It checks for itself what it is given, and reads only.
ghost use Rattle.std.specs.Prelude.{◌≡◌};
ghost use Rattle.validate.specs.Drawn.{validated, check_of};

use super::contact::check_contact;
use checks::accept::Given;
use checks::start::is_counter_clockwise;
use refusal::Refusal;

// Whether the loop that the first n entries of the ring name passes: the checks 1 to 6, then its turn, then contact.
pub fn validate(n: usize, x: &[i32], y: &[i32], ring: &[u16]) -> Result<(), Refusal>
    ensures { check_of result ≡ validated n x.now y.now ring.now }
{
    let points = Given::with_ring(n, x, y, ring).first_six(ring)?;
    let ring = &ring[..n];
    if !is_counter_clockwise(points, ring) {
        return Err(Refusal::NotCounterClockwise);
    }
    check_contact(points, ring)
}
