// Where a ring is wrong, for hosts.
ghost use Rattle.std.specs.Prelude.{◌≡◌, Option, Result};
ghost use Rattle.refusal.specs.declared.Refusal.{Refusal};
ghost use Rattle.polygon.specs.declared.position.PositionId.{PositionId};
ghost use Rattle.host.specs.Numbers.{found, ring_fault, fault_in_numbers};

use polygon::polygon::first_fault;
use polygon::position::PositionId;
use refusal::Refusal;

// Code 0 where each point is named once, 4 with the position of the first entry at fault, else the number of the refusal and no position.
#[repr(C)]
#[derive(Clone, Copy)]
pub struct TourFault {
    pub code: u32,
    pub position: usize,
}

impl From<Result<Option<PositionId>, Refusal>> for TourFault {
    ghost from_gives = { λ fault given. given ≡ fault_in_numbers (found fault) };

    fn from(fault: Result<Option<PositionId>, Refusal>) -> TourFault {
        match fault {
            Ok(Some(position)) => TourFault {
                code: Refusal::NoRing.number() as u32,
                position: position.0 as usize,
            },
            Ok(None) => TourFault {
                code: 0,
                position: 0,
            },
            Err(refusal) => TourFault {
                code: refusal.number() as u32,
                position: 0,
            },
        }
    }
}

fn ring_fault(n: usize, ring: &[u16]) -> Result<Option<PositionId>, Refusal>
    ensures { found result ≡ ring_fault n ring.now }
{
    if 256 < n {
        return Err(Refusal::ManyPoints);
    }
    if ring.len() < n {
        return Err(Refusal::ShortBuffer);
    }
    Ok(first_fault(&ring[..n]))
}

// Which of the ring's first n entries is wrong.
#[unsafe(no_mangle)]
pub extern "C" fn tour_ring_fault(n: usize, ring: &[u16]) -> TourFault
    ensures { result ≡ fault_in_numbers (ring_fault n ring.now) }
{
    ring_fault(n, ring).into()
}
