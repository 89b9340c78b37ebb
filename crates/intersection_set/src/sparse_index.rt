// The number of a slot, and how it stands in a lent buffer of 16-bit words, where there may be none.
ghost use Rattle.std.specs.Prelude.{◌≡◌, ◌<◌};

// What stands in a buffer where there is no slot.
pub const NONE: u16 = 65535;

// It is taken apart only where a slice is indexed or filled. A tuple struct has no ghost field: that a slot is not NONE is the clause `Slot`.
#[derive(Clone, Copy)]
pub struct SparseIndex(pub u16);

impl SparseIndex {
    ghost use Rattle.intersection_set.specs.Stored.{stored as stored_as, Slot};

    // As it is stored, or none.
    pub fn stored(slot: Option<SparseIndex>) -> u16
        ensures { result ≡ stored_as slot }
    {
        slot.map_or(NONE, |s| s.0)
    }

    // What a stored word says.
    pub fn read(word: u16) -> Option<SparseIndex>
        ensures { (stored_as result ≡ word) × Slot result }
    {
        (word != NONE).then_some(SparseIndex(word))
    }
}
