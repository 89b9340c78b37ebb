// A row of bytes in 64 bits: the hash of Fowler, Noll and Vo, FNV-1a.
use std::fmt;

#[derive(Clone, Copy, Drop)]
pub struct Hash(u64);

impl Hash {
    pub fn new() -> Hash {
        Hash(0xcbf29ce484222325)
    }

    // The hash of the bytes behind those that were hashed.
    pub fn then(self, bytes: &[u8]) -> Hash {
        let mut hash = self.0;
        for byte in bytes {
            hash = (hash ^ *byte as u64).wrapping_mul(0x100000001b3);
        }
        Hash(hash)
    }
}

impl fmt::Display for Hash {
    fn fmt<W: fmt::Write>(&self, f: &mut fmt::Formatter<W>) -> fmt::Result {
        let hash = self.0;
        write!(f, "{hash:016x}")
    }
}
