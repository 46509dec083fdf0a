//! The part that a key belongs to: its hash, which begins at 1 and with each byte becomes 31 times
//! itself plus the byte, modulo 2^32, and of the low 31 bits of it the remainder by the number of
//! parts.
#![tactic(auto)]

ghost use Rattle.std.specs.Prelude.{◌≡◌, ◌≤◌, ◌<◌};
ghost use Rattle.partition.specs.Hash.{hash_of, part_among};

/// The low 31 bits of a hash.
const MASK: u32 = 0x7fff_ffff;

/// The hash of a key.
pub fn hash(key: &[u8]) -> u32
    ensures { result ≡ hash_of key.now }
{
    let mut hash = 1u32;
    for byte in key {
        hash = hash.wrapping_mul(31).wrapping_add(u32::from(*byte));
    }
    hash
}

/// The part of a key among `reducers` parts, from 0.
pub fn part_of(key: &[u8], reducers: u32) -> u32
    requires { 1 ≤ reducers }
    ensures exact { result ≡ part_among key.now reducers }
    ensures below { result < reducers }
{
    (hash(key) & MASK) % reducers
}
