ghost use Rattle.std.specs.Prelude.{◌≡◌};
ghost use Rattle.slot_order.specs.Fnv as specs;

const OFFSET_BASIS: u64 = 14_695_981_039_346_656_037;

const PRIME: u64 = 1_099_511_628_211;

/// The FNV-1a 64 of the bytes, the hash of G. Fowler, L. C. Noll and K.-P. Vo.
///
/// Each byte is taken into the hash by an exclusive or, and the hash then multiplied by the FNV
/// prime modulo 2^64. It takes no memory.
pub fn fnv1a(bytes: &[u8]) -> u64
    ensures { result ≡ specs.fnv1a bytes.now }
{
    let mut hash = OFFSET_BASIS;
    for byte in bytes {
        hash = hash_after(hash, *byte);
    }
    hash
}

/// A key's finger: the top byte of the FNV-1a 64 of its bytes. It takes no memory.
pub fn finger(key: &[u8]) -> u8
    ensures { result ≡ specs.finger_of key.now }
{
    (fnv1a(key) >> 56) as u8
}

/// The FNV-1a 64 of some bytes and one more, where that of the bytes is `hash`.
pub(crate) fn hash_after(hash: u64, byte: u8) -> u64
    ensures { result ≡ specs.hash_after hash byte }
{
    (hash ^ byte as u64).wrapping_mul(PRIME)
}
