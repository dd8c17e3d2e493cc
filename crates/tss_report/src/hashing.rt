// The digest of memory.
ghost use Rattle.std.specs.Prelude.{◌≡◌};
ghost use Rattle.tss_memory.specs.Ranges.{CanRead};
ghost use Rattle.tss_report.specs.MemoryDigest.{hashed_bytes, digest_of};

use sha2::{Digest, Sha256};
use tss_base::Range;
use tss_memory::Space;

/// What a range adds to the digest: its bytes, where it can be written, and else nothing.
fn hashed_bytes<'a>(space: &'a Space, range: &Range, writable: bool) -> &'a [u8]
    requires { CanRead space.now.ranges range.now.base range.now.len }
    ensures { result.now ≡ hashed_bytes space.now (record { range = range.now; writable = writable }) }
{
    if writable { space.bytes(range) } else { &[] }
}

/// The SHA-256 of the bytes of all ranges that can be written, in address order. The hasher reads each range where it
/// stands, so no second memory is made.
pub fn digest(space: &Space) -> [u8; 32]
    ensures { result ≡ digest_of space.now }
{
    let mut hasher = Sha256::new();
    let mut i = 0;
    while let Some((range, writable)) = space.range_at(i) {
        hasher.update(hashed_bytes(space, &range, writable));
        i += 1;
    }
    hasher.finalize()
}
