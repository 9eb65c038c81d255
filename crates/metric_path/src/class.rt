//! The hash from which a path has its class.
ghost use Rattle.std.specs.Prelude.{◌≡◌};
ghost use Rattle.metric_path.specs.Class.{fnv1a};

// The offset basis and the prime of the FNV-1a hash of 32 bits.
const OFFSET_BASIS: u32 = 2_166_136_261;

const PRIME: u32 = 16_777_619;

/// The FNV-1a hash of 32 bits.
pub(crate) fn fnv1a(text: &[u8]) -> u32
    ensures { result ≡ fnv1a text.now }
{
    let mut hash = OFFSET_BASIS;
    for b in text {
        hash = (hash ^ u32::from(*b)).wrapping_mul(PRIME);
    }
    hash
}
