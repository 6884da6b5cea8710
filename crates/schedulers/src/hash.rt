// 32-bit FNV-1a.
ghost use Rattle.std.specs.Prelude.{◌≡◌, ◌^◌, ◌<◌, fold};
ghost use Rattle.schedulers.specs.Hashes.{fnv, mixed};

pub const BASIS: u32 = 2166136261;

// The hash with one byte more.
pub fn mix(h: u32, b: u8) -> u32
    ensures { result ≡ mixed h b }
{
    (h ^ u32::from(b)).wrapping_mul(16777619)
}

// The hash with some bytes more.
pub(crate) fn mix_bytes(h: u32, bytes: &[u8]) -> u32
    ensures { result ≡ fold mixed h bytes.now }
{
    bytes.iter().fold(h, |h, b| mix(h, *b))
}

// The hash of some bytes.
pub fn hash(bytes: &[u8]) -> u32
    ensures { result ≡ fnv bytes.now }
{
    mix_bytes(BASIS, bytes)
}
