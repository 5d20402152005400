// The hash of a key, by which the index of the cache is sorted.
ghost use Rattle.std.specs.Prelude.{◌≡◌};
ghost use Rattle.names.specs.Names.{labels};
ghost use Rattle.cache.specs.Hashes.{stirred, stirred_all, stirred_name, hash_of};

use super::Key;
use names::Name;

// Odd, and near 2^64 divided by the golden ratio, so that a product spreads its bits.
const FACTOR: u64 = 0x9E37_79B9_7F4A_7C15;

fn stir(hash: u64, byte: u8) -> u64
    ensures { result ≡ stirred hash byte }
{
    (hash ^ u64::from(byte)).wrapping_mul(FACTOR)
}

fn stir_all(start: u64, bytes: &[u8]) -> u64
    ensures { result ≡ stirred_all start bytes.now }
{
    bytes.iter().fold(start, |hash, byte| stir(hash, *byte))
}

fn stir_name(start: u64, name: &Name) -> u64
    ensures { result ≡ stirred_name start (labels name.now) }
{
    let mut hash = start;
    for label in name.labels() {
        hash = stir_all(stir(hash, b'.'), label);
    }
    hash
}

impl Key {
    pub fn hash(&self) -> u64
        ensures { result ≡ hash_of (labels self.now.apex) (labels self.now.name) self.now.kind.number }
    {
        let apex = stir_name(stir(0, self.kind.number()), &self.apex);
        stir_name(stir(apex, b'/'), &self.name)
    }
}
