//! The generator of a seed.
ghost use Rattle.std.specs.Prelude.{◌≡◌};
ghost use Rattle.commands.specs.Makings.{seed_key};
ghost use Rattle.rand_chacha.specs.ChaCha.{of_seed};

use rand_chacha::ChaCha8Rng;
use rand_core::SeedableRng;

/// The generator whose key is the seed's eight bytes, least first, and 24 zero bytes.
pub fn generator(seed: u64) -> ChaCha8Rng
    ensures { result ≡ of_seed (seed_key seed) }
{
    let mut key = [0; 32];
    key[..8].copy_from_slice(&seed.to_le_bytes());
    ChaCha8Rng::from_seed(key)
}
