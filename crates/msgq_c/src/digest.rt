//! Digests, for who tells what is wrong with a page.

ghost use Rattle.std.specs.Prelude.{◌≡◌};
ghost use Rattle.sha2.specs.Sha256.{sha256};

use sha2::{Digest, Sha256};

/// The SHA-256 of bytes.
#[unsafe(no_mangle)]
pub extern "C" fn msgq_session_digest(bytes: &[u8], into: &mut [u8; 32])
    ensures { into.new ≡ sha256 bytes.now }
{
    let mut hasher = Sha256::new();
    hasher.update(bytes);
    *into = hasher.finalize();
}
