//! Sealed pages: a payload, and behind it the digest of the page's number and the payload.
ghost use Rattle.std.specs.Prelude.{◌≡◌, ℕ, ◌+◌, ◌++◌, ◌↔◌, length, take, IsOk, IfOk, OnOk, OnErr, IsOkUnless};
ghost use Rattle.page_device.specs.Sealed.{page_digest, payload_of, IsSealed};

use crate::fault::DeviceFault;
use crate::page::{DIGEST_BYTES, PAGE_BYTES, PAYLOAD_BYTES, Page, Payload};
use byteorder::{BigEndian, ByteOrder};
use sha2::{Digest, Sha256};

/// Page `n` with this payload.
pub fn seal(n: u32, payload: &Payload) -> Page
    ensures sealed { IsSealed n result }
    ensures payload { payload_of result ≡ payload.now }
{
    seal_with(payload, &page_digest(n, payload))
}

/// A page with this payload and this digest: that page is sealed whose digest it is.
pub fn seal_with(payload: &Payload, digest: &[u8; DIGEST_BYTES]) -> Page
    ensures sealed { (n : ℕ) → digest.now ≡ page_digest n payload.now → IsSealed n result }
    ensures payload { payload_of result ≡ payload.now }
{
    let mut page = [0; PAGE_BYTES];
    join(payload, digest, &mut page);
    page
}

/// The payload of page `n`, or `BadDigest` where the page is not sealed.
pub fn unseal(n: u32, page: &Page) -> Result<Payload, DeviceFault>
    ensures sealed { IsOk result ↔ IsSealed n page.now }
    ensures payload { IfOk result (λ payload. payload ≡ payload_of page.now) }
    ensures bad_digest { IsOkUnless result DeviceFault.BadDigest }
{
    let mut payload = [0; PAYLOAD_BYTES];
    unseal_into(n, page, &mut payload)?;
    Ok(payload)
}

/// Copies the payload of page `n`, or refuses with `BadDigest` where the page is not sealed.
pub fn unseal_into(n: u32, page: &Page, payload: &mut Payload) -> Result<(), DeviceFault>
    ensures sealed { IsOk result ↔ IsSealed n page.now }
    ensures payload { OnOk result (payload.new ≡ payload_of page.now) }
    ensures bad_digest { IsOkUnless result DeviceFault.BadDigest }
    ensures err { OnErr result (payload.new ≡ payload.old) }
{
    let (front, stored) = page.split_at(PAYLOAD_BYTES);
    if stored == page_digest(n, front).as_slice() {
        payload.copy_from_slice(front);
        Ok(())
    } else {
        Err(DeviceFault::BadDigest)
    }
}

/// The digest that page `n` keeps of its payload.
pub fn page_digest(n: u32, payload: &[u8]) -> [u8; DIGEST_BYTES]
    ensures { result ≡ page_digest n payload.now }
{
    let mut number = [0; 4];
    BigEndian::write_u32(&mut number, n);
    let mut hasher = Sha256::new();
    hasher.update(number);
    hasher.update(payload);
    hasher.finalize()
}

/// Writes the two parts one after the other.
fn join(front: &[u8], back: &[u8], whole: &mut [u8])
    requires { length whole.old ≡ length front.now + length back.now }
    ensures { whole.new ≡ front.now ++ back.now }
{
    let (head, tail) = whole.split_at_mut(front.len());
    head.copy_from_slice(front);
    tail.copy_from_slice(back);
}
