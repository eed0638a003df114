//! The size of a page and of its parts.

/// Bytes of a page.
pub const PAGE_BYTES: usize = 4096;

/// Bytes of a page's payload, which stands first.
pub const PAYLOAD_BYTES: usize = 4064;

/// Bytes of a page's digest, which stands behind the payload.
pub const DIGEST_BYTES: usize = 32;

/// Pages of a device.
pub const MAX_PAGES: u32 = 65_536;

/// A page: its payload and its digest.
pub type Page = [u8; PAGE_BYTES];

/// What a page holds beside its digest.
pub type Payload = [u8; PAYLOAD_BYTES];
