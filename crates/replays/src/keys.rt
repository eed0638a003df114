//! How the keys of a file are spread over its buckets.

use bucket_page::{KeptKeys, ShaKey};

/// By digests, which are kept for their next use.
pub type FileKeys = KeptKeys<ShaKey>;
