//! How names are spread over the table that keeps them: by a hash that depends on the whole text, so that no text can
//! be written whose own names fall together.

use std::hash::{BuildHasher, DefaultHasher, Hasher};

/// A hasher that has read a text.
#[derive(Clone, Copy, Drop)]
pub(crate) struct TextHash {
    after_text: DefaultHasher,
}

impl TextHash {
    /// The hasher that has read this text.
    pub(crate) fn of(text: &[u8]) -> TextHash {
        let mut after_text = DefaultHasher::new();
        after_text.write(text);
        TextHash { after_text }
    }
}

impl BuildHasher for TextHash {
    type Hasher = DefaultHasher;

    ghost build_hasher = { λ hash. hash.after_text };

    fn build_hasher(&self) -> DefaultHasher {
        self.after_text
    }
}
