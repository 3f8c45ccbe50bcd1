//! What has to be known of a byte under way.

ghost use Rattle.std.specs.Prelude.{◌≡◌, Bool};

/// What is known of a byte under way: at least whether a waiting input may still break it off.
pub trait Passing {
    ghost breaks: { Self → Bool };

    /// Whether a waiting input may still break it off.
    fn may_break(&self) -> bool
        ensures breaks { result ≡ breaks self.now };
}
