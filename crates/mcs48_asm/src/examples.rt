//! The definition of an assembly, computed on small sources.

ghost use Rattle.mcs48_asm.specs.Examples.{examples, AreRight};

/// Small sources and what they give by the definitions: an image, or the first fault. The readings that the grammar's
/// sentences leave open are among them.
pub fn worked_examples()
    ensures examples { AreRight examples }
{}
