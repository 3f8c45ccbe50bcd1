//! Laws of the definitions.

ghost use Rattle.std.specs.Prelude.{◌≡◌, List, map};
ghost use Rattle.mcs48_asm.specs.Capped.{line_capped, kept_places};
ghost use Rattle.mcs48_asm.specs.Assembly.{answer_of};
ghost use Rattle.mcs48_asm.specs.Places.{placed};
ghost use Rattle.mcs48_asm.specs.Statements.{Line};

/// Numbers and places past 65,535 are faults, whatever they are: lines have the same image, or the same first fault,
/// if 65,536 stands for each of them.
pub fn large_numbers()
    ensures capped { (lines : List Line)
        → answer_of (placed 0 lines) ≡ answer_of (kept_places 0 (map line_capped lines)) }
{}
