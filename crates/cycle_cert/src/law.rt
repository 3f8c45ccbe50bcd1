//! Laws: over all rows of the opcode table, and over certificates that follow one another.

ghost use Rattle.cycle_cert.specs.Following.{FollowLaw};
ghost use Rattle.cycle_cert.specs.RowLaw.{RegisterLaw};

/// What each row that may be certified does to each register of bank 0, by the processor's own equations: one that
/// can't write the register, as this layer describes it, leaves it, and one that gives it a value leaves that value in it.
/// Nothing is done when it is called; the law is its contract.
pub fn what_rows_do_to_registers()
    ensures registers { RegisterLaw }
{}

/// Certificates may be chained. If the target of one whose places keep their bounds is a certified place of another
/// such, of the same program, the run from a place of the first reaches the target of the second, within the bound of
/// the place and the greatest value of the second one's. Nothing is done when it is called; the law is its contract.
pub fn certificates_follow_one_another()
    ensures follows { FollowLaw }
{}
