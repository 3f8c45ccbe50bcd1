//! The definition of a certificate, computed on small programs.

ghost use Rattle.cycle_cert.specs.Examples.{examples, AreRight};

/// Small programs with certificates, and what they give by the definitions: places and a greatest bound, or the first
/// fault. The readings that the rules' sentences leave open are among them. Nothing is done when it is called; the law
/// is its contract.
pub fn worked_certificates()
    ensures examples { AreRight examples }
{}
