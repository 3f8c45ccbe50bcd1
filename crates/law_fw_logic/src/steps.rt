//! Laws of a single step.

ghost use Rattle.law_fw_logic.specs.Steps.{BytesLaw, RowsLaw};

/// The rows at the kernel's places, in every image that has its bytes outside the layout's tables. Nothing is done
/// when it is called; the law is its contract.
pub fn every_row()
    ensures rows { RowsLaw }
{}

/// Every step of any program of bytes leaves bytes bytes. Nothing is done when it is called; the law is its contract.
pub fn bytes_stay_bytes()
    ensures bytes { BytesLaw }
{}
