//! Laws over layers below that don't know each other.

ghost use Rattle.app_answers.specs.ListingLaw.{ListAndAsmAreInverse};
ghost use Rattle.app_answers.specs.TranslationLaw.{EachKeyGivesItsScanCode};

/// With the translate bit set and the break mark clear, translation gives for the keyboard code of each of the 84 keys
/// its scan code. Nothing is done when it is called; the law is its contract.
pub fn each_key_gives_its_scan_code()
    ensures scan_codes { EachKeyGivesItsScanCode }
{}

/// Of each program memory: `list` of its HEX text prints its listing, `asm` of its listing prints its HEX text, and
/// neither text is too long for a file. Nothing is done when it is called; the law is its contract.
pub fn list_and_asm_are_inverse()
    ensures inverse { ListAndAsmAreInverse }
{}
