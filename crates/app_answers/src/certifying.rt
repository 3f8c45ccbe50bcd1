//! `cert`: what a certificate without a fault says.

ghost use Rattle.std.specs.Prelude.{◌≡◌, ◌≤◌, length, IfOk};
ghost use Rattle.app_words.specs.declared.kind.Kind.{Kind};
ghost use Rattle.app_words.specs.Kinds.{limit_of};
ghost use Rattle.app_answers.specs.Answers.{answer_of, MayAnswerCert};
ghost use Rattle.app_answers.specs.CertTexts.{proved_text};

use app_words::Refusal;
use cycle_cert::{CertFault, Proved, check_cert};
use mcs48_isa::Image;
use std::alloc::{AllocError, Global};

/// How many places have a bound, and the greatest bound, in machine cycles.
fn proved_line(alloc: Global, proved: Proved) -> Result<Vec<u8>, AllocError>
    ensures { IfOk result (λ text. text.items ≡ proved_text proved) }
{
    let mut text = Vec::new(alloc);
    text.extend_from_slice(b"ok places ")?;
    text.extend_from_slice(itoa::Buffer::new().format(proved.places).as_bytes())?;
    text.extend_from_slice(b" greatest ")?;
    text.extend_from_slice(itoa::Buffer::new().format(proved.greatest).as_bytes())?;
    text.extend_from_slice(b"\n")?;
    Ok(text)
}

/// Judges a certificate for an image.
pub fn certify(alloc: Global, image: &Image, text: &[u8]) -> Result<Vec<u8>, Refusal>
    requires { length text.now ≤ limit_of Kind.Cert }
    ensures says { MayAnswerCert image.now.bytes text.now (answer_of result) }
{
    match check_cert(alloc, image, text) {
        Err(CertFault::Line { line, number }) => Err(Refusal::Cert { line, number }),
        Err(CertFault::Memory) => Err(Refusal::Memory),
        Ok(proved) => proved_line(alloc, proved).map_err(|_| Refusal::Memory),
    }
}
