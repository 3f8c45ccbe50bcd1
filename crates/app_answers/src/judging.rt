//! Files, judged: what the bytes of one are, or the refusal of its first fault.

ghost use Rattle.std.specs.Prelude.{◌≡◌, ◌⊎◌, ◌≤◌, length, Ok, Err, IfOk, MatchResult};
ghost use Rattle.hexfile.specs.Hex.{hex_of};
ghost use Rattle.hexfile.specs.declared.fault.HexFault.{HexFault};
ghost use Rattle.key_file.specs.Accepted.{IsAcceptedFor};
ghost use Rattle.key_file.specs.KeyFile.{history_of, key_fault};
ghost use Rattle.key_file.specs.declared.fault.KeyFault.{KeyFault as KeysFault};
ghost use Rattle.layout_reader.specs.Documents.{layout_of_document};
ghost use Rattle.layout_reader.specs.Faults.{Refusal as LayoutRefusal};
ghost use Rattle.app_words.specs.declared.kind.Kind.{Kind};
ghost use Rattle.app_words.specs.Kinds.{limit_of};
ghost use Rattle.app_answers.specs.FileAnswers.{keys_refusal};

use app_words::Refusal;
use hexfile::read_hex;
use key_file::{ByteFeed, FileFault, History, KeyFault, check_history, read_history};
use layout_reader::{Layout, LayoutFault, read_layout};
use mcs48_isa::Image;
use std::alloc::Global;

/// The image of a HEX file.
pub fn image_in(file: &[u8]) -> Result<Image, Refusal>
    requires { length file.now ≤ limit_of Kind.Hex }
    ensures { MatchResult result (λ image. hex_of file.now ≡ Ok image.bytes)
        (λ refusal. (fault : HexFault) × (hex_of file.now ≡ Err fault) × (refusal ≡ Refusal.Hex fault)) }
{
    match read_hex(file) {
        Ok(image) => Ok(image),
        Err(fault) => Err(Refusal::Hex(fault)),
    }
}

/// The layout of a document.
pub fn layout_in(alloc: Global, document: &[u8]) -> Result<Layout, Refusal>
    ensures { MatchResult result (λ layout. layout_of_document document.now ≡ Ok layout)
        (λ refusal. (refusal ≡ Refusal.Memory)
        ⊎ ((fault : LayoutRefusal) × (layout_of_document document.now ≡ Err fault)
        × (refusal ≡ Refusal.Layout fault.entry fault.number))) }
{
    match read_layout(alloc, document) {
        Ok(layout) => Ok(layout),
        Err(LayoutFault::Entry { entry, number }) => Err(Refusal::Layout { entry, number }),
        Err(LayoutFault::Memory) => Err(Refusal::Memory),
    }
}

/// The refusal of a key file, by its first fault.
fn refusal_of(fault: FileFault) -> Refusal
    ensures { result ≡ keys_refusal (key_fault fault) }
{
    match fault {
        FileFault::Input { line, number } => Refusal::Keys { line, number },
        FileFault::Timing { line, number, a, b } => Refusal::Timing {
            line,
            number,
            first: a,
            second: b,
        },
    }
}

/// The events of a key file for a layout, none of which is taken yet.
pub fn events_in<'a>(text: &'a [u8], layout: &'a Layout) -> Result<ByteFeed<'a>, Refusal>
    requires within { length text.now ≤ limit_of Kind.Keys }
    ensures history { MatchResult result (λ feed. history_of layout.now text.now ≡ Ok feed.history)
        (λ refusal. (fault : KeysFault) × (history_of layout.now text.now ≡ Err fault) × (refusal ≡ keys_refusal fault)) }
    ensures accepted { IfOk result (λ feed. IsAcceptedFor layout.now feed.history) }
    ensures no_edge { IfOk result (λ feed. feed.edges ≡ 0) }
    ensures no_host { IfOk result (λ feed. feed.host ≡ 0) }
{
    match check_history(text, layout) {
        Ok(feed) => Ok(feed),
        Err(fault) => Err(refusal_of(fault)),
    }
}

/// The history of a key file for a layout.
pub fn history_in(alloc: Global, text: &[u8], layout: &Layout) -> Result<History, Refusal>
    requires { length text.now ≤ limit_of Kind.Keys }
    ensures history { MatchResult result (λ history. history_of layout.now text.now ≡ Ok history)
        (λ refusal. (refusal ≡ Refusal.Memory)
        ⊎ ((fault : KeysFault) × (history_of layout.now text.now ≡ Err fault) × (refusal ≡ keys_refusal fault))) }
    ensures accepted { IfOk result (IsAcceptedFor layout.now) }
{
    match read_history(alloc, text, layout) {
        Ok(history) => Ok(history),
        Err(KeyFault::Input { line, number }) => Err(Refusal::Keys { line, number }),
        Err(KeyFault::Timing { line, number, a, b }) => Err(Refusal::Timing {
            line,
            number,
            first: a,
            second: b,
        }),
        Err(KeyFault::Memory) => Err(Refusal::Memory),
    }
}
