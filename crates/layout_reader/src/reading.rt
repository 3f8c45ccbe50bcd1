//! From the bytes of a document to its layout, or to its first fault.

ghost use Rattle.std.specs.Prelude.{◌≡◌, [], Ok, IfOk, IfErr};
ghost use Rattle.toml.specs.View.{table_view, items_view};
ghost use Rattle.layout_reader.specs.Layouts.{AreEntries};
ghost use Rattle.layout_reader.specs.Documents.{entries_from, layout_of, layout_of_document, IsFaultOf};

use crate::cause::Cause;
use crate::entry::{Entry, entry_from};
use crate::fault::LayoutFault;
use crate::fields::Format;
use crate::layout::Layout;
use crate::top_level::{elements_in, header_from};
use std::alloc::Global;
use toml::{Table, Value};

/// The entries of the elements, each judged after the earlier ones, or the first fault.
#[tactic(auto, using(crate::proofs::Laws::entries_limit))]
fn read_entries(
    alloc: Global,
    format: Format,
    elements: &[Value],
) -> Result<Vec<Entry>, LayoutFault>
    ensures entries { IfOk result (λ entries. entries_from format [] (items_view elements.now) ≡ Ok entries.items) }
    ensures sound { IfOk result (λ entries. AreEntries entries.items) }
    ensures fault { IfErr result (IsFaultOf (entries_from format [] (items_view elements.now))) }
{
    let mut entries = Vec::new(alloc);
    for element in elements {
        match entry_from(format, entries.as_slice(), element) {
            Ok(entry) => {
                if entries.push(entry).is_err() {
                    return Err(LayoutFault::Memory);
                }
            }
            Err(cause) => {
                return Err(LayoutFault::Entry {
                    entry: entries.len() as u32 + 1,
                    number: cause.number(),
                });
            }
        }
    }
    Ok(entries)
}

/// The layout of the document's tree, or its first fault.
#[tactic(auto, unfolding(crate::specs::Documents::layout_of))]
fn layout_of(alloc: Global, top: &Table) -> Result<Layout, LayoutFault>
    ensures layout { IfOk result (λ layout. layout_of (table_view top.now) ≡ Ok layout) }
    ensures fault { IfErr result (IsFaultOf (layout_of (table_view top.now))) }
{
    match header_from(top) {
        Ok(header) => {
            let entries = read_entries(alloc, header.format, elements_in(top))?;
            Ok(Layout::new(header.rate, header.debounce, entries))
        }
        Err(cause) => Err(LayoutFault::Entry {
            entry: 0,
            number: cause.number(),
        }),
    }
}

/// Reads a layout document.
///
/// Ok is exactly the document's layout. `LayoutFault::Entry` is exactly its first fault: the top level is judged first,
/// as entry 0, and then each entry, counted from 1, after those before it. Want of memory may come at any time, and
/// says nothing of the document. Bytes that aren't UTF-8, or that `toml` refuses, have fault 1 at entry 0.
#[tactic(auto, unfolding(crate::specs::Documents::layout_of_document, crate::specs::Documents::tree_of))]
pub fn read_layout(alloc: Global, bytes: &[u8]) -> Result<Layout, LayoutFault>
    ensures layout { IfOk result (λ layout. layout_of_document bytes.now ≡ Ok layout) }
    ensures fault { IfErr result (IsFaultOf (layout_of_document bytes.now)) }
{
    match toml::table_from_slice(alloc, bytes) {
        Ok(top) => layout_of(alloc, &top),
        Err(error) => {
            if error.is_memory() {
                Err(LayoutFault::Memory)
            } else {
                Err(LayoutFault::Entry {
                    entry: 0,
                    number: Cause::NotToml.number(),
                })
            }
        }
    }
}
