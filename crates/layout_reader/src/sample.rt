//! The sample layout.

ghost use Rattle.std.specs.Prelude.{◌≡◌, ◌<◌, IfOk};
ghost use Rattle.layout_reader.specs.Layouts.{us84, sample_entry};

use crate::entry::Entry;
use crate::layout::Layout;
use crate::top_level::DEFAULT_RATE;
use board_terms::Place;
use pc_tables::Key;
use std::alloc::{AllocError, Global};

/// The entry of a key, at the place with the same number.
fn sample_entry(key: Key) -> Entry
    requires { key < 84 }
    ensures { result ≡ sample_entry key }
{
    let number = key.number();
    let place = Place::numbered(number).unwrap();
    Entry {
        place,
        key,
        sends: Some(key),
        fn_sends: Some(key),
        make_only: false,
    }
}

/// The sample layout `us84`: each of the 84 keys is at the place of its number and sends its own code, also under
/// Fn, at the rate 44, without a debounce. It is made from the numbers of the keys; no text is read.
#[tactic(auto, unfolding(crate::specs::Layouts::us84))]
pub fn us84_layout(alloc: Global) -> Result<Layout, AllocError>
    ensures layout { IfOk result (λ layout. layout ≡ us84) }
{
    let mut entries = Vec::new(alloc);
    for number in 0..84 {
        let key = Key::numbered(number).unwrap();
        entries.push(sample_entry(key))?;
    }
    Ok(Layout::new(DEFAULT_RATE, false, entries))
}
