//! Lists of at most two items.

ghost use Rattle.std.specs.Prelude.{◌≡◌, [], ◌∷◌};

use arrayvec::ArrayVec;
use pc_tables::Item;

/// No item.
pub(crate) fn nothing() -> ArrayVec<Item, 2>
    ensures { result.items ≡ [] }
{
    ArrayVec::new()
}

/// One item.
pub(crate) fn one(item: Item) -> ArrayVec<Item, 2>
    ensures { result.items ≡ item ∷ [] }
{
    let mut items = ArrayVec::new();
    items.push(item);
    items
}

/// Two items, in their order.
pub(crate) fn two(first: Item, second: Item) -> ArrayVec<Item, 2>
    ensures { result.items ≡ first ∷ second ∷ [] }
{
    let mut items = ArrayVec::new();
    items.push(first);
    items.push(second);
    items
}
