//! What the log says of what the host asked for.

ghost use Rattle.std.specs.Prelude.{◌≡◌, IsSome, Some};
ghost use Rattle.live_board.specs.Answers.{first_in};

use host_turn::Stamped;
use pc_tables::Item;

/// The byte of the first read of port 60h that these items give. They give one.
pub(crate) fn read_in(items: &[Stamped]) -> u8
    requires { IsSome (first_in (λ t. t.read) items.now) }
    ensures { first_in (λ t. t.read) items.now ≡ Some result }
{
    match items[0].item {
        Item::Read(byte) => byte,
        _ => read_in(&items[1..]),
    }
}

/// The first status that these items give. They give one.
pub(crate) fn status_in(items: &[Stamped]) -> u8
    requires { IsSome (first_in (λ t. t.status) items.now) }
    ensures { first_in (λ t. t.status) items.now ≡ Some result }
{
    match items[0].item {
        Item::Status(byte) => byte,
        _ => status_in(&items[1..]),
    }
}

/// The word of the first taking that these items give, or none if it found the buffer empty. They give one.
pub(crate) fn taken_in(items: &[Stamped]) -> Option<u16>
    requires { IsSome (first_in (λ t. t.taken) items.now) }
    ensures { first_in (λ t. t.taken) items.now ≡ Some result }
{
    match items[0].item {
        Item::Taken(word) => word,
        _ => taken_in(&items[1..]),
    }
}
