//! The lines that a change of the wires is.

ghost use Rattle.std.specs.Prelude.{◌≡◌, ◌+◌, ◌≤◌, ◌++◌, ◌∷◌, []};
ghost use Rattle.arrayvec.specs.ArrayVec.{array_vec_len};
ghost use Rattle.run_wires.specs.Text.{change_text, comment, differ, level_text, seen_text, turns};

use arrayvec::ArrayVec;
use board_terms::{Lines, Transfer};
use hex_text::{append, begun};

/// The lines of one sample. None has more.
pub(crate) type ChangeText = ArrayVec<u8, 80>;

/// A wire turns.
fn turns(before: bool, now: bool) -> bool
    ensures { result ≡ turns before now }
{
    before != now
}

/// The wires differ.
pub(crate) fn differ(before: Lines, now: Lines) -> bool
    ensures { result ≡ differ before now }
{
    turns(before.clk, now.clk) || turns(before.dat, now.dat)
}

/// Appends the new level of the wire with this letter, if it turns.
fn push_level(text: &mut ChangeText, wire: u8, before: bool, now: bool)
    requires room { array_vec_len text.old + 3 ≤ 80 }
    ensures text { text.new.items ≡ text.old.items ++ level_text (wire ∷ []) before now }
    ensures short { array_vec_len text.new ≤ array_vec_len text.old + 3 }
{
    if turns(before, now) {
        let level = if now { b'1' } else { b'0' };
        append(text, &[level, wire, b'\n']);
    }
}

/// Appends the level of data that the controller sees, if it is asked for.
fn push_seen(text: &mut ChangeText, seen: Option<bool>)
    requires room { array_vec_len text.old + 3 ≤ 80 }
    ensures text { text.new.items ≡ text.old.items ++ seen_text seen }
    ensures short { array_vec_len text.new ≤ array_vec_len text.old + 3 }
{
    if let Some(level) = seen {
        append(text, if level { b"1s\n" } else { b"0s\n" });
    }
}

/// Appends the comment of a transfer.
fn push_comment(text: &mut ChangeText, transfer: Option<Transfer>)
    requires room { array_vec_len text.old + 26 ≤ 80 }
    ensures text { text.new.items ≡ text.old.items ++ comment transfer }
{
    if let Some(transfer) = transfer {
        let sender: &[u8] = if transfer.from_host {
            b"host "
        } else {
            b"keyboard "
        };
        append(text, b"$comment ");
        append(text, sender);
        append(text, &hex_text::byte(transfer.byte));
        append(text, b" $end\n");
    }
}

/// The lines of a sample whose wires differ from those before: the time in units of 100 ns, of which a cycle has 25, the
/// wires that turned, what the controller sees of data if it is asked for, and the transfer that it completes.
pub(crate) fn change(
    cycle: u64,
    before: Lines,
    now: Lines,
    seen: Option<bool>,
    transfer: Option<Transfer>,
) -> ChangeText
    ensures { result.items ≡ change_text cycle before now seen transfer }
{
    let mut text = begun(b"#");
    let time = 25 * u128::from(cycle);
    append(&mut text, itoa::Buffer::new().format(time).as_bytes());
    append(&mut text, b"\n");
    push_level(&mut text, b'c', before.clk, now.clk);
    push_level(&mut text, b'd', before.dat, now.dat);
    push_seen(&mut text, seen);
    push_comment(&mut text, transfer);
    text
}
