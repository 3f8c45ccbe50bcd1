//! The call.

ghost use Rattle.std.specs.Prelude.{◌≡◌, ◌≢◌, ◌⊎◌, ℕ, ◌≤◌, drop, length, map, pos, take, string_bytes, IfNone, IfOk, IfSome};
ghost use Rattle.run_probes.specs.Probes.{address_kind, cell_kind, line_kind, register_kind, unarmed};
ghost use Rattle.app_words.specs.Exits.{status_of};
ghost use Rattle.kbd48_call.specs.Calls.{IsCall};
ghost use Rattle.kbd48_call.specs.Pieces.{HasBadPiece, piece_in, shelf_in};

use crate::bad_pieces::{has_bad_file, has_bad_word};
use crate::pieces::{Named, Piece, Untaken, shelf_of, words_of};
use app_words::Exit;
use io_edge::{MemShelf, MemSink};
use kbd48_app::kbd48;
use run_probes::{AddressProbe, CellProbe, LineProbe, Probe, RegisterProbe};
use std::alloc::{AllocError, Global};

const DONE: i32 = 0;

const NO_MEMORY: i32 = 2;

const NO_SUCH_PIECE: i32 = 5;

/// How the call ended: its exit, and how many bytes of the room for the text are taken.
#[repr(C)]
#[derive(Drop)]
pub struct Said {
    pub length: usize,
    pub exit: u8,
}

/// A probe that is new. Nothing is done: what is known of a probe if it is made is said of its box.
fn is_new(probe: &Box<dyn Probe>, kind: usize)
    requires { watch probe.now ≡ unarmed kind }
    ensures { watch probe.now ≡ unarmed kind }
{}

/// Runs the program with four new probes over this shelf, into a sink with room for so many bytes.
fn run(
    alloc: Global,
    words: &[String],
    shelf: &mut MemShelf,
    room: usize,
) -> Result<(MemSink, Exit), AllocError>
    ensures said { IfOk result (λ it. IsCall (map string_bytes words.now) shelf.old.in_memory room it.0.taken (status_of it.1)) }
{
    let address: Box<dyn Probe> = Box::new(alloc, AddressProbe::new())?;
    is_new(&address, 0);
    let register: Box<dyn Probe> = Box::new(alloc, RegisterProbe::new())?;
    is_new(&register, 1);
    let cell: Box<dyn Probe> = Box::new(alloc, CellProbe::new())?;
    is_new(&cell, 2);
    let line: Box<dyn Probe> = Box::new(alloc, LineProbe::new())?;
    is_new(&line, 3);
    let mut probes: Vec<Box<dyn Probe>> = Vec::new(alloc);
    probes.push(address)?;
    probes.push(register)?;
    probes.push(cell)?;
    probes.push(line)?;
    let mut sink = MemSink::new(alloc, room, Vec::new(alloc))?;
    let exit = kbd48(alloc, words, shelf, &mut sink, &mut probes);
    Ok((sink, exit))
}

/// Writes a text, if there is room for it. Answers how long it is, or nothing if there is no room.
fn put_text(taken: &[u8], text: &mut [u8]) -> Option<usize>
    ensures written { IfSome result (λ n. take n text.new ≡ taken.now) }
    ensures within { IfSome result (λ n. n ≤ length text.old) }
    ensures rest { IfSome result (λ n. drop n text.new ≡ drop n text.old) }
    ensures unchanged { IfNone result (text.new ≡ text.old) }
{
    if taken.len() > text.len() {
        return None;
    }
    text[..taken.len()].copy_from_slice(taken);
    Some(taken.len())
}

/// The program from its words and its files to its text and its exit. Words and files are pieces of `bytes`. If the room
/// for the text is full, the exit is 6, as of a sink that failed. The result is 0 if there is an answer, 2 if there is no
/// memory for words, files and probes, and 5 if a piece isn't one of the bytes or a name or a word is no UTF-8 text, which is
/// judged before memory is taken. Text and `said` are written only if it is 0, and of the room for the text no more than the
/// text takes.
#[unsafe(no_mangle)]
pub extern "C" fn kbd48_call(
    alloc: Global,
    bytes: &[u8],
    words: &[Piece],
    files: &[Named],
    text: &mut [u8],
    said: &mut Said,
) -> i32
    ensures said { result ≡ pos 0 → IsCall (map (piece_in bytes.now) words.now) (shelf_in bytes.now files.now)
        (length text.old) (take said.new.length text.new) said.new.exit }
    ensures within { result ≡ pos 0 → said.new.length ≤ length text.old }
    ensures rest { result ≡ pos 0 → drop said.new.length text.new ≡ drop said.new.length text.old }
    ensures status { (result ≡ pos 0) ⊎ (result ≡ pos 2) ⊎ (result ≡ pos 5) }
    ensures faulty { result ≡ pos 5 → HasBadPiece bytes.now words.now files.now }
    ensures refused { HasBadPiece bytes.now words.now files.now → result ≡ pos 5 }
    ensures sound { result ≡ pos 0 → ¬ (HasBadPiece bytes.now words.now files.now) }
    ensures unchanged { result ≢ pos 0 → (text.new ≡ text.old) × (said.new ≡ said.old) }
{
    if has_bad_word(bytes, words) || has_bad_file(bytes, files) {
        return NO_SUCH_PIECE;
    }
    let words = match words_of(alloc, bytes, words) {
        Ok(words) => words,
        Err(Untaken::Memory) => return NO_MEMORY,
        Err(Untaken::BadPiece) => return NO_SUCH_PIECE,
    };
    let mut shelf = match shelf_of(alloc, bytes, files) {
        Ok(shelf) => shelf,
        Err(Untaken::Memory) => return NO_MEMORY,
        Err(Untaken::BadPiece) => return NO_SUCH_PIECE,
    };
    match run(alloc, &words, &mut shelf, text.len()) {
        Ok((sink, exit)) => match put_text(sink.taken(), text) {
            Some(length) => {
                said.length = length;
                said.exit = exit.status();
                DONE
            }
            None => NO_MEMORY,
        },
        Err(_) => NO_MEMORY,
    }
}
