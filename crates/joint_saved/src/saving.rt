//! The bytes of a saved keyboard.

ghost use Rattle.std.specs.Prelude.{◌≡◌, ◌≤◌, ◌<◌, ◌+◌, ◌^◌, ◌++◌, length, Ok, Some};
ghost use Rattle.arrayvec.specs.ArrayVec.{array_vec_len};
ghost use Rattle.board_terms.specs.Columns.{keys_in};
ghost use Rattle.joint_bytes.specs.Links.{link_bytes, link_in};
ghost use Rattle.mcs48_bytes.specs.Processors.{processor_bytes, processor_in};
ghost use Rattle.joint_bytes.specs.Sides.{controller_bytes, side_bytes, side_in};
ghost use Rattle.joint_saved.specs.Saved.{IsRead, columns_of, kept, loaded, machine_bytes, number_bytes, saved_bytes};

use arrayvec::ArrayVec;
use board_terms::Edge;
use joint_bytes::{controller_bytes, link_bytes, push_edges, push_items, push_words, side_bytes};
use joint_run::Joint;
use live_items::Happened;
use mcs48_bytes::processor_bytes;

/// How many bytes a saved keyboard has.
pub const SAVED: usize = 3077;

/// What a saved keyboard begins with: its name, and the version.
const HEADER: [u8; 8] = [0x4b, 0x42, 0x44, 0x34, 0x38, 0x53, 0x56, 1];

/// The bytes so far.
type Bytes = ArrayVec<u8, 3077>;

/// Appends a piece.
fn push(bytes: &mut Bytes, piece: &[u8])
    requires room { array_vec_len bytes.old + length piece.now ≤ 3077 }
    ensures bytes { bytes.new.items ≡ bytes.old.items ++ piece.now }
    ensures count { array_vec_len bytes.new ≡ array_vec_len bytes.old + length piece.now }
{
    let _ = bytes.try_extend_from_slice(piece);
}

/// The processor's bytes. They are read as this processor.
fn processor(joint: &Joint) -> [u8; 19]
    ensures bytes { result ≡ processor_bytes joint.now.mcu }
    ensures read { processor_in (processor_bytes joint.now.mcu) joint.now.mcu.ram ≡ Some joint.now.mcu }
    ensures memory { length joint.now.mcu.ram ≡ 128 }
{
    processor_bytes(joint.mcu())
}

/// The rows of each column. They are read as this matrix.
fn columns(joint: &Joint) -> [u8; 12]
    ensures rows { result ≡ columns_of joint.now.matrix }
    ensures read { keys_in (columns_of joint.now.matrix) ≡ joint.now.matrix }
{
    joint.matrix().columns()
}

/// The controller's bytes.
fn controller(joint: &Joint) -> [u8; 11]
    ensures bytes { result ≡ controller_bytes joint.now.outside.desk.port.core }
{
    controller_bytes(joint.controller())
}

/// The bytes of what else is outside the processor. They are read as this.
fn side(joint: &Joint) -> [u8; 19]
    ensures bytes { result ≡ side_bytes joint.now.outside }
    ensures read { side_in (controller_bytes joint.now.outside.desk.port.core) (side_bytes joint.now.outside)
        joint.now.outside.desk.port.link joint.now.outside.desk.bios.words ≡ joint.now.outside }
{
    side_bytes(joint.outside())
}

/// The link's bytes. They are read as this link.
fn link(joint: &Joint) -> [u8; 23]
    ensures bytes { result ≡ link_bytes joint.now.outside.desk.port.link }
    ensures read { link_in (link_bytes joint.now.outside.desk.port.link) ≡ Some joint.now.outside.desk.port.link }
{
    link_bytes(&joint.outside().desk.port.link)
}

/// The name, the version and the numbers.
fn numbers(joint: &Joint, rises: u64, lost: u64) -> Bytes
    ensures bytes { result.items ≡ number_bytes joint.now.cycle joint.now.steps rises lost }
    ensures count { array_vec_len result ≡ 40 }
    ensures cycle { joint.now.cycle < 2 ^ 64 }
    ensures steps { joint.now.steps < 2 ^ 64 }
{
    let mut bytes = ArrayVec::new();
    push(&mut bytes, &HEADER);
    push(&mut bytes, &joint.cycle().to_le_bytes());
    push(&mut bytes, &joint.steps().to_le_bytes());
    push(&mut bytes, &rises.to_le_bytes());
    push(&mut bytes, &lost.to_le_bytes());
    bytes
}

/// The name, the numbers, and the machine's parts but for the words, data memory and the program. Each is read from its
/// bytes.
fn machine(joint: &Joint, rises: u64, lost: u64) -> Bytes
    ensures bytes { result.items ≡ machine_bytes joint.now rises lost }
    ensures count { array_vec_len result ≡ 124 }
    ensures read { IsRead joint.now }
    ensures memory { length joint.now.mcu.ram ≡ 128 }
{
    let mut bytes = numbers(joint, rises, lost);
    push(&mut bytes, &processor(joint));
    push(&mut bytes, &columns(joint));
    push(&mut bytes, &controller(joint));
    push(&mut bytes, &side(joint));
    push(&mut bytes, &link(joint));
    bytes
}

/// The bytes of a keyboard: its machine, the edges that wait, the items that are kept, how many others were lost, and the
/// rises of the interrupt line in the last run or call of the host's that wasn't refused. Loaded again they are the same.
pub fn save(
    joint: &Joint,
    edges: &[Edge],
    items: &[Happened],
    lost: u64,
    rises: u64,
) -> ArrayVec<u8, 3077>
    requires edges { length edges.now ≤ 4 }
    requires items { length items.now ≤ 64 }
    ensures bytes { result.items ≡ saved_bytes (kept joint.now edges.now items.now lost rises) }
    ensures count { length result.items ≡ 3077 }
    ensures loaded { loaded result.items ≡ Ok (kept joint.now edges.now items.now lost rises) }
{
    let parts = joint.parts();
    let words = joint.bios().words();
    let mut bytes = machine(joint, rises, lost);
    push(
        &mut bytes,
        &[words.len() as u8, edges.len() as u8, items.len() as u8],
    );
    push_words(&mut bytes, words.as_slice(), 15);
    push_edges(&mut bytes, edges, 4);
    push_items(&mut bytes, items, 64);
    push(&mut bytes, &parts.mcu.ram);
    push(&mut bytes, &parts.image.bytes);
    bytes
}
