//! The keyboard that saved bytes mean.

ghost use Rattle.std.specs.Prelude.{◌≡◌, ◌≤◌, ◌==◌, ◌%◌, ◌^◌, length, slice_index, slice_range, true, Some, Ok, OnOk, IfOk, IfErr};
ghost use Rattle.ctl_link.specs.Empty.{fits, is_held};
ghost use Rattle.joint_bytes.specs.Lists.{edges_in, have_places, items_in, words_in};
ghost use Rattle.joint_bytes.specs.Links.{link_in};
ghost use Rattle.mcs48_bytes.specs.Numbers.{number_at, truth_at};
ghost use Rattle.mcs48_bytes.specs.Processors.{processor_in};
ghost use Rattle.joint_bytes.specs.Sides.{bios_in};
ghost use Rattle.mcs48_core.specs.Cpu.{Cpu};
ghost use Rattle.joint_saved.specs.Saved.{HasMachine, HasNoMachine, IsUnloaded, checked, counts_fit, is_sound, kept_by, kept_of, loaded, machine_in, magic};
ghost use Rattle.joint_saved.specs.declared.unloaded.Unloaded.TheVariants.{Memory};

use crate::saving::SAVED;
use crate::unloaded::Unloaded;
use arrayvec::ArrayVec;
use board_terms::{Edge, Matrix};
use ctl_link::Link;
use ctl_wire::Wire;
use int09::Bios;
use joint_bytes::{flags_in, have_places, link_in, side_in, take_edges, take_items, take_words};
use joint_run::{Joint, Machine};
use live_items::Happened;
use mcs48_bytes::{number_at, processor_in};
use mcs48_core::Mcu;
use mcs48_isa::Image;
use std::alloc::Global;

/// What bytes mean: the machine, the edges of keys that wait for a step, the items that are kept, how many others were
/// lost, and the rises of the interrupt line in the last run or call of the host's that wasn't refused.
#[derive(Drop)]
pub struct Loaded {
    pub joint: Joint,
    pub edges: ArrayVec<Edge, 4>,
    pub items: ArrayVec<Happened, 64>,
    pub lost: u64,
    pub rises: u64,
}

/// KBD48SV as a number of 7 bytes.
const MAGIC: u64 = 0x56_5338_3444_424b;

/// Whether there are as many bytes as a saved keyboard has.
fn is_whole(bytes: &[u8]) -> bool
    ensures whole { result ≡ (length bytes.now == 3077) }
    ensures count { result ≡ true → length bytes.now ≡ 3077 }
{
    bytes.len() == SAVED
}

/// Whether they begin as those of a saved keyboard.
fn has_name(bytes: &[u8]) -> bool
    requires { length bytes.now ≡ 3077 }
    ensures { result ≡ (number_at 0 bytes.now % 2 ^ 56 == magic) }
{
    number_at(bytes, 0) % (1 << 56) == MAGIC
}

/// Whether they are of this version.
fn is_version_1(bytes: &[u8]) -> bool
    requires { length bytes.now ≡ 3077 }
    ensures { result ≡ (slice_index bytes.now 7 == 1) }
{
    bytes[7] == 1
}

/// Whether there are no more words, edges and items than there can be.
fn counts_fit(bytes: &[u8]) -> bool
    requires { length bytes.now ≡ 3077 }
    ensures fit { result ≡ counts_fit bytes.now }
    ensures words { result ≡ true → slice_index bytes.now 124 ≤ 15 }
    ensures edges { result ≡ true → slice_index bytes.now 125 ≤ 4 }
    ensures items { result ≡ true → slice_index bytes.now 126 ≤ 64 }
{
    bytes[124] <= 15 && bytes[125] <= 4 && bytes[126] <= 64
}

/// Whether the edges that wait are at places of the matrix.
fn edges_have_places(bytes: &[u8]) -> bool
    requires count { length bytes.now ≡ 3077 }
    requires few { slice_index bytes.now 125 ≤ 4 }
    ensures { result ≡ have_places (slice_index bytes.now 125) (slice_range bytes.now 157 197) }
{
    have_places(&bytes[157..197], bytes[125] as usize)
}

/// What shows without a part being read: length, name, version, counts, and the places of the edges that wait.
fn check(bytes: &[u8]) -> Result<(), Unloaded>
    ensures checked { result ≡ checked bytes.now }
    ensures count { OnOk result (length bytes.now ≡ 3077) }
    ensures words { OnOk result (slice_index bytes.now 124 ≤ 15) }
    ensures edges { OnOk result (slice_index bytes.now 125 ≤ 4) }
    ensures items { OnOk result (slice_index bytes.now 126 ≤ 64) }
    ensures places { OnOk result (have_places (slice_index bytes.now 125) (slice_range bytes.now 157 197) ≡ true) }
{
    if !is_whole(bytes) {
        return Err(Unloaded::Length);
    }
    if !has_name(bytes) {
        return Err(Unloaded::Format);
    }
    if !is_version_1(bytes) {
        return Err(Unloaded::Version);
    }
    if !counts_fit(bytes) {
        return Err(Unloaded::Counts);
    }
    if !edges_have_places(bytes) {
        return Err(Unloaded::Keys);
    }
    Ok(())
}

/// INT 09h of these bytes.
fn bios(alloc: Global, bytes: &[u8]) -> Result<Bios, Unloaded>
    requires count { length bytes.now ≡ 3077 }
    requires few { slice_index bytes.now 124 ≤ 15 }
    ensures bios { IfOk result (λ b. b ≡ bios_in (slice_range bytes.now 82 101)
        (words_in (slice_index bytes.now 124) (slice_range bytes.now 127 157))) }
    ensures memory { IfErr result (λ fault. fault ≡ Memory) }
{
    let mut words: ArrayVec<u16, 15> = ArrayVec::new();
    take_words(&mut words, &bytes[127..157], bytes[124] as usize);
    match Bios::of_parts(alloc, flags_in(&bytes[82..101]), words.as_slice()) {
        Ok(bios) => Ok(bios),
        Err(_) => Err(Unloaded::Memory),
    }
}

/// The machine of these bytes, with this processor, this link and this INT 09h.
fn machine(bytes: &[u8], mcu: Mcu, link: Link<Wire>, bios: Bios) -> Machine
    requires count { length bytes.now ≡ 3077 }
    requires bios { bios ≡ bios_in (slice_range bytes.now 82 101)
        (words_in (slice_index bytes.now 124) (slice_range bytes.now 127 157)) }
    ensures { result ≡ (kept_by bytes.now mcu link).joint }
{
    let mut columns = [0; 12];
    columns.copy_from_slice(&bytes[59..71]);
    let mut program = [0; 2048];
    program.copy_from_slice(&bytes[1029..3077]);
    Machine {
        image: Image { bytes: program },
        matrix: Matrix::of_columns(columns),
        mcu,
        outside: side_in(&bytes[71..82], &bytes[82..101], link, bios),
        cycle: number_at(bytes, 8),
        steps: number_at(bytes, 16),
    }
}

/// Whether the keyboard is held off, with no byte for it.
fn is_held(link: &Link<Wire>) -> bool
    ensures { result ≡ is_held link.now }
{
    matches!(link, Link::Hold(_))
}

/// Whether the output buffer of a controller with these bytes is empty, or the keyboard is held off.
fn is_empty_unless_held(controller: &[u8], link: &Link<Wire>) -> bool
    requires count { length controller.now ≡ 11 }
    ensures { result ≡ fits (truth_at 2 controller.now) link.now }
{
    controller[2] != 1 || is_held(link)
}

/// Whether the machine of these bytes and this link took a cycle at least for each step, and its output buffer is empty
/// unless the keyboard is held off.
fn is_sound(bytes: &[u8], link: &Link<Wire>) -> bool
    requires count { length bytes.now ≡ 3077 }
    ensures { (cpu : Cpu) → is_sound (kept_by bytes.now cpu link.now).joint ≡ result }
{
    number_at(bytes, 16) <= number_at(bytes, 8) && is_empty_unless_held(&bytes[71..82], link)
}

/// The joint machine of parts that fit together.
fn sound(machine: Machine) -> Joint
    requires fit { is_sound machine ≡ true }
    ensures { result ≡ machine }
{
    Joint::of_parts(machine)
}

/// The edges of keys that wait.
fn edges(bytes: &[u8]) -> ArrayVec<Edge, 4>
    requires count { length bytes.now ≡ 3077 }
    requires few { slice_index bytes.now 125 ≤ 4 }
    requires places { have_places (slice_index bytes.now 125) (slice_range bytes.now 157 197) ≡ true }
    ensures { result.items ≡ edges_in (slice_index bytes.now 125) (slice_range bytes.now 157 197) }
{
    let mut edges = ArrayVec::new();
    take_edges(&mut edges, &bytes[157..197], bytes[125] as usize);
    edges
}

/// The items that are kept.
fn items(bytes: &[u8]) -> ArrayVec<Happened, 64>
    requires count { length bytes.now ≡ 3077 }
    requires few { slice_index bytes.now 126 ≤ 64 }
    ensures { result.items ≡ items_in (slice_index bytes.now 126) (slice_range bytes.now 197 901) }
{
    let mut items = ArrayVec::new();
    take_items(&mut items, &bytes[197..901], bytes[126] as usize);
    items
}

/// Data memory.
fn memory(bytes: &[u8]) -> [u8; 128]
    requires count { length bytes.now ≡ 3077 }
    ensures { result ≡ slice_range bytes.now 901 1029 }
{
    let mut ram = [0; 128];
    ram.copy_from_slice(&bytes[901..1029]);
    ram
}

/// The machine with this processor and this link, which were read from the bytes.
fn joint_of(alloc: Global, bytes: &[u8], mcu: Mcu, link: Link<Wire>) -> Result<Joint, Unloaded>
    requires count { length bytes.now ≡ 3077 }
    requires few { slice_index bytes.now 124 ≤ 15 }
    requires processor { processor_in (slice_range bytes.now 40 59) (slice_range bytes.now 901 1029) ≡ Some mcu }
    requires link { link_in (slice_range bytes.now 101 124) ≡ Some link }
    ensures joint { IfOk result (λ joint. HasMachine bytes.now joint) }
    ensures refused { IfErr result (HasNoMachine bytes.now) }
{
    if !is_sound(bytes, &link) {
        return Err(Unloaded::State);
    }
    let bios = bios(alloc, bytes)?;
    Ok(sound(machine(bytes, mcu, link, bios)))
}

/// The machine with this processor, which was read from the bytes.
fn joint_with(alloc: Global, bytes: &[u8], mcu: Mcu) -> Result<Joint, Unloaded>
    requires count { length bytes.now ≡ 3077 }
    requires few { slice_index bytes.now 124 ≤ 15 }
    requires processor { processor_in (slice_range bytes.now 40 59) (slice_range bytes.now 901 1029) ≡ Some mcu }
    ensures joint { IfOk result (λ joint. HasMachine bytes.now joint) }
    ensures refused { IfErr result (HasNoMachine bytes.now) }
{
    match link_in(&bytes[101..124]) {
        Some(link) => joint_of(alloc, bytes, mcu, link),
        None => Err(Unloaded::Link),
    }
}

/// The machine of bytes that were checked.
fn joint(alloc: Global, bytes: &[u8]) -> Result<Joint, Unloaded>
    requires count { length bytes.now ≡ 3077 }
    requires few { slice_index bytes.now 124 ≤ 15 }
    ensures joint { IfOk result (λ joint. HasMachine bytes.now joint) }
    ensures refused { IfErr result (HasNoMachine bytes.now) }
{
    match processor_in(&bytes[40..59], memory(bytes)) {
        Some(mcu) => joint_with(alloc, bytes, mcu),
        None => Err(Unloaded::Processor),
    }
}

/// What is loaded, with this machine, which was read from the bytes.
fn kept(joint: Joint, bytes: &[u8]) -> Loaded
    requires joint { HasMachine bytes.now joint }
    requires count { length bytes.now ≡ 3077 }
    requires edges { slice_index bytes.now 125 ≤ 4 }
    requires items { slice_index bytes.now 126 ≤ 64 }
    requires places { have_places (slice_index bytes.now 125) (slice_range bytes.now 157 197) ≡ true }
    ensures { machine_in bytes.now ≡ Ok (kept_of result) }
{
    Loaded {
        joint,
        edges: edges(bytes),
        items: items(bytes),
        lost: number_at(bytes, 32),
        rises: number_at(bytes, 24),
    }
}

/// What these bytes mean, with memory of its own. They are refused by the first thing that they lack.
pub fn load(alloc: Global, bytes: &[u8]) -> Result<Loaded, Unloaded>
    ensures loaded { IfOk result (λ k. loaded bytes.now ≡ Ok (kept_of k)) }
    ensures refused { IfErr result (IsUnloaded bytes.now) }
{
    check(bytes)?;
    let joint = joint(alloc, bytes)?;
    Ok(kept(joint, bytes))
}
