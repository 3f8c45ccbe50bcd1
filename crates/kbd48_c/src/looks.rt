//! What is seen of an open keyboard without a step: its controller, its processor, its keys.

ghost use Rattle.std.specs.Prelude.{◌≡◌, length};
ghost use Rattle.live_board.specs.Looks.{registers_of};
ghost use Rattle.kbd48_c.specs.Exports.{held_status, shown_of};
ghost use Rattle.kbd48_c.specs.Looks.{cell_after, cell_status, column_after, column_status, count_of, processor_of};
ghost use Rattle.kbd48_c.specs.Statuses.{done};

use crate::handle::Handle;
use crate::status::{DONE, NO_SUCH_CELL, NO_SUCH_PLACE, NOT_OPEN};
use live_board::{Keyboard, Registers};
use mcs48_core::Count;
use std::alloc::Global;

/// How many columns the matrix has.
const COLUMNS: u8 = 12;

/// How many bytes of data memory the processor has.
const CELLS: u8 = 128;

/// The processor: if it is, with the byte of the program there; its registers, flags and port latches.
#[repr(C)]
#[derive(Drop)]
pub struct Processor {
    pub counter: u16,
    pub byte: u8,
    pub a: u8,
    pub carry: bool,
    pub half_carry: bool,
    pub f0: bool,
    pub f1: bool,
    pub register_bank: bool,
    pub memory_bank: bool,
    pub stack: u8,
    pub t: u8,
    pub prescaler: u8,
    pub counts: u8,
    pub timer_flag: bool,
    pub external_on: bool,
    pub timer_on: bool,
    pub request: bool,
    pub service: bool,
    pub p1: u8,
    pub p2: u8,
    pub bus: u8,
}

/// How the timer runs, as a number: 0 not at all, 1 on the machine cycles, 2 on the falls of T1.
fn counts(run: Count) -> u8
    ensures { result ≡ count_of run }
{
    match run {
        Count::Off => 0,
        Count::Timer => 1,
        Count::Counter => 2,
    }
}

/// The processor of a keyboard.
fn processor_shown(keyboard: &Keyboard) -> Processor
    ensures { result ≡ processor_of keyboard.now.joint }
{
    let place = keyboard.place();
    let mcu = keyboard.processor();
    Processor {
        counter: place.pc,
        byte: place.byte,
        a: mcu.a,
        carry: mcu.psw >> 7 & 1 == 1,
        half_carry: mcu.psw >> 6 & 1 == 1,
        f0: mcu.psw >> 5 & 1 == 1,
        f1: mcu.f1,
        register_bank: mcu.psw >> 4 & 1 == 1,
        memory_bank: mcu.mb,
        stack: mcu.psw % 8,
        t: mcu.t,
        prescaler: mcu.pre,
        counts: counts(mcu.run),
        timer_flag: mcu.tf,
        external_on: mcu.ext_on,
        timer_on: mcu.tim_on,
        request: mcu.rq,
        service: mcu.svc,
        p1: mcu.p1,
        p2: mcu.p2,
        bus: mcu.bus,
    }
}

/// A cell of data memory, if there is one of this number.
fn put_cell(keyboard: &Keyboard, number: u8, byte: &mut u8) -> i32
    ensures byte { byte.new ≡ cell_after number keyboard.now byte.old }
    ensures status { result ≡ cell_status number }
{
    if number < CELLS {
        *byte = keyboard.processor().ram[number as usize];
        DONE
    } else {
        NO_SUCH_CELL
    }
}

/// The keys of a column, if there is one of this number.
fn put_column(keyboard: &Keyboard, number: u8, rows: &mut u8) -> i32
    ensures rows { rows.new ≡ column_after number keyboard.now rows.old }
    ensures status { result ≡ column_status number }
{
    if number < COLUMNS {
        *rows = keyboard.rows(number);
        DONE
    } else {
        NO_SUCH_PLACE
    }
}

/// The controller's registers. The byte of the output buffer isn't taken.
#[unsafe(no_mangle)]
pub extern "C" fn kbd48_look(alloc: Global, handle: &mut Handle, registers: &mut Registers) -> i32
    ensures registers { registers.new
        ≡ shown_of (λ k. registers_of k.joint.outside.desk.port.core) handle.old.keyboard registers.old }
    ensures unchanged { handle.new.keyboard ≡ handle.old.keyboard }
    ensures status { result ≡ held_status done handle.old.keyboard }
{
    match handle.take(alloc) {
        Some(keyboard) => {
            *registers = keyboard.registers();
            *handle = Handle::holding(keyboard);
            DONE
        }
        None => NOT_OPEN,
    }
}

/// The keyboard's processor.
#[unsafe(no_mangle)]
pub extern "C" fn kbd48_inside(alloc: Global, handle: &mut Handle, shown: &mut Processor) -> i32
    ensures shown { shown.new ≡ shown_of (λ k. processor_of k.joint) handle.old.keyboard shown.old }
    ensures unchanged { handle.new.keyboard ≡ handle.old.keyboard }
    ensures status { result ≡ held_status done handle.old.keyboard }
{
    match handle.take(alloc) {
        Some(keyboard) => {
            *shown = processor_shown(&keyboard);
            *handle = Handle::holding(keyboard);
            DONE
        }
        None => NOT_OPEN,
    }
}

/// A byte of the processor's data memory, of which there are 128.
#[unsafe(no_mangle)]
pub extern "C" fn kbd48_cell(alloc: Global, handle: &mut Handle, number: u8, byte: &mut u8) -> i32
    ensures byte { byte.new ≡ shown_of (λ k. cell_after number k byte.old) handle.old.keyboard byte.old }
    ensures unchanged { handle.new.keyboard ≡ handle.old.keyboard }
    ensures status { result ≡ held_status (cell_status number) handle.old.keyboard }
{
    match handle.take(alloc) {
        Some(keyboard) => {
            let status = put_cell(&keyboard, number, byte);
            *handle = Handle::holding(keyboard);
            status
        }
        None => NOT_OPEN,
    }
}

/// The keys of a column, of which there are 12: bit k is row k, 0 for down.
#[unsafe(no_mangle)]
pub extern "C" fn kbd48_column(alloc: Global, handle: &mut Handle, number: u8, rows: &mut u8) -> i32
    ensures rows { rows.new ≡ shown_of (λ k. column_after number k rows.old) handle.old.keyboard rows.old }
    ensures unchanged { handle.new.keyboard ≡ handle.old.keyboard }
    ensures status { result ≡ held_status (column_status number) handle.old.keyboard }
{
    match handle.take(alloc) {
        Some(keyboard) => {
            let status = put_column(&keyboard, number, rows);
            *handle = Handle::holding(keyboard);
            status
        }
        None => NOT_OPEN,
    }
}

/// How much waits: edges of keys for a step, at most 4, and words in the buffer of INT 09h, at most 15.
#[unsafe(no_mangle)]
pub extern "C" fn kbd48_waiting(
    alloc: Global,
    handle: &mut Handle,
    edges: &mut u8,
    words: &mut u8,
) -> i32
    ensures edges { edges.new ≡ shown_of (λ k. length k.due.edges.items) handle.old.keyboard edges.old }
    ensures words { words.new ≡ shown_of (λ k. length k.joint.outside.desk.bios.words) handle.old.keyboard words.old }
    ensures unchanged { handle.new.keyboard ≡ handle.old.keyboard }
    ensures status { result ≡ held_status done handle.old.keyboard }
{
    match handle.take(alloc) {
        Some(keyboard) => {
            *edges = keyboard.edges_waiting() as u8;
            *words = keyboard.words_waiting() as u8;
            *handle = Handle::holding(keyboard);
            DONE
        }
        None => NOT_OPEN,
    }
}
