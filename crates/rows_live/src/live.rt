//! Worked examples of a keyboard that runs as one goes, as tables. The program is the kernel without a layout.

use crate::playing::play;
use crate::rows::Row::{
    Alike, Column, ComesBack, Copies, Cycle, Drives, Flip, Hears, Interrupt, Items, Key, Lights,
    Loads, Looks, Lost, NoKey, NoRead, NoWrite, Passes, Program, Quiet, Read, Ready, Refuses,
    Rises, RisesIn, Rose, Run, RunTo, Short, Shows, Status, Statuses, Steps, Sticks, Swap,
    Together, Waiting, Write,
};
use crate::rows::{NOTHING, NOTHING_MET, SECOND};
use board_terms::Transfer;
use ctl_core::Port::{P60, P64};
use live_board::{Met, Refused, Registers, RunEnd, Stops, Unloaded, What};
use mcs48_core::Stuck;
use pc_tables::Item;
use std::alloc::AllocError;

/// What passes when the keyboard sends AA.
const SENDS_AA: What = What::Passed(Transfer {
    from_host: false,
    byte: 0xaa,
});

/// What passes when the keyboard sends EE.
const SENDS_EE: What = What::Passed(Transfer {
    from_host: false,
    byte: 0xee,
});

/// What passes when the controller sends EE.
const GIVES_EE: What = What::Passed(Transfer {
    from_host: true,
    byte: 0xee,
});

/// What passes when the controller sends FE.
const GIVES_FE: What = What::Passed(Transfer {
    from_host: true,
    byte: 0xfe,
});

#[test]
fn the_keyboard_tests_itself_and_is_read_and_written(rt: HostRuntime) -> Result<(), AllocError> {
    play(
        &rt,
        rt.alloc(),
        &[
            Cycle(4097, 4099),
            Interrupt(false),
            Lights(0),
            RisesIn(130_001, 134_999),
            Interrupt(true),
            Status(0x15),
            Read(0xaa),
            Interrupt(false),
            Write(P60, 0xed),
            Rises,
            Read(0xfa),
            Write(P60, 2),
            Rises,
            Read(0xfa),
            Run(8192, true, RunEnd::Passed),
            Lights(2),
        ],
    )
}

#[test]
fn a_fifth_edge_and_a_second_write_find_no_room(rt: HostRuntime) -> Result<(), AllocError> {
    play(
        &rt,
        rt.alloc(),
        &[
            Key(true),
            Key(false),
            Key(true),
            Key(false),
            NoKey(true, Refused::Full),
            NoKey(false, Refused::Full),
            Passes(1, 1, 2),
            Key(true),
            Write(P60, 0xff),
            Write(P60, 0xff),
            NoWrite(P60, 0xff, Refused::Full),
        ],
    )
}

/// The controller's registers at stamp 0.
const AT_FIRST: Registers = Registers {
    status: 0x14,
    output: 0,
    command_byte: 0x45,
    output_port: 0xcf,
};

#[test]
fn looks_change_nothing_and_show_what_the_ports_would_read(
    rt: HostRuntime,
) -> Result<(), AllocError> {
    play(
        &rt,
        rt.alloc(),
        &[
            Shows(AT_FIRST),
            Rises,
            Shows(Registers {
                status: 0x15,
                output: 0xaa,
                ..AT_FIRST
            }),
            Looks,
            Program(0, 0x35),
            Program(7, 0x23),
            Program(0x3ce, 49),
            Program(0x3f2, 0),
            Key(true),
            Waiting(1, 0),
            Column(0, 0xff),
            Column(12, 0xff),
            Run(1, false, RunEnd::Passed),
            Column(0, 0xfe),
            Waiting(0, 0),
        ],
    )
}

#[test]
fn what_is_said_is_handed_out_in_order_and_rises_are_counted(
    rt: HostRuntime,
) -> Result<(), AllocError> {
    play(
        &rt,
        rt.alloc(),
        &[
            Quiet,
            Run(SECOND, false, RunEnd::Passed),
            Rose(1),
            Hears(SENDS_AA),
            Quiet,
            Write(P64, 0xaa),
            Rose(0),
            Read(0xaa),
            Rose(1),
            Interrupt(true),
            Hears(What::Said(Item::Read(0xaa))),
            Read(0x55),
            Rose(0),
            Interrupt(false),
            Write(P64, 0xfe),
            Passes(64, 64, 65),
            Hears(What::Said(Item::Read(0x55))),
            Hears(What::Said(Item::Pulse(0x0e))),
            Quiet,
            Statuses(70),
            Items(64),
            Lost(6),
            Quiet,
        ],
    )
}

#[test]
fn a_copy_goes_on_as_the_original_does_and_by_itself(rt: HostRuntime) -> Result<(), AllocError> {
    play(
        &rt,
        rt.alloc(),
        &[
            Rises,
            Key(true),
            Copies,
            Together,
            Swap,
            Waiting(1, 0),
            Swap,
            Read(0xaa),
            Interrupt(false),
            Swap,
            Interrupt(true),
            Read(0xaa),
            Together,
            Swap,
            Alike(SECOND),
        ],
    )
}

#[test]
fn a_run_stops_for_what_it_is_asked_to(rt: HostRuntime) -> Result<(), AllocError> {
    play(
        &rt,
        rt.alloc(),
        &[
            Steps(7, 7, 14),
            RunTo(
                Stops {
                    wires: true,
                    ..NOTHING
                },
                RunEnd::Met(Met {
                    wires: true,
                    ..NOTHING_MET
                }),
            ),
            RunTo(
                Stops {
                    rise: true,
                    ..NOTHING
                },
                RunEnd::Met(Met {
                    rise: true,
                    ..NOTHING_MET
                }),
            ),
            Swap,
            Rises,
            Together,
            Swap,
            Write(P64, 0xfe),
            RunTo(
                Stops {
                    item: true,
                    ..NOTHING
                },
                RunEnd::Passed,
            ),
            Read(0xaa),
            ComesBack,
        ],
    )
}

#[test]
fn a_ready_keyboard_has_its_answer_waiting(rt: HostRuntime) -> Result<(), AllocError> {
    play(
        &rt,
        rt.alloc(),
        &[
            Ready,
            Interrupt(true),
            Swap,
            Rises,
            Together,
            Swap,
            Read(0xaa),
        ],
    )
}

#[test]
fn a_loaded_keyboard_goes_on_as_the_saved_one(rt: HostRuntime) -> Result<(), AllocError> {
    play(
        &rt,
        rt.alloc(),
        &[
            // keys that wait, items that were lost, and a byte under way
            Ready,
            Statuses(70),
            Read(0xaa),
            Write(P60, 0xed),
            Run(700, false, RunEnd::Passed),
            Key(true),
            Loads(200),
        ],
    )
}

#[test]
fn other_bytes_are_refused_by_name(rt: HostRuntime) -> Result<(), AllocError> {
    play(
        &rt,
        rt.alloc(),
        &[
            Ready,
            Statuses(70),
            Read(0xaa),
            Write(P60, 0xed),
            Run(700, false, RunEnd::Passed),
            Key(true),
            Short,
            Refuses(0, 0, Unloaded::Format),
            Refuses(7, 2, Unloaded::Version),
            Refuses(125, 5, Unloaded::Counts),
            Refuses(165, 96, Unloaded::Keys),
            Refuses(41, 16, Unloaded::Processor),
            Refuses(111, 11, Unloaded::Link),
            Refuses(23, 1, Unloaded::State),
        ],
    )
}

#[test]
fn a_program_that_sticks_stays_where_it_is(rt: HostRuntime) -> Result<(), AllocError> {
    play(
        &rt,
        rt.alloc(),
        &[
            Sticks,
            Run(SECOND, false, RunEnd::Stuck(Stuck { pc: 2, byte: 1 })),
            Cycle(2, 2),
            NoRead(Refused::Early),
            NoKey(true, Refused::Early),
        ],
    )
}

#[test]
fn bytes_on_the_wires_are_handed_out_with_their_direction_and_noise_is_not_theirs(
    rt: HostRuntime,
) -> Result<(), AllocError> {
    play(
        &rt,
        rt.alloc(),
        &[
            Ready,
            Hears(SENDS_AA),
            Drives(false, true),
            Read(0xaa),
            Hears(What::Said(Item::Read(0xaa))),
            Flip(3),
            Write(P60, 0xee),
            Rises,
            Read(0xee),
            Hears(GIVES_EE),
            Hears(SENDS_EE),
            Hears(GIVES_FE),
            Hears(SENDS_EE),
            Hears(What::Said(Item::Read(0xee))),
            Quiet,
        ],
    )
}
