//! Sinks that take a part of what is put, and sinks whose puts fail.

ghost use Rattle.std.specs.Prelude.{◌<◌};

use crate::calls::{Outcome, all_probes, call};
use app_words::Exit;
use io_edge::MemSink;
use std::alloc::{AllocError, Global};
use std::test::Fail;

/// The files of the calls: images, key files and scripts. The image `half` adds with a half carry; `lamp` lights a lamp in
/// cycles 0 and 4,096 and is stuck after that; `pulls` pulls both wires and is stuck; `fills` writes a cell. In the dump
/// `dump` an edge comes before the first fault.
static FILES: [(&str, &[u8]); 11] = [
    ("half", b":04000000237F030156\n:00000001FF\n"),
    (
        "lamp",
        b":100000009AEFBB07BA00EA06EB048AFFBAEEEA0EE3\n:030010009AEF0163\n:00000001FF\n",
    ),
    ("pulls", b":090000009AFE9AFD8A018A0201B0\n:00000001FF\n"),
    ("fills", b":08000000232AA8B920A104067F\n:00000001FF\n"),
    ("keys", b"400ms press a\n500ms release a\n600ms end"),
    ("end0", b"0 end"),
    ("end3", b"3 end"),
    ("end400", b"400ms end"),
    ("ram7f", b"step 1\nram 7F\nstep 1\n"),
    ("ram20", b"step 1\nram 20\nstep 1\n"),
    (
        "dump",
        b"$timescale 1 us $end $var wire 1 c clock $end $var wire 1 d data $end $enddefinitions $end\n#0 1c 1d #100 0c #140 1c #300 xd\n",
    ),
];

/// What `run` says of `keys`.
const LOG: &str = "64 port AA\n80 port 1E\n80 word 1E61\n100 port 9E\n";

/// What is before a trace's first change.
const HEADER: &str =
    "$timescale 100 ns $end\n$scope module kbd $end\n$var wire 1 c clock $end\n$var wire 1 d data $end\n$upscope $end\n$enddefinitions $end\n#0\n1c\n1d\n";

/// What `board` says of `lamp` up to `end3`.
const STUCK: &str = "-4096 lights 1\n-480 lights 0\n0 lights 1\nstuck: pc 012 byte 01\n";

/// What `capture` says of `dump`, line by line.
static CAPTURED: [&str; 16] = [
    "100.000 edge without a start bit\n",
    "right frames: 0\n",
    "wrong frames: 0\n",
    "broken off: 0\n",
    "not whole: 0\n",
    "edges without a start bit: 1\n",
    "pulses too short: 0\n",
    "holds: 0\n",
    "holds with a request: 0\n",
    "times outside the limits: 0\n",
    "least clock period: 0.000\n",
    "mean clock period: 0.000\n",
    "greatest clock period: 0.000\n",
    "breaks without a code: 0\n",
    "bytes asked for three times: 0\n",
    "input: vcd line 2 fault 9\n",
];

/// The words, the bytes that the sink has room for, the puts that fail, and what the sink has taken in the end.
#[derive(Drop)]
struct Case {
    words: &'static [&'static str],
    room: usize,
    fails: &'static [u32],
    exit: Exit,
    taken: &'static str,
}

static CASES: [Case; 18] = [
    // The second line of the state fails; and room for five bytes.
    Case {
        words: &["step", "half", "2"],
        room: 4096,
        fails: &[2],
        exit: Exit::Write,
        taken: "pc 004 a 80 psw 48 f1 0 mb 0\n",
    },
    Case {
        words: &[],
        room: 5,
        fails: &[],
        exit: Exit::Write,
        taken: "words",
    },
    // The first put fails, the second, and so on, up to the first run without a failure: a put a line.
    Case {
        words: &["run", "layout", "keys"],
        room: 4096,
        fails: &[1],
        exit: Exit::Write,
        taken: "",
    },
    Case {
        words: &["run", "layout", "keys"],
        room: 4096,
        fails: &[2],
        exit: Exit::Write,
        taken: "64 port AA\n",
    },
    Case {
        words: &["run", "layout", "keys"],
        room: 4096,
        fails: &[3],
        exit: Exit::Write,
        taken: "64 port AA\n80 port 1E\n",
    },
    Case {
        words: &["run", "layout", "keys"],
        room: 4096,
        fails: &[4],
        exit: Exit::Write,
        taken: "64 port AA\n80 port 1E\n80 word 1E61\n",
    },
    Case {
        words: &["run", "layout", "keys"],
        room: 4096,
        fails: &[5],
        exit: Exit::Done,
        taken: LOG,
    },
    // The same of a program that is stuck in the end: last fails the line of the byte that is no instruction.
    Case {
        words: &["board", "lamp", "layout", "end3"],
        room: 4096,
        fails: &[1],
        exit: Exit::Write,
        taken: "",
    },
    Case {
        words: &["board", "lamp", "layout", "end3"],
        room: 4096,
        fails: &[2],
        exit: Exit::Write,
        taken: "-4096 lights 1\n",
    },
    Case {
        words: &["board", "lamp", "layout", "end3"],
        room: 4096,
        fails: &[3],
        exit: Exit::Write,
        taken: "-4096 lights 1\n-480 lights 0\n",
    },
    Case {
        words: &["board", "lamp", "layout", "end3"],
        room: 4096,
        fails: &[4],
        exit: Exit::Write,
        taken: "-4096 lights 1\n-480 lights 0\n0 lights 1\n",
    },
    // Room for a part of the log: the run ends there, and not where it would be stuck.
    Case {
        words: &["board", "lamp", "layout", "end3"],
        room: 20,
        fails: &[],
        exit: Exit::Write,
        taken: "-4096 lights 1\n-480 ",
    },
    // The header of a trace has nine lines; the tenth put is that of the first change.
    Case {
        words: &["board", "pulls", "layout", "end0", "--trace"],
        room: 4096,
        fails: &[1],
        exit: Exit::Write,
        taken: "",
    },
    Case {
        words: &["board", "pulls", "layout", "end0", "--trace"],
        room: 4096,
        fails: &[10],
        exit: Exit::Write,
        taken: HEADER,
    },
    Case {
        words: &["trace", "layout", "end400"],
        room: 8192,
        fails: &[10],
        exit: Exit::Write,
        taken: HEADER,
    },
    Case {
        words: &["trace", "layout", "end400"],
        room: 8192,
        fails: &[11],
        exit: Exit::Write,
        taken: "$timescale 100 ns $end\n$scope module kbd $end\n$var wire 1 c clock $end\n$var wire 1 d data $end\n$upscope $end\n$enddefinitions $end\n#0\n1c\n1d\n#3386000\n",
    },
    // In the middle of a script's text.
    Case {
        words: &["debug", "layout", "keys", "ram7f"],
        room: 4096,
        fails: &[2],
        exit: Exit::Write,
        taken: "at 1\n",
    },
    Case {
        words: &["probe", "fills", "layout", "end0", "ram20"],
        room: 4096,
        fails: &[2],
        exit: Exit::Write,
        taken: "at 1\n",
    },
];

#[test]
fn a_put_that_fails_ends_the_call(rt: HostRuntime) -> Result<(), Fail> {
    let alloc = rt.alloc();
    for (number, case) in CASES.iter().enumerate() {
        let sink = MemSink::new(alloc, case.room, Vec::from_slice(alloc, case.fails)?)?;
        let outcome = call(alloc, case.words, &FILES, sink, &mut all_probes(alloc)?)?;
        assert!(rt; outcome.is(case.exit, case.taken), "case {number}");
    }
    Ok(())
}

/// What the words come to over a sink that takes at most so many bytes a put, of which the puts with these numbers fail.
fn over_short(
    alloc: Global,
    words: &[&str],
    fails: &[u32],
    at_most: u32,
) -> Result<Outcome, AllocError>
    requires { 0 < at_most }
{
    let sink = MemSink::short(alloc, 4096, Vec::from_slice(alloc, fails)?, at_most)?;
    call(alloc, words, &FILES, sink, &mut all_probes(alloc)?)
}

#[test]
fn a_sink_that_takes_a_byte_a_put_has_the_whole_text(rt: HostRuntime) -> Result<(), Fail> {
    let alloc = rt.alloc();
    assert!(rt; over_short(alloc, &["run", "layout", "keys"], &[], 1)?.is(Exit::Done, LOG));
    let words = ["board", "lamp", "layout", "end3"];
    assert!(rt; over_short(alloc, &words, &[], 1)?.is(Exit::Stuck, STUCK));
    Ok(())
}

/// The third put of five bytes fails.
#[test]
fn a_line_is_cut_off_where_a_put_of_its_rest_fails(rt: HostRuntime) -> Result<(), Fail> {
    let outcome = over_short(rt.alloc(), &["sample", "1"], &[3], 5)?;
    assert!(rt; outcome.is(Exit::Write, "events 3 p"));
    Ok(())
}

/// The numbers count puts, not lines.
#[test]
fn each_put_of_a_byte_fails_in_turn(rt: HostRuntime) -> Result<(), Fail> {
    let text = "port 1E\nword 1E61\n";
    let mut number = 0u32;
    for size in 0..=text.len() {
        number = number.wrapping_add(1);
        let outcome = over_short(rt.alloc(), &["words", "1C"], &[number], 1)?;
        let exit = if size < text.len() {
            Exit::Write
        } else {
            Exit::Done
        };
        assert_eq!(rt; outcome.exit, exit, "put {number}");
        assert!(rt;
            text.as_bytes().get(..size) == Some(outcome.sink.taken()),
            "put {number}"
        );
    }
    Ok(())
}

/// A put a line. Last fails the line of the dump's fault.
#[test]
fn each_put_of_a_capture_fails_in_turn(rt: HostRuntime) -> Result<(), Fail> {
    let alloc = rt.alloc();
    let words = ["capture", "dump"];
    let mut text = Vec::new(alloc);
    let mut number = 0u32;
    for line in &CAPTURED {
        number = number.wrapping_add(1);
        let sink = MemSink::new(alloc, 4096, Vec::from_slice(alloc, &[number])?)?;
        let outcome = call(alloc, &words, &FILES, sink, &mut all_probes(alloc)?)?;
        assert_eq!(rt; outcome.exit, Exit::Write, "put {number}");
        assert!(rt; outcome.sink.taken() == text.as_slice(), "put {number}");
        text.extend_from_slice(line.as_bytes())?;
    }
    let whole = over_short(alloc, &words, &[], 1)?;
    assert_eq!(rt; whole.exit, Exit::Input);
    assert!(rt; whole.sink.taken() == text.as_slice());
    Ok(())
}
