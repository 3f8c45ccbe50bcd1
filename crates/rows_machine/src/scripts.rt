//! Scripts by hand: what they print with and without an armed probe, and each way to be wrong for any number of probes.

use debugger::{Debuggee, LineFault, Session, SessionFault, check_script};
use key_file::read_history;
use layout_reader::us84_layout;
use run_probes::{AddressProbe, Probe};
use std::alloc::{AllocError, Global};
use std::process::Abort;
use std::test::Fail;

/// A key that goes down and up.
const KEYS: &[u8] = b"400ms press a\n500ms release a\n600ms end\n";

/// What the lines of a script print in a session of the sample layout.
fn printed(
    rt: &impl Abort,
    alloc: Global,
    script: &[&str],
    probes: &mut Vec<Box<dyn Probe>>,
) -> Result<Vec<u8>, AllocError> {
    let layout = us84_layout(alloc)?;
    let Ok(history) = read_history(alloc, KEYS, &layout) else {
        panic!(rt; "no history")
    };
    let mut session = Session::new(alloc, Debuggee::of_layout(&layout, history))?;
    let mut out = Vec::new(alloc);
    for line in script {
        assert!(rt;
            session
                .line(alloc, line.as_bytes(), probes, &mut out)
                .is_ok(),
            "{line}"
        );
    }
    assert!(rt; session.line(alloc, b"step", probes, &mut out) == Err(LineFault::Bad));
    assert!(rt; session.line(alloc, b"tell 9", probes, &mut out) == Err(LineFault::NoProbe));
    Ok(out)
}

#[test]
fn steps_at_once_lead_where_single_steps_lead(rt: HostRuntime) -> Result<(), Fail> {
    let alloc = rt.alloc();
    let mut probes: Vec<Box<dyn Probe>> = Vec::new(alloc);
    probes.push(Box::new(alloc, AddressProbe::new())?)?;
    let at_once = printed(
        &rt,
        alloc,
        &["step 91966", "show", "step 1", "show"],
        &mut probes,
    )?;
    let singly = printed(
        &rt,
        alloc,
        &["arm 0 FFF 00", "step 91966", "show", "step 1", "show"],
        &mut probes,
    )?;
    assert!(rt; singly.as_slice().starts_with(b"armed 0\nat 91966\n"));
    assert!(rt; singly.as_slice().ends_with(at_once.as_slice()));
    Ok(())
}

/// What is answered of a script: nothing against it, or a line and a fault.
#[derive(Clone, Copy, Debug, PartialEq, Eq, Drop)]
enum Gives {
    Right,
    Wrong(u32, u8),
    Nothing,
}

use Gives::{Right, Wrong};

/// What is answered of a script for so many probes.
fn given(script: &str, probes: usize) -> Gives {
    if script.len() > 65536 {
        return Gives::Nothing;
    }
    match check_script(script.as_bytes(), probes) {
        Ok(()) => Right,
        Err(SessionFault::Line { line, number }) => Wrong(line, number),
    }
}

/// Asserts what is answered of scripts.
fn check(rt: &impl Abort, cases: &[(&str, usize, Gives)]) {
    for (script, probes, gives) in cases {
        assert!(rt; given(script, *probes) == *gives, "{script}");
    }
}

#[test]
fn each_line_has_one_form(rt: HostRuntime) {
    check(
        &rt,
        &[
            ("", 0, Right),
            ("step 0\nstep 000000001\nstep 999999999\n", 0, Right),
            ("go 1\r\n \t\n\nshow\r\nram 7f\nram 7F", 0, Right),
            ("arm 2 fFf 0A\ntell 2\ndrop 2\n", 3, Right),
            ("step\n", 3, Wrong(1, 1)),
            ("step 1 \n", 3, Wrong(1, 1)),
            ("step  1\n", 3, Wrong(1, 1)),
            ("step 1234567890\n", 3, Wrong(1, 1)),
            ("go -1\n", 3, Wrong(1, 1)),
            ("show\n show\n", 3, Wrong(2, 1)),
            ("show 1\n", 3, Wrong(1, 1)),
            ("Show\n", 3, Wrong(1, 1)),
            ("\n\nram 80\n", 3, Wrong(3, 1)),
            ("ram 7\n", 3, Wrong(1, 1)),
        ],
    );
}

#[test]
fn a_line_names_a_probe_that_is_there(rt: HostRuntime) {
    check(
        &rt,
        &[
            ("arm 0 07F 0\n", 3, Wrong(1, 1)),
            ("arm 0 7F 00\n", 3, Wrong(1, 1)),
            ("arm 0 07F\n", 3, Wrong(1, 1)),
            ("arm 3 07F\n", 3, Wrong(1, 1)),
            ("arm 3 07F 00\n", 3, Wrong(1, 2)),
            ("tell 3\nstep\n", 3, Wrong(1, 2)),
            ("step\ntell 3\n", 3, Wrong(1, 1)),
            ("drop 0\ndrop 1\ndrop 0\n", 3, Right),
            ("drop 0\ndrop 1\ndrop 1\n", 3, Wrong(3, 2)),
            ("drop 0\n", 0, Wrong(1, 2)),
            ("step 0\ndrop 1\nram 00\ntell 2", 3, Wrong(4, 2)),
        ],
    );
}
