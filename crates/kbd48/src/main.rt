//! `kbd48`: the program. It makes the real shelf and the real sink, hands the words after the program's name to the
//! top call, and ends with its status.
#![tactic(auto)]

use app_words::Exit;
use io_edge::{FileShelf, StreamSink};
use kbd48_app::kbd48;
use run_probes::{AddressProbe, CellProbe, LineProbe, Probe, RegisterProbe};
use std::process::ExitCode;
use std::{env, io};

/// The words after the program's name. An error if there is no memory for them, or if one of them is no UTF-8
/// text.
fn words_of(rt: &HostRuntime) -> io::Result<Vec<String>> {
    let mut words = Vec::new(rt.alloc());
    for word in env::args(rt)?.skip(1) {
        words.push(word)?;
    }
    Ok(words)
}

fn main(rt: HostRuntime) -> ExitCode {
    let words = match words_of(&rt) {
        Ok(words) => words,
        // No form has such a word. No words at all have no form either, so they are refused in the same way.
        Err(fault) if fault.kind() == io::ErrorKind::InvalidData => Vec::new(rt.alloc()),
        Err(_) => return ExitCode::from(Exit::Memory.status()),
    };
    let mut probes: Vec<Box<dyn Probe>> = Vec::new(rt.alloc());
    // A function that makes a boxed `dyn` and hands it out isn't allowed, so the four are made here.
    let (Ok(address), Ok(register), Ok(cell), Ok(line)) = (
        Box::new(rt.alloc(), AddressProbe::new()),
        Box::new(rt.alloc(), RegisterProbe::new()),
        Box::new(rt.alloc(), CellProbe::new()),
        Box::new(rt.alloc(), LineProbe::new()),
    ) else {
        return ExitCode::from(Exit::Memory.status());
    };
    if probes.push(address).is_err()
        || probes.push(register).is_err()
        || probes.push(cell).is_err()
        || probes.push(line).is_err()
    {
        return ExitCode::from(Exit::Memory.status());
    }
    let mut shelf = FileShelf::new(&rt);
    let mut out = StreamSink::new(io::writer(&rt));
    let exit = kbd48(rt.alloc(), &words, &mut shelf, &mut out, &mut probes);
    ExitCode::from(exit.status())
}
