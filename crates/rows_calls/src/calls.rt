//! A call of the program over a shelf and a sink in memory.

use app_words::Exit;
use io_edge::{MemShelf, MemSink};
use kbd48_app::kbd48;
use run_probes::{AddressProbe, CellProbe, LineProbe, Probe, RegisterProbe};
use std::alloc::{AllocError, Global};

/// The file `layout`: a keyboard with one key.
const LAYOUT: &[u8] = b"format = 1\n[[key]]\nkey = \"a\"\ncolumn = 0\nrow = 0\n";

/// What a call came to.
#[derive(Drop)]
pub struct Outcome {
    pub exit: Exit,
    pub sink: MemSink,
}

impl Outcome {
    /// The call ended so, and the sink took exactly this text.
    pub fn is(&self, exit: Exit, text: &str) -> bool {
        self.exit == exit && self.sink.taken() == text.as_bytes()
    }
}

/// A shelf with the layout and these files.
pub fn shelf_with(alloc: Global, named: &[(&str, &[u8])]) -> Result<MemShelf, AllocError> {
    let mut files = Vec::new(alloc);
    files.push((
        String::from_str(alloc, "layout")?,
        Vec::from_slice(alloc, LAYOUT)?,
    ))?;
    for (name, file) in named {
        files.push((
            String::from_str(alloc, name)?,
            Vec::from_slice(alloc, file)?,
        ))?;
    }
    Ok(MemShelf::new(files, Vec::new(alloc)))
}

/// A probe of each kind, in the order of the program.
pub fn all_probes(alloc: Global) -> Result<Vec<Box<dyn Probe>>, AllocError> {
    let mut probes: Vec<Box<dyn Probe>> = Vec::new(alloc);
    probes.push(Box::new(alloc, AddressProbe::new())?)?;
    probes.push(Box::new(alloc, RegisterProbe::new())?)?;
    probes.push(Box::new(alloc, CellProbe::new())?)?;
    probes.push(Box::new(alloc, LineProbe::new())?)?;
    Ok(probes)
}

/// Calls the program with these words, files and probes, over this sink.
pub fn call(
    alloc: Global,
    words: &[&str],
    named: &[(&str, &[u8])],
    mut sink: MemSink,
    probes: &mut Vec<Box<dyn Probe>>,
) -> Result<Outcome, AllocError> {
    let mut all = Vec::new(alloc);
    for word in words {
        all.push(String::from_str(alloc, word)?)?;
    }
    let mut shelf = shelf_with(alloc, named)?;
    let exit = kbd48(alloc, &all, &mut shelf, &mut sink, probes);
    Ok(Outcome { exit, sink })
}
