//! Whole commands over files in memory.

use crate::probes::{Holder, are_ready, rule_of};
use machine_probe::{Counter, Probe};
use std::alloc::{AllocError, Global};
use std::rc::Rc;
use wsym_io::{MemShelf, MemSink, ShelfFile};
use wsymb_top::wsymb;

/// Which call of the shelf fails, how many bytes the sink takes a call, and which of its calls fails.
#[derive(Clone, Copy)]
pub struct Faults {
    pub shelf_call: u64,
    pub most: usize,
    pub sink_call: u64,
}

/// No call fails that a command makes.
pub const NO_FAULTS: Faults = Faults {
    shelf_call: u64::MAX,
    most: 4096,
    sink_call: u64::MAX,
};

/// These files once more.
pub fn copies(alloc: Global, files: &[ShelfFile]) -> Result<Vec<ShelfFile>, AllocError> {
    let mut copies = Vec::new(alloc);
    for file in files {
        copies.push(ShelfFile {
            name: String::from_str(alloc, file.name.as_str())?,
            bytes: file.bytes.as_slice().to_vec(alloc)?,
        })?;
    }
    Ok(copies)
}

/// The files of that name alone, cut to a length.
pub fn cut_files(
    alloc: Global,
    files: &[ShelfFile],
    name: &str,
    length: usize,
) -> Result<Vec<ShelfFile>, AllocError> {
    let mut cut = Vec::new(alloc);
    for file in files {
        if file.name.as_str() == name {
            let bytes = file.bytes.as_slice().get(..length).unwrap_or(&[]);
            cut.push(ShelfFile {
                name: String::from_str(alloc, name)?,
                bytes: bytes.to_vec(alloc)?,
            })?;
        }
    }
    Ok(cut)
}

/// The words of a text, with single spaces between them. An empty text has none.
fn words_of(alloc: Global, text: &str) -> Result<Vec<String>, AllocError> {
    let mut words = Vec::new(alloc);
    if !text.is_empty() {
        for word in text.split(' ') {
            words.push(String::from_str(alloc, word)?)?;
        }
    }
    Ok(words)
}

/// What a command writes, and its status.
pub fn answer(
    alloc: Global,
    files: Vec<ShelfFile>,
    words: &str,
    faults: &Faults,
    probes: Vec<Box<dyn Probe>>,
) -> Result<String, AllocError> {
    let words = words_of(alloc, words)?;
    let mut shelf = MemShelf::new(files, vec![in alloc; faults.shelf_call]?);
    let mut sink = MemSink::new(alloc, faults.most.max(1), vec![in alloc; faults.sink_call]?);
    if !are_ready(probes.as_slice()) {
        return String::from_str(alloc, "the probes have counted too much");
    }
    let status = wsymb(alloc, &words, &mut shelf, &mut sink, probes);
    let text = String::from_utf8_lossy(alloc, sink.written())?;
    format!(in alloc; "{text}status {status}")
}

/// Prints how many hold a token that a probe holds too, before a command and after it.
pub fn held_line(
    rt: HostRuntime,
    line: &str,
    files: &[ShelfFile],
    words: &str,
) -> anyhow::Result<()> {
    let alloc = rt.alloc();
    let token = Rc::new(alloc, 0u32)?;
    let mut probes: Vec<Box<dyn Probe>> = Vec::new(alloc);
    let holder = Holder {
        counter: Counter::new(rule_of("steps")),
        _token: token.clone()?,
    };
    probes.push(Box::new(alloc, holder)?)?;
    let before = Rc::strong_count(&token);
    answer(alloc, copies(alloc, files)?, words, &NO_FAULTS, probes)?;
    let after = Rc::strong_count(&token);
    println!(rt; "{line}: {before} and then {after}")?;
    Ok(())
}
