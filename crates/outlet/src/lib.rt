// Writing an output. One that could not be written whole is told, also where that comes out only behind the last write.
#![tactic(auto)]

use std::fs;
use std::fs::{Files, OpenFile, OpenOptions};
use std::io::ErrorKind;

// Where the system shows what standard output goes into.
const OUTPUT: &str = "/proc/self/fd/1";

// Writes the bytes to standard output, and says whether they were written whole.
pub fn deliver(rt: &(impl Print + Files), bytes: &[u8]) -> bool {
    if rt.write_all(bytes).is_err() {
        return false;
    }
    is_kept(rt)
}

// Whether what was written is kept, where standard output goes into a file. Some failures, as of a file that lies on another
// machine, come only when the file is asked to keep its bytes. Nothing more is known of one that cannot be asked.
fn is_kept(files: &impl Files) -> bool {
    if !goes_into_file(files) {
        return true;
    }
    let Ok(file) = OpenOptions::new().write(true).open(files, OUTPUT) else {
        return true;
    };
    match file.sync_all() {
        Ok(()) => true,
        Err(e) => e.kind() == ErrorKind::InvalidInput,
    }
}

// A pipe or a terminal has nothing to keep, and a pipe is not opened, since that waits for a reader.
fn goes_into_file(files: &impl Files) -> bool {
    match fs::metadata(files, OUTPUT) {
        Ok(about) => about.is_file(),
        Err(_) => false,
    }
}
