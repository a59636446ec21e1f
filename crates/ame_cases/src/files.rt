//! The files of cases.

use crate::fault::Fault;
use ame_io::{ReadAllFail, StdSource, read_all};
use std::fs;
use std::rt::Files;

/// Returns the file of this name, or those of a folder whose names end in `.case`, in order of their names.
pub fn files_of<R: Files + AllocGlobal + Clone + Drop>(
    rt: &R,
    name: &str,
) -> Result<Vec<String>, Fault> {
    let mut files = Vec::new(rt.alloc());
    if !fs::metadata(rt, name)?.is_dir() {
        files.push(String::from_str(rt.alloc(), name)?)?;
        return Ok(files);
    }
    for entry in fs::read_dir(rt, name)? {
        let entry = entry?;
        let file = entry.file_name();
        if file.ends_with(".case") {
            files.push(format!(in rt.alloc(); "{name}/{file}")?)?;
        }
    }
    files.sort()?;
    Ok(files)
}

/// Returns the text of a file.
pub fn text_of<R: Files + AllocGlobal>(rt: &R, file: &str) -> Result<String, Fault> {
    let bytes = match read_all(rt.alloc(), &mut StdSource::new(fs::open(rt, file)?)) {
        Ok(bytes) => bytes,
        Err(ReadAllFail::ReadFault) => return Err(Fault::Ends),
        Err(ReadAllFail::TooLong) => return Err(Fault::Line(1, "the file is longer than 1 MiB")),
        Err(ReadAllFail::NoMemory) => return Err(Fault::NoMemory),
    };
    match String::from_utf8(bytes) {
        Ok(text) => Ok(text),
        Err(_) => Err(Fault::Line(1, "the file isn't UTF-8")),
    }
}
