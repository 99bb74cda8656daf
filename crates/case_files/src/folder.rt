//! The files of cases that lie in a folder.

use crate::case::CaseFile;
use crate::fault::CaseFault;
use crate::reading::cases_of;
use std::fs;
use std::rt::Files;

/// The names in a folder that end with `.cases`, in the order of their bytes.
pub fn case_names<R: Files + AllocGlobal + Clone + Drop>(
    rt: &R,
    folder: &str,
) -> Result<Vec<String>, CaseFault> {
    let mut names = Vec::new(rt.alloc());
    for entry in fs::read_dir(rt, folder)? {
        let entry = entry?;
        let name = entry.file_name();
        if name.ends_with(".cases") {
            names.push(String::from_str(rt.alloc(), name)?)?;
        }
    }
    names.sort()?;
    Ok(names)
}

/// The cases of a file.
pub fn read_cases<R: Files + AllocGlobal>(rt: &R, path: &str) -> Result<CaseFile, CaseFault> {
    let text = fs::read(rt, path)?;
    cases_of(rt.alloc(), text.as_slice())
}
