//! A program of cases: it tries each file that it is called with, or each of the folder in which it runs.

ghost use Rattle.std.specs.Prelude.{◌≡◌, []};

use crate::case::{Case, CaseFile};
use crate::fault::CaseFault;
use crate::folder::{case_names, read_cases};
use crate::report::Report;
use cm_base::NoMemory;
use std::alloc::Global;
use std::io::Write;
use std::rt::{Env, Files};
use std::{env, io};

/// The kinds of cases that a program tries.
pub trait Kinds {
    /// Tries a case: refuses one that isn't as its kind has it, and compares each answer with the one that is wanted.
    fn try_case(&self, alloc: Global, case: &Case, report: &mut Report) -> Result<(), CaseFault>;
}

/// Tries each case of a file. One that can't be tried is told, and the others are tried all the same.
fn try_cases<K: Kinds>(
    kinds: &K,
    alloc: Global,
    file: &CaseFile,
    report: &mut Report,
) -> Result<(), NoMemory> {
    for case in file.cases.as_slice() {
        report.count_case();
        match kinds.try_case(alloc, case, report) {
            Ok(()) => {}
            Err(fault) => report.refuse(fault)?,
        }
    }
    Ok(())
}

/// What is told of a file.
fn report_of<R: Files + AllocGlobal, K: Kinds>(
    rt: &R,
    kinds: &K,
    name: &str,
) -> Result<Report, NoMemory> {
    let mut report = Report::new(rt.alloc(), name)?;
    match read_cases(rt, name) {
        Err(fault) => report.refuse(fault)?,
        Ok(file) => try_cases(kinds, rt.alloc(), &file, &mut report)?,
    }
    report.end()?;
    Ok(report)
}

/// The words with which the program was called, without its own name.
fn called_with<R: Env + AllocGlobal>(rt: &R) -> Result<Vec<String>, CaseFault> {
    let mut given = Vec::new(rt.alloc());
    let mut words = env::args(rt)?;
    let _program = words.next();
    for word in words {
        given.push(word)?;
    }
    Ok(given)
}

/// The files to try.
fn files_of<R: Files + Env + AllocGlobal + Clone + Drop>(rt: &R) -> Result<Vec<String>, CaseFault> {
    let given = called_with(rt)?;
    if given.is_empty() {
        return case_names(rt, ".");
    }
    Ok(given)
}

/// Prints bytes, and answers whether all were taken.
fn is_printed<R: Print>(rt: &R, bytes: &[u8]) -> bool {
    let mut out = io::writer(rt);
    out.write_all(bytes).is_ok() && out.flush().is_ok()
}

/// Tries a file, prints what is told of it, and answers whether all is well.
fn is_well<R: Files + Print + AllocGlobal, K: Kinds>(
    rt: &R,
    kinds: &K,
    name: &str,
) -> Result<bool, NoMemory> {
    let report = report_of(rt, kinds, name)?;
    Ok(is_printed(rt, report.text()) && report.is_well())
}

/// Tries files, and answers whether all is well with each.
fn are_well<R: Files + Print + AllocGlobal, K: Kinds>(
    rt: &R,
    kinds: &K,
    names: &[String],
) -> Result<bool, NoMemory> {
    let mut are_well = true;
    for name in names {
        if !is_well(rt, kinds, name.as_str())? {
            are_well = false;
        }
    }
    Ok(are_well)
}

/// Tries files, and answers the status of the program. Without files nothing is well.
fn status_of<R: Files + Print + AllocGlobal, K: Kinds>(rt: &R, kinds: &K, names: &[String]) -> u8
    ensures { names.now ≡ [] → result ≡ 1 }
{
    if names.is_empty() {
        is_printed(rt, b"no file of cases lies here\n");
        return 1;
    }
    match are_well(rt, kinds, names) {
        Ok(true) => 0,
        Ok(false) => 1,
        Err(NoMemory) => 5,
    }
}

/// Tries the cases of the files with which the program was called, or else of each file `*.cases` in the folder where
/// it runs, and prints what differs and the counts. It answers the status of the program: 0 where all is well; 1 where
/// an answer differs, a file or a case can't be read or tried, or there is no file; 5 for want of memory.
pub fn run_cases<R: Files + Env + Print + AllocGlobal + Clone + Drop, K: Kinds>(
    rt: &R,
    kinds: &K,
) -> u8 {
    match files_of(rt) {
        Ok(names) => status_of(rt, kinds, names.as_slice()),
        Err(CaseFault::NoMemory) => 5,
        Err(_) => {
            is_printed(rt, b"the folder can't be read\n");
            1
        }
    }
}
