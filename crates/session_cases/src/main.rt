//! Runs the cases that lie in the working directory, and prints a line for each.
#![tactic(auto)]

use crate::case::Case;
use crate::difference::first_difference;
use crate::fault::CaseError;
use crate::folder::Folder;
use crate::shown::run;
use std::io;
use std::io::Print;
use std::process::ExitCode;
use std::rt::Files;

mod case;
mod difference;
mod expected;
mod fault;
mod folder;
mod outside;
mod shown;

fn main(rt: HostRuntime) -> anyhow::Result<ExitCode> {
    program(&rt)
}

/// Runs each case, and says of each file that is of no case that it is. It ends with 0 where every
/// case was as expected and there was no such file, and else with 1.
fn program<R: Files + Print + AllocGlobal + Clone + Drop>(rt: &R) -> anyhow::Result<ExitCode> {
    let folder = Folder::read(rt)?;
    for file in folder.strays.as_slice() {
        println!(rt; "{file}: a file of no case")?;
    }
    let passed = count_passed(rt, folder.cases.as_slice())?;
    let total = folder.cases.len();
    println!(rt; "{total} cases, {passed} as expected")?;
    if passed == total && folder.strays.is_empty() {
        Ok(ExitCode::SUCCESS)
    } else {
        Ok(ExitCode::FAILURE)
    }
}

/// Runs the cases of these names, and counts those that were as expected.
fn count_passed<R: Files + Print + AllocGlobal>(rt: &R, names: &[String]) -> io::Result<usize> {
    let mut passed = 0usize;
    for name in names {
        if is_as_expected(rt, name.as_str())? {
            passed = passed.saturating_add(1);
        }
    }
    Ok(passed)
}

/// Runs the case of this name, and prints what came of it.
fn is_as_expected<R: Files + Print + AllocGlobal>(rt: &R, name: &str) -> io::Result<bool> {
    match failure_of(rt, name) {
        Ok(None) => {
            println!(rt; "{name}: as expected")?;
            Ok(true)
        }
        Ok(Some(failure)) => {
            println!(rt; "{name}: {failure}")?;
            Ok(false)
        }
        Err(fault) => {
            println!(rt; "{name}: {fault}")?;
            Ok(false)
        }
    }
}

/// How the run of the case of this name differs from what is expected of it, in words.
fn failure_of<R: Files + AllocGlobal>(rt: &R, name: &str) -> Result<Option<String>, CaseError> {
    let case = Case::read(rt, name)?;
    let shown = run(rt.alloc(), &case)?;
    match first_difference(&case.expected, &shown) {
        None => Ok(None),
        Some(difference) => Ok(Some(format!(in rt.alloc(); "{difference}")?)),
    }
}
