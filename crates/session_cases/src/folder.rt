use crate::case::Part;
use std::rt::Files;
use std::{fs, io};

/// What lies in the working directory, in the order of names.
#[derive(Debug, Drop)]
pub(crate) struct Folder {
    /// The names of the cases: those of the files that end in `.script`, without that.
    pub(crate) cases: Vec<String>,
    /// The files that are of no case.
    pub(crate) strays: Vec<String>,
}

impl Folder {
    /// Lists the working directory.
    pub(crate) fn read<R: Files + AllocGlobal + Clone + Drop>(rt: &R) -> io::Result<Folder> {
        let files = file_names(rt)?;
        let mut cases = Vec::new(rt.alloc());
        for file in files.as_slice() {
            if let Some((name, Part::Script)) = Part::of_file(file.as_str()) {
                cases.push(String::from_str(rt.alloc(), name)?)?;
            }
        }
        cases.sort()?;
        let mut strays = files;
        strays.retain(|file| !is_of_a_case(file.as_str(), cases.as_slice()));
        Ok(Folder { cases, strays })
    }
}

/// The names of all that lies in the working directory, in order.
fn file_names<R: Files + AllocGlobal + Clone + Drop>(rt: &R) -> io::Result<Vec<String>> {
    let mut names = Vec::new(rt.alloc());
    for entry in fs::read_dir(rt, ".")? {
        names.push(String::from_str(rt.alloc(), entry?.file_name())?)?;
    }
    names.sort()?;
    Ok(names)
}

/// Whether the file is one of a case of these names.
fn is_of_a_case(file: &str, cases: &[String]) -> bool {
    match Part::of_file(file) {
        Some((name, _)) => cases.iter().any(|case| case.as_str() == name),
        None => false,
    }
}
