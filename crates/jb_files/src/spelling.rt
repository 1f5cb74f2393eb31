//! The names of the six files, in one spelling.

use crate::OpenFault;
use crate::names::Names;
use crate::real::RealFile;
use jb_bytes::OutOfMemory;
use std::alloc::Global;
use std::rt::Files;

const UPPER: [&str; 6] = ["JHR", "JDT", "JDX", "JLR", "JNL", "NDT"];

const LOWER: [&str; 6] = ["jhr", "jdt", "jdx", "jlr", "jnl", "ndt"];

/// The six files of a base, and whether it is known that they are spelled so.
pub(crate) type Spelled = ([RealFile; 6], bool);

/// The six files of a base, by the number of the file, in the spelling of the header file that is there. Where neither is, that
/// of the header files of the folder: lower case where all of them have it. Some file systems find one file by both. Where the system
/// does not tell which is there, the spelling is not known.
pub(crate) fn files<R: Files>(
    rt: &R,
    alloc: Global,
    folder: &Names,
    name: &str,
) -> Result<Spelled, OpenFault> {
    let upper = spelled(alloc, folder, name, &UPPER)?;
    let lower = spelled(alloc, folder, name, &LOWER)?;
    match (upper[0].standing(rt), lower[0].standing(rt)) {
        (Ok(None), Ok(None)) if !folder.is_lower_case(rt) => Ok((upper, true)),
        (Ok(None), Ok(_)) => Ok((lower, true)),
        (Ok(Some(_)), Ok(None)) => Ok((upper, true)),
        (Ok(first), Ok(second)) if first == second => Ok((upper, true)),
        (Ok(_), Ok(_)) => Err(OpenFault::TwoSpellings),
        _ => Ok((upper, false)),
    }
}

fn spelled(
    alloc: Global,
    folder: &Names,
    name: &str,
    extensions: &[&str; 6],
) -> Result<[RealFile; 6], OutOfMemory> {
    Ok([
        file(alloc, folder, name, extensions[0], false)?,
        file(alloc, folder, name, extensions[1], false)?,
        file(alloc, folder, name, extensions[2], false)?,
        file(alloc, folder, name, extensions[3], false)?,
        file(alloc, folder, name, extensions[4], true)?,
        file(alloc, folder, name, extensions[5], true)?,
    ])
}

fn file(
    alloc: Global,
    folder: &Names,
    name: &str,
    extension: &str,
    is_sole: bool,
) -> Result<RealFile, OutOfMemory> {
    let folder = folder.path();
    Ok(RealFile::new(format!(in alloc; "{folder}{name}.{extension}")?, is_sole))
}
