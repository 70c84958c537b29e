//! The folder that a test makes, and removes at its end.

use std::alloc::{AllocError, Global};
use std::test::Fail;
use std::{env, fs, io};

/// The path of a file in a folder.
pub fn path_in(alloc: Global, folder: &str, name: &str) -> Result<String, AllocError> {
    format!(in alloc; "{folder}/{name}")
}

// The path of the folder of a test.
fn path_of(rt: &HostRuntime, name: &str) -> Result<String, Fail> {
    let folder = env::temp_dir(rt)?.into_string();
    Ok(path_in(rt.alloc(), folder.as_str(), name)?)
}

/// Removes a folder with all that is in it.
pub fn remove(rt: &HostRuntime, folder: &str) -> io::Result<()> {
    fs::remove_dir_all(rt, folder)
}

/// A new folder for a test.
pub fn folder_of(rt: &HostRuntime, name: &str) -> Result<String, Fail> {
    let folder = path_of(rt, name)?;
    let _ = remove(rt, folder.as_str());
    fs::create_dir(rt, folder.as_str())?;
    Ok(folder)
}
