// Files, read and written whole.
use crate::failure::Failure;
use std::fs;

pub(crate) fn read(rt: &HostRuntime, file: &str) -> Result<Vec<u8>, Failure> {
    fs::read(rt, file).try_map_err(|error| {
        let name = String::from_str(rt.alloc(), file)?;
        Ok(Failure::Unreadable(name, error))
    })
}

pub(crate) fn write(rt: &HostRuntime, file: &str, bytes: &[u8]) -> Result<(), Failure> {
    fs::write(rt, file, bytes).try_map_err(|error| {
        let name = String::from_str(rt.alloc(), file)?;
        Ok(Failure::Unwritable(name, error))
    })
}
