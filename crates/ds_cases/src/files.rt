//! Files of a folder.
use crate::error::CaseError;
use std::fs;
use std::rt::Files;

/// The text of a file of a folder.
pub fn read_text<R: Files + AllocGlobal>(
    rt: &R,
    folder: &str,
    file: &str,
) -> Result<String, CaseError> {
    let path = format!(in rt.alloc(); "{folder}/{file}")?;
    match fs::read_to_string(rt, path.as_str()) {
        Ok(text) => Ok(text),
        Err(cause) => Err(CaseError::File { path, cause }),
    }
}

/// The bytes of a file of a folder.
pub fn read_bytes<R: Files + AllocGlobal>(
    rt: &R,
    folder: &str,
    file: &str,
) -> Result<Vec<u8>, CaseError> {
    let path = format!(in rt.alloc(); "{folder}/{file}")?;
    match fs::read(rt, path.as_str()) {
        Ok(bytes) => Ok(bytes),
        Err(cause) => Err(CaseError::File { path, cause }),
    }
}
