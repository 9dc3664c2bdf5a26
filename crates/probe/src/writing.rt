//! Standard input and output.

use crate::said::Said;
use anyhow::{Error, Result};
use std::io;
use std::io::{Read, Write};

/// The whole of standard input.
pub fn read_all(rt: &HostRuntime) -> Result<Vec<u8>> {
    let mut text = Vec::new(rt.alloc());
    rt.reader().read_to_end(&mut text)?;
    text.shrink_to_fit();
    Ok(text)
}

fn write_bytes(rt: &HostRuntime, bytes: &[u8]) -> Result<()> {
    Ok(io::writer(rt).write_all(bytes)?)
}

/// Writes what is said and an end of line. Where it is not to be written, that is the error.
pub fn write_line(rt: &HostRuntime, mut said: Said) -> Result<()> {
    said.add(b"\n");
    match said.into_bytes() {
        Ok(bytes) => write_bytes(rt, &bytes),
        Err(why) => Err(Error::msg(why)),
    }
}
