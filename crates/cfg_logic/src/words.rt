//! What words of a command line set.

use crate::fault::CfgWordError;
use crate::options::CfgOptions;
use std::alloc::AllocError;

/// Whether a byte may stand in a name; what is not ASCII is not looked into.
fn is_name_byte(byte: u8) -> bool {
    byte.is_ascii_alphanumeric() || byte == b'_' || byte >= 0x80
}

/// Whether a text may be a name.
fn is_name(text: &str) -> bool {
    let bytes = text.as_bytes();
    match bytes.first() {
        Some(first) => !first.is_ascii_digit() && bytes.iter().all(|byte| is_name_byte(*byte)),
        None => false,
    }
}

impl CfgOptions {
    /// Sets what a word of `--cfg` says: `NAME` or `KEY="VALUE"`.
    pub fn add_word(&mut self, word: &str) -> Result<Result<(), CfgWordError>, AllocError> {
        let (name, value) = match word.split_once('=') {
            Some((name, value)) => (name.trim(), Some(value.trim())),
            None => (word.trim(), None),
        };
        if !is_name(name) {
            return Ok(Err(CfgWordError::WantedName));
        }
        let Some(value) = value else {
            self.add_flag(name)?;
            return Ok(Ok(()));
        };
        match value
            .strip_prefix('"')
            .and_then(|value| value.strip_suffix('"'))
        {
            Some(value) => {
                self.add_value(name, value)?;
                Ok(Ok(()))
            }
            None => Ok(Err(CfgWordError::WantedQuotes)),
        }
    }
}
