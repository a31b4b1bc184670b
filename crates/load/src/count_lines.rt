//! Parts of lines that report counts.
ghost use Rattle.std.specs.Prelude.{◌≡◌, ◌++◌, OnOk, decimal};

use itoa::Buffer;
use std::alloc::AllocError;

/// Appends a word and a number.
pub fn push_count(line: &mut Vec<u8>, word: &str, count: u64) -> Result<(), AllocError>
    ensures { OnOk result (line.new.items ≡ line.old.items ++ (word.now ++ decimal count)) }
{
    let mut buffer = Buffer::new();
    line.extend_from_slice(word.as_bytes())?;
    line.extend_from_slice(buffer.format(count).as_bytes())?;
    Ok(())
}
