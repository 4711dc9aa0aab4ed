//! Whole texts, read from a reader.

ghost use Rattle.std.specs.Prelude.{◌≡◌, OnOk, IfOk, IfErr, IfSome};
ghost use Rattle.std.specs.Io.KnownBytes.{IsAtEnd};
ghost use Rattle.script_text.specs.Watched.{Gives, FailsToGive};

use crate::fault::ReadFault;
use crate::watched::WatchedReader;
use std::alloc::Global;
use std::io::Read;

/// All bytes to the end of input. A fault leaves the reader after some of its bytes, and is the reader's own, or want of memory.
///
/// ```rust
/// let mut reader = WatchedReader::new(script.as_slice());
/// let text = read_text(alloc, &mut reader)?;
/// assert_eq!(rt; text.as_slice(), script.as_slice());
/// ```
pub fn read_text<R: Read>(
    alloc: Global,
    reader: &mut WatchedReader<R>,
) -> Result<Vec<u8>, ReadFault>
    ensures all { IfOk result (λ text. IfSome reader.old.left (λ input. text.items ≡ input)) }
    ensures end { OnOk result (IsAtEnd reader.new.left) }
    ensures gives { IfOk result (λ text. Gives reader.old reader.new text.items) }
    ensures fails { IfErr result (λ fault. FailsToGive fault reader.old reader.new) }
{
    let mut text = Vec::new(alloc);
    match reader.read_to_end(&mut text) {
        Ok(()) => Ok(text),
        Err(fault) => Err(fault),
    }
}
