//! Bytes, written in their order.

ghost use Rattle.std.specs.Prelude.{◌≢◌, OnOk, OnErr};
ghost use Rattle.script_text.specs.Watched.{TookBytes, TakesPart};

use crate::fault::WriteFault;
use crate::watched::WatchedWriter;
use std::io::Write;

/// Writes bytes in their order. Where it fails, the writer refused, and a beginning of them is written.
///
/// ```rust
/// let mut writer = WatchedWriter::new(Vec::new(alloc));
/// write_bytes(&mut writer, b"yes 1\n")?;
/// assert_eq!(rt; writer.into_inner().as_slice(), b"yes 1\n".as_slice());
/// ```
pub fn write_bytes<W: Write>(writer: &mut WatchedWriter<W>, bytes: &[u8]) -> Result<(), WriteFault>
    ensures ok { OnOk result (TookBytes writer.old writer.new bytes.now) }
    ensures err { OnErr result (TakesPart writer.old writer.new bytes.now) }
    ensures memory { result ≢ Err WriteFault.NoMemory }
{
    let mut done = 0;
    while done < bytes.len() {
        match writer.write_some(&bytes[done..]) {
            Ok(count) => done += count,
            Err(_) => return Err(WriteFault::CannotWrite),
        }
    }
    Ok(())
}
