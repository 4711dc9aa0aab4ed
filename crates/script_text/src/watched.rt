//! A reader and a writer that remember whether they refused.
//!
//! The contracts of the standard library's readers and writers speak of bytes alone: none says that a call failed because the system
//! refused. So each of these holds one, with a flag. That it is set only after a call of the inner one that failed, or that wrote no byte,
//! no contract says: it is set in `read_to_end`, `read_some` and `write_some`, and this file is to be read for it. All above rests on the
//! contracts here: a fault of reading or writing comes only where the flag is set.

ghost use Rattle.std.specs.Prelude.{◌≡◌, ◌≢◌, ◌<◌, ◌≤◌, ◌++◌, OnOk, OnErr, IfOk, IfErr, IfSome, IsTrue, false, length, take};
ghost use Rattle.std.specs.Io.{appended_bytes};
ghost use Rattle.std.specs.Io.KnownBytes.{IsAtEnd, Keeps};
ghost use Rattle.script_text.specs.Watched.{Gives, FailsToGive, TookBytes};

use crate::fault::{ReadFault, WriteFault};
use std::io;
use std::io::{ErrorKind, Read, Write};
use std::marker::Model;

/// How often a reader or a writer is asked: one that is interrupted each time counts as refusing then.
const MOST_TRIES: u64 = u64::MAX;

/// A reader, and whether it refused a read.
#[derive(Drop)]
pub struct WatchedReader<R: Read> {
    reader: R,
    refused: bool,
    reason: Option<ErrorKind>,
}

impl<R: Read> Model for WatchedReader<R> {
    ghost use Rattle.script_text.specs.Watched.{Reader};

    ghost Value = { Reader };

    ghost view = { λ w. record { left = R.remaining w.reader; refused = w.refused } };
}

impl<R: Read> WatchedReader<R> {
    /// A reader that has refused nothing.
    ///
    /// ```rust
    /// let mut reader = WatchedReader::new(script.as_slice());
    /// assert_eq!(rt; read_text(alloc, &mut reader)?.len(), 29);
    /// ```
    pub fn new(reader: R) -> Self
        ensures { result ≡ record { left = R.remaining reader; refused = false } }
    {
        WatchedReader {
            reader,
            refused: false,
            reason: None,
        }
    }

    /// Why the reader refused, as the system has it. Which one it is, no clause says.
    ///
    /// ```rust
    /// assert_eq!(rt; WatchedReader::new(script.as_slice()).reason().is_none(), true);
    /// ```
    pub fn reason(&self) -> Option<ErrorKind> {
        self.reason
    }

    /// Puts all bytes to the end of input after a text. Where that fails for another reason than want of memory, the reader refused.
    ///
    /// ```rust
    /// let mut text = Vec::new(alloc);
    /// WatchedReader::new(script.as_slice()).read_to_end(&mut text)?;
    /// assert_eq!(rt; text.as_slice(), script.as_slice());
    /// ```
    pub fn read_to_end(&mut self, text: &mut Vec<u8>) -> Result<(), ReadFault>
        ensures all { OnOk result (IfSome self.old.left (λ input. text.new.items ≡ text.old.items ++ input)) }
        ensures end { OnOk result (IsAtEnd self.new.left) }
        ensures gives { OnOk result (Gives self.old self.new (appended_bytes text.old.items text.new.items)) }
        ensures fails { IfErr result (λ fault. FailsToGive fault self.old self.new) }
    {
        match self.reader.read_to_end(text) {
            Ok(_) => Ok(()),
            Err(error) => {
                if error.kind() == ErrorKind::OutOfMemory {
                    Err(ReadFault::NoMemory)
                } else {
                    self.refused = true;
                    self.reason = Some(error.kind());
                    Err(ReadFault::CannotRead)
                }
            }
        }
    }

    /// Reads some bytes to a buffer's front, and answers how many: none at the end of input alone. A read that is interrupted is tried
    /// again.
    ///
    /// ```rust
    /// let mut buffer = [0; 4];
    /// let mut reader = WatchedReader::new(script.as_slice());
    /// assert_eq!(rt; reader.read_some(&mut buffer)?, 4);
    /// assert_eq!(rt; buffer, *b"heap");
    /// ```
    pub fn read_some(&mut self, buffer: &mut [u8]) -> Result<usize, ReadFault>
        requires { 0 < length buffer.old }
        ensures within { IfOk result (λ count. count ≤ length buffer.old) }
        ensures gives { IfOk result (λ count. Gives self.old self.new (take count buffer.new)) }
        ensures end { IfOk result (λ count. count ≡ 0 → IsAtEnd self.new.left) }
        ensures fails { IfErr result (λ fault. FailsToGive fault self.old self.new) }
        ensures memory { result ≢ Err ReadFault.NoMemory }
    {
        for _ in 0..MOST_TRIES {
            match self.reader.read(buffer) {
                Ok(count) => return Ok(count),
                Err(error) => {
                    if error.kind() != ErrorKind::Interrupted {
                        break;
                    }
                }
            }
        }
        self.refused = true;
        Err(ReadFault::CannotRead)
    }
}

/// A writer, and whether it refused a write.
#[derive(Drop)]
pub struct WatchedWriter<W: Write> {
    writer: W,
    refused: bool,
}

impl<W: Write> Model for WatchedWriter<W> {
    ghost use Rattle.script_text.specs.Watched.{Writer};

    ghost Value = { Writer };

    ghost view = { λ w. record { held = W.contents w.writer; refused = w.refused } };
}

impl<W: Write> WatchedWriter<W> {
    /// A writer that has refused nothing.
    ///
    /// ```rust
    /// let writer = WatchedWriter::new(Vec::new(alloc));
    /// assert_eq!(rt; writer.into_inner().len(), 0);
    /// ```
    pub fn new(writer: W) -> Self
        ensures { result ≡ record { held = W.contents writer; refused = false } }
    {
        WatchedWriter {
            writer,
            refused: false,
        }
    }

    /// The writer within.
    ///
    /// ```rust
    /// let mut writer = WatchedWriter::new(Vec::new(alloc));
    /// write_bytes(&mut writer, b"no 2\n")?;
    /// assert_eq!(rt; writer.into_inner().len(), 5);
    /// ```
    pub fn into_inner(self) -> W
        ensures { self.held ≡ W.contents result }
    {
        self.writer
    }

    /// Writes some bytes, the first ones, and answers how many: at least one, or the writer refused: it failed, or took no byte. A write
    /// that is interrupted is tried again.
    ///
    /// ```rust
    /// let mut writer = WatchedWriter::new(Vec::new(alloc));
    /// assert_eq!(rt; writer.write_some(b"no 2\n")?, 5);
    /// ```
    pub fn write_some(&mut self, bytes: &[u8]) -> Result<usize, WriteFault>
        requires { 0 < length bytes.now }
        ensures within { IfOk result (λ count. count ≤ length bytes.now) }
        ensures some { IfOk result (λ count. 0 < count) }
        ensures takes { IfOk result (λ count. TookBytes self.old self.new (take count bytes.now)) }
        ensures keeps { OnErr result (Keeps self.old.held self.new.held) }
        ensures refused { OnErr result (IsTrue self.new.refused) }
    {
        for _ in 0..MOST_TRIES {
            match self.writer.write(bytes) {
                Ok(0) => break,
                Ok(count) => return Ok(count),
                Err(error) => {
                    if error.kind() != ErrorKind::Interrupted {
                        break;
                    }
                }
            }
        }
        self.refused = true;
        Err(WriteFault::CannotWrite)
    }
}

impl<W: Write> Write for WatchedWriter<W> {
    ghost contents = { λ w. w.held };

    fn write(&mut self, bytes: &[u8]) -> io::Result<usize> {
        if bytes.is_empty() {
            return Ok(0);
        }
        match self.write_some(bytes) {
            Ok(count) => Ok(count),
            Err(_) => Err(io::Error::from(ErrorKind::Other)),
        }
    }

    fn flush(&mut self) -> io::Result<()> {
        self.writer.flush()
    }
}
