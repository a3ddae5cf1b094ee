// Readers and writers that contracts see tell an error.
ghost use Rattle.std.specs.Prelude.{◌≡◌, ◌<◌, IfErr, Ok, length};
ghost use Rattle.std.specs.Io.{ReadsAtMost, WritesAtMost};
ghost use Rattle.std.specs.Io.KnownBytes.{Keeps, ReadConsumes, WriteAppends};
ghost use Rattle.std.specs.IoError.{error_kind};
ghost use Rattle.std.specs.declared.io.Error.{Error};

use std::io::{self, ErrorKind, Read, Write};

/// A reader whose reads tell some errors. If it may be any reader, nothing but a read of it shows that it tells one.
pub trait Reader: Read {
    /// A read told this error.
    ghost tells: { Error → Type 0 };

    /// Reads once, as `read` does.
    fn read_part(&mut self, buf: &mut [u8]) -> io::Result<usize>
        ensures bound { ReadsAtMost result buf.new }
        ensures bytes { ReadConsumes (Self.remaining self.old) (Self.remaining self.new) result buf.new }
        ensures told { IfErr result tells };
}

impl<R: Read> Reader for R {
    ghost tells = { λ _. Unit {0} };

    fn read_part(&mut self, buf: &mut [u8]) -> io::Result<usize> {
        self.read(buf)
    }
}

/// A writer whose writes tell some errors. If it may be any writer, nothing but a write or a flush of it shows that it tells one.
pub trait Writer: Write {
    /// A write or a flush told this error.
    ghost tells: { Error → Type 0 };

    /// Writes once, as `write` does. To take none of some bytes is to tell `WriteZero`.
    fn write_part(&mut self, buf: &[u8]) -> io::Result<usize>
        ensures bound { WritesAtMost result buf.now }
        ensures bytes { WriteAppends (Self.contents self.old) (Self.contents self.new) result buf.now }
        ensures told { IfErr result tells }
        ensures none { result ≡ Ok 0 → 0 < length buf.now → (e : Error) → error_kind e ≡ ErrorKind.WriteZero → tells e };

    /// Flushes, as `flush` does.
    fn flush_all(&mut self) -> io::Result<()>
        ensures bytes { Keeps (Self.contents self.old) (Self.contents self.new) }
        ensures told { IfErr result tells };
}

impl<W: Write> Writer for W {
    ghost tells = { λ _. Unit {0} };

    fn write_part(&mut self, buf: &[u8]) -> io::Result<usize> {
        self.write(buf)
    }

    fn flush_all(&mut self) -> io::Result<()> {
        self.flush()
    }
}
