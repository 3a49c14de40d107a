ghost use Rattle.std.specs.Prelude.{◌≡◌, ◌+◌, ◌<◌, ◌≤◌, None, IsSome, IfOk, IsErr};
ghost use Rattle.std.specs.Prelude.{OnOk, OnErr, length, min, option_and_then};
ghost use Rattle.std.specs.Io.KnownBytes.{ReadConsumes};
ghost use Rattle.nesc_base.specs.Fault.{HasCause};
ghost use Rattle.nesc_base.specs.Source.{GivesFirst};

use nesc_base::{ReadFault, Source};
use std::fs;
use std::io::{self, Read};
use std::marker::Model;
use std::rt::Files;

/// A file as a source, which does not tell what bytes are left.
#[derive(Drop)]
pub struct FileSource<'a, R: Files> {
    rt: &'a R,
    path: &'a str,
    file: Option<R::File>,
    faults: u64,
}

impl<'a, R: Files> Model for FileSource<'a, R> {
    ghost use Rattle.nesc_host_os.specs.FileSource.{FileSourceState};

    ghost Value = { FileSourceState R.File };

    ghost view = { λ s. record { path = s.path.now; file = s.file; faults = s.faults } };
}

impl<'a, R: Files> FileSource<'a, R> {
    /// The file of this path, which is opened at the first read.
    pub fn new(rt: &'a R, path: &'a str) -> FileSource<'a, R>
        ensures { result ≡ record { path = path.now; file = None; faults = 0 } }
    {
        FileSource {
            rt,
            path,
            file: None,
            faults: 0,
        }
    }

    /// Reads once. A file that is not open is opened first, and stays so.
    fn read_file(&mut self, into: &mut [u8]) -> io::Result<usize>
        ensures within { IfOk result (λ n. n ≤ length into.new) }
        ensures bytes { ReadConsumes (option_and_then R.File.remaining self.old.file)
            (option_and_then R.File.remaining self.new.file) result into.new }
        ensures open { OnOk result (IsSome self.new.file) }
        ensures file { self.new ≡ record self.old { file = self.new.file } }
    {
        let mut file = match self.file.take() {
            Some(file) => file,
            None => fs::open(self.rt, self.path)?,
        };
        let count = file.read(into);
        self.file = Some(file);
        count
    }
}

impl<R: Files> Source for FileSource<'_, R> {
    ghost left = { λ _. None };

    ghost faults = { λ s. s.faults };

    /// Reads once. An `Err` says that the path could not be opened, which the next read tries again, or that the
    /// file could not be read. It raises the count of faults by one, up to 2^64 - 1.
    fn read(&mut self, into: &mut [u8]) -> Result<usize, ReadFault>
        requires { 0 < length into.old }
        ensures within { IfOk result (λ n. n ≤ length into.old) }
        ensures first { IfOk result (λ n. GivesFirst n into.new None None) }
        ensures cause { HasCause self.old.faults self.new.faults (IsErr result) }

        // A file that was open has lost the bytes that were given, and no more. After an `Ok` the file is open.
        ensures bytes { ReadConsumes (option_and_then R.File.remaining self.old.file)
            (option_and_then R.File.remaining self.new.file) result into.new }
        ensures open { OnOk result (IsSome self.new.file) }

        // Only an `Err` is counted.
        ensures ok { OnOk result (self.new ≡ record self.old { file = self.new.file }) }
        ensures err { OnErr result (self.new ≡ record self.old {
          file = self.new.file;
          faults = min (self.old.faults + 1) u64.MAX;
        }) }
    {
        let Ok(count) = self.read_file(into) else {
            self.faults = self.faults.saturating_add(1);
            return Err(ReadFault);
        };
        Ok(count)
    }
}

#[cfg(test)]
mod tests {
    use super::*;
    use std::test::Fail;
    use std::{env, process};

    #[test]
    fn reads_a_file_as_soon_as_it_is_there(rt: HostRuntime) -> Result<(), Fail> {
        let folder = env::temp_dir(&rt)?;
        let process = process::id(rt.process());
        let path = format!(in rt.alloc(); "{}/file-source-{process}", folder.as_str())?;
        let mut buffer = [0; 3];
        let mut source = FileSource::new(&rt, path.as_str());
        let absent = source.read(&mut buffer);
        fs::write(&rt, path.as_str(), "abcde")?;
        let front = source.read(&mut buffer);
        fs::remove_file(&rt, path.as_str())?;
        assert_eq!(rt; absent, Err(ReadFault));
        assert_eq!(rt; front, Ok(3));
        assert_eq!(rt; buffer, *b"abc");
        assert_eq!(rt; source.read(&mut buffer), Ok(2));
        assert_eq!(rt; buffer, *b"dec");
        assert_eq!(rt; source.read(&mut buffer), Ok(0));
        Ok(())
    }
}
