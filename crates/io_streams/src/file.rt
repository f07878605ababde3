//! The trusted edge: a file, or a named pipe, that is opened when it is read first.
ghost use Rattle.std.specs.Prelude.{◌≡◌, ℕ};

use crate::source::{ReadAnswer, Source};
use crate::standard::read_again;
use std::fs;
use std::rt::Files;

#[cfg(test)]
mod tests;

// How far a file is. The path is there until it is opened.
#[derive(Drop)]
enum Opening<'a, F> {
    Closed(&'a str),
    Open(F),
    Failed,
}

/// A file that is opened at its first read, so that opening a named pipe waits there for its writer, and nowhere else. It tells no
/// bytes. A fault is counted where it cannot be opened, also for want of memory, and where a read fails. A read that a signal
/// interrupts is tried again.
#[derive(Drop)]
pub struct FileSource<'a, R: Files> {
    files: &'a R,
    opening: Opening<'a, R::File>,
    failed: u64,
    // How many bytes the last read gave that gave some.
    last: usize,
}

impl<'a, R: Files> FileSource<'a, R> {
    ghost use Rattle.io_streams.specs.Files.{file_faults, file_last};

    /// Returns the file of this name, which is not open yet. No read has failed.
    pub fn new(files: &'a R, path: &'a str) -> FileSource<'a, R>
        ensures faults { file_faults result ≡ 0 }
        ensures last { file_last result ≡ 0 }
    {
        FileSource {
            files,
            opening: Opening::Closed(path),
            failed: 0,
            last: 0,
        }
    }

    // Opens the file, where that was not tried yet.
    fn open(&mut self)
        ensures faults { file_faults self.new ≡ file_faults self.old }
        ensures last { file_last self.new ≡ file_last self.old }
    {
        if let Opening::Closed(path) = self.opening {
            self.opening = match fs::open(self.files, path) {
                Ok(file) => Opening::Open(file),
                Err(_) => Opening::Failed,
            };
        }
    }
}

impl<R: Files> Source for FileSource<'_, R> {
    ghost use Rattle.std.specs.declared.option.Option.TheVariants.{None};
    ghost use Rattle.io_streams.specs.Source.{SourceState};

    ghost seen = { λ s. record { left = None; faults = s.failed; last = s.last } };

    fn read(&mut self, buffer: &mut [u8]) -> ReadAnswer {
        self.open();
        let read = match &mut self.opening {
            Opening::Open(file) => read_again(file, buffer),
            Opening::Closed(_) => None,
            Opening::Failed => None,
        };
        match read {
            Some(0) => ReadAnswer::End,
            Some(n) => {
                self.last = n;
                ReadAnswer::Got(n)
            }
            None => {
                self.failed = self.failed.saturating_add(1);
                ReadAnswer::Failed
            }
        }
    }
}
