use std::alloc::Allocator;
use std::fmt::Display;
use std::fs::{Metadata, OpenFile, OpenOptions};
use std::io;
use std::io::{Read, Seek, SeekFrom, Write};
use std::rt::Files;

/// The most bytes that one call moves.
const MOST: usize = 7;

/// A runtime whose files and prints are those of another, and move only a few bytes with each call.
#[derive(Drop)]
pub struct ShortCalls<R: Drop>(pub R);

/// A file of such a runtime.
#[derive(Drop)]
pub struct ShortFile<F: Drop>(F);

impl<F: Read + Drop> Read for ShortFile<F> {
    fn read(&mut self, buf: &mut [u8]) -> io::Result<usize> {
        let most = buf.len().min(MOST);
        self.0.read(&mut buf[..most])
    }
}

impl<F: Write + Drop> Write for ShortFile<F> {
    fn write(&mut self, bytes: &[u8]) -> io::Result<usize> {
        self.0.write(&bytes[..bytes.len().min(MOST)])
    }

    fn flush(&mut self) -> io::Result<()> {
        self.0.flush()
    }
}

impl<F: Seek + Drop> Seek for ShortFile<F> {
    fn seek(&mut self, to: SeekFrom) -> io::Result<u64> {
        self.0.seek(to)
    }
}

impl<F: OpenFile + Drop> OpenFile for ShortFile<F> {
    fn metadata(&self) -> io::Result<Metadata> {
        self.0.metadata()
    }

    fn set_len(&self, size: u64) -> io::Result<()> {
        self.0.set_len(size)
    }

    fn sync_all(&self) -> io::Result<()> {
        self.0.sync_all()
    }

    fn sync_data(&self) -> io::Result<()> {
        self.0.sync_data()
    }
}

impl<R: Files + Drop> Files for ShortCalls<R> {
    type File = ShortFile<R::File>;

    type Dir = R::Dir;

    fn open_file(&self, how: &OpenOptions, path: &str) -> io::Result<ShortFile<R::File>> {
        Ok(ShortFile(self.0.open_file(how, path)?))
    }

    fn open_dir(&self, path: &str) -> io::Result<R::Dir> {
        self.0.open_dir(path)
    }

    fn metadata(&self, path: &str) -> io::Result<Metadata> {
        self.0.metadata(path)
    }

    fn symlink_metadata(&self, path: &str) -> io::Result<Metadata> {
        self.0.symlink_metadata(path)
    }

    fn copy(&self, from: &str, to: &str) -> io::Result<u64> {
        self.0.copy(from, to)
    }

    fn rename(&self, from: &str, to: &str) -> io::Result<()> {
        self.0.rename(from, to)
    }

    fn remove_file(&self, path: &str) -> io::Result<()> {
        self.0.remove_file(path)
    }

    fn create_dir(&self, path: &str) -> io::Result<()> {
        self.0.create_dir(path)
    }

    fn remove_dir(&self, path: &str) -> io::Result<()> {
        self.0.remove_dir(path)
    }

    fn remove_dir_all<A: Allocator>(&self, alloc: A, path: &str) -> io::Result<()> {
        self.0.remove_dir_all(alloc, path)
    }
}

impl<R: Print + Drop> Print for ShortCalls<R> {
    fn print<D: Display + Drop>(&self, value: D) -> io::Result<()> {
        self.0.print(value)
    }

    fn println<D: Display + Drop>(&self, value: D) -> io::Result<()> {
        self.0.println(value)
    }

    fn write_all(&self, bytes: &[u8]) -> io::Result<()> {
        self.0.write_all(bytes)
    }

    fn write_some(&self, bytes: &[u8]) -> io::Result<usize> {
        self.0.write_some(&bytes[..bytes.len().min(MOST)])
    }
}
