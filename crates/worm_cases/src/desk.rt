//! A runtime of the tests' own: words, files and a standard input in memory, and what the program opened, printed and
//! said.

ghost use Rattle.std.specs.Prelude.{IsErr};

use std::alloc::{Allocator, Global};
use std::cell::{Cell, RefCell};
use std::env::FillError;
use std::fmt::Display;
use std::fs::{Metadata, OpenFile, OpenOptions};
use std::io;
use std::io::{BufRead, ErrorKind, Lines, Read, Seek, SeekFrom, Write};
use std::rt::{Env, Files};

/// The runtime of one run of a program.
#[derive(Drop)]
pub struct Desk {
    /// Where all that it keeps is kept.
    pub alloc: Global,
    /// The words of the command line, the program's name first.
    pub words: &'static [&'static [u8]],
    /// The files, each by its name.
    pub files: &'static [(&'static str, &'static [u8])],
    /// The standard input.
    pub input: &'static [u8],
    /// How many bytes more the standard output takes.
    pub room: Cell<usize>,
    /// The names that were opened, each as a line.
    pub opened: RefCell<Vec<u8>>,
    /// What went to the standard output.
    pub printed: RefCell<Vec<u8>>,
    /// What went to the standard error.
    pub said: RefCell<Vec<u8>>,
}

impl Desk {
    /// One with these words, files and standard input, and with all the room that it takes.
    pub fn new(
        alloc: Global,
        words: &'static [&'static [u8]],
        files: &'static [(&'static str, &'static [u8])],
        input: &'static [u8],
    ) -> Desk {
        Desk {
            alloc,
            words,
            files,
            input,
            room: Cell::new(usize::MAX),
            opened: RefCell::new(Vec::new(alloc)),
            printed: RefCell::new(Vec::new(alloc)),
            said: RefCell::new(Vec::new(alloc)),
        }
    }
}

fn unsupported<T>() -> io::Result<T>
    ensures { IsErr result }
{
    Err(io::Error::from(ErrorKind::Unsupported))
}

/// Puts bytes behind those that were kept.
fn keep(kept: &RefCell<Vec<u8>>, bytes: &[u8]) -> io::Result<()> {
    match kept.try_borrow_mut() {
        Ok(mut kept) => match kept.extend_from_slice(bytes) {
            Ok(()) => Ok(()),
            Err(_) => Err(io::Error::from(ErrorKind::OutOfMemory)),
        },
        Err(_) => unsupported(),
    }
}

/// Puts a text behind those that were kept, and what ends it.
fn keep_text<D: Display + Drop>(
    desk: &Desk,
    kept: &RefCell<Vec<u8>>,
    text: D,
    end: &str,
) -> io::Result<()> {
    match format!(in desk.alloc; "{text}{end}") {
        Ok(text) => keep(kept, text.as_bytes()),
        Err(_) => Err(io::Error::from(ErrorKind::OutOfMemory)),
    }
}

impl Alloc for Desk {
    type A = Global;

    fn alloc(&self) -> Global {
        self.alloc
    }
}

impl Print for Desk {
    fn print<D: Display + Drop>(&self, value: D) -> io::Result<()> {
        keep_text(self, &self.printed, value, "")
    }

    fn println<D: Display + Drop>(&self, value: D) -> io::Result<()> {
        keep_text(self, &self.printed, value, "\n")
    }

    fn write_all(&self, bytes: &[u8]) -> io::Result<()> {
        keep(&self.printed, bytes)
    }

    fn write_some(&self, bytes: &[u8]) -> io::Result<usize> {
        let count = self.room.get().min(bytes.len());
        keep(&self.printed, &bytes[..count])?;
        self.room.set(self.room.get().saturating_sub(count));
        Ok(count)
    }
}

impl Eprint for Desk {
    fn eprint<D: Display + Drop>(&self, value: D) -> io::Result<()> {
        keep_text(self, &self.said, value, "")
    }

    fn eprintln<D: Display + Drop>(&self, value: D) -> io::Result<()> {
        keep_text(self, &self.said, value, "\n")
    }
}

impl Input for Desk {
    type Reader = &'static [u8];

    fn read_line<A: Allocator + Clone>(&self, buf: &mut String<A>) -> io::Result<usize> {
        let mut input = self.input;
        input.read_line(buf)
    }

    fn lines<A: Allocator>(&self, alloc: A) -> Lines<&'static [u8], A> {
        self.input.lines(alloc)
    }

    fn reader(&self) -> &'static [u8] {
        self.input
    }
}

impl Env for Desk {
    fn arg(&self, i: usize, buf: &mut [u8]) -> Result<usize, FillError> {
        match self.words.get(i) {
            None => Err(FillError::NotPresent),
            Some(word) if word.len() > buf.len() => Err(FillError::TooLong),
            Some(word) => {
                buf[..word.len()].copy_from_slice(word);
                Ok(word.len())
            }
        }
    }

    fn var(&self, _name: &str, _buf: &mut [u8]) -> Result<usize, FillError> {
        Err(FillError::NotPresent)
    }

    fn var_at(&self, _i: usize, _buf: &mut [u8]) -> Result<usize, FillError> {
        Err(FillError::NotPresent)
    }
}

/// A file that was opened: what is left of its bytes.
#[derive(Drop)]
pub struct Opened {
    left: &'static [u8],
}

impl Read for Opened {
    fn read(&mut self, buf: &mut [u8]) -> io::Result<usize> {
        self.left.read(buf)
    }
}

impl Write for Opened {
    fn write(&mut self, _buf: &[u8]) -> io::Result<usize> {
        unsupported()
    }

    fn flush(&mut self) -> io::Result<()> {
        Ok(())
    }
}

impl Seek for Opened {
    fn seek(&mut self, _to: SeekFrom) -> io::Result<u64> {
        unsupported()
    }
}

impl OpenFile for Opened {
    fn metadata(&self) -> io::Result<Metadata> {
        unsupported()
    }

    fn set_len(&self, _size: u64) -> io::Result<()> {
        unsupported()
    }

    fn sync_all(&self) -> io::Result<()> {
        unsupported()
    }

    fn sync_data(&self) -> io::Result<()> {
        unsupported()
    }
}

impl Files for Desk {
    type File = Opened;

    type Dir = &'static [u8];

    fn open_file(&self, _how: &OpenOptions, path: &str) -> io::Result<Opened> {
        keep_text(self, &self.opened, path, "\n")?;
        for (name, bytes) in self.files {
            if *name == path {
                return Ok(Opened { left: bytes });
            }
        }
        Err(io::Error::from(ErrorKind::NotFound))
    }

    fn open_dir(&self, _path: &str) -> io::Result<&'static [u8]> {
        unsupported()
    }

    fn metadata(&self, _path: &str) -> io::Result<Metadata> {
        unsupported()
    }

    fn symlink_metadata(&self, _path: &str) -> io::Result<Metadata> {
        unsupported()
    }

    fn copy(&self, _from: &str, _to: &str) -> io::Result<u64> {
        unsupported()
    }

    fn rename(&self, _from: &str, _to: &str) -> io::Result<()> {
        unsupported()
    }

    fn remove_file(&self, _path: &str) -> io::Result<()> {
        unsupported()
    }

    fn create_dir(&self, _path: &str) -> io::Result<()> {
        unsupported()
    }

    fn remove_dir(&self, _path: &str) -> io::Result<()> {
        unsupported()
    }

    fn remove_dir_all<B: Allocator>(&self, _alloc: B, _path: &str) -> io::Result<()> {
        unsupported()
    }
}
