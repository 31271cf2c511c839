//! A disk over a file of the operating system. What the file holds is not known to any clause.

ghost use Rattle.std.specs.Prelude.{◌≡◌, ◌≤◌, ◌<◌, ◌^◌, ℕ, None, IfOk, ⊤};
ghost use Rattle.cx_base.specs.Faults.{Rises};

use cx_disk::{Disk, Failed};
use std::fs::{File, OpenOptions, TryLockError};
use std::io;
use std::io::ErrorKind;
use std::os::unix::fs::FileExt;
use std::rt::Files;

/// Lengths from here on are refused.
const TOO_LONG: u64 = 1 << 63;

/// A file, whose length is kept from its opening on.
#[derive(Drop)]
pub struct FileDisk {
    file: File,
    size: u64,
    faults: u64,
    // What the last call that failed said.
    trouble: Option<io::Error>,
    ghost fits: { size < 2 ^ 63 },
}

// What is said of a file that could not be locked.
fn unlocked(error: TryLockError) -> io::Error {
    match error {
        TryLockError::Error(error) => error,
        TryLockError::WouldBlock => {
            io::Error::new(ErrorKind::WouldBlock, "another process has it open")
        }
    }
}

/// The file of this name with its length. It is made where it isn't there, and locked until it is closed.
fn opened<R: Files<File = File>>(files: &R, name: &str) -> io::Result<(File, u64)> {
    let file = OpenOptions::new()
        .read(true)
        .write(true)
        .create(true)
        .open(files, name)?;
    file.try_lock().map_err(unlocked)?;
    let size = file.metadata()?.len();
    Ok((file, size))
}

impl FileDisk {
    ghost use Rattle.cx_edge.specs.FileDisk.{faults_of};

    /// The disk over the file of this name, which is made where it isn't there. An error where the file
    /// can't be opened, is open as a disk already, here or in another process, or is of 2^63 bytes or more.
    pub fn open<R: Files<File = File>>(files: &R, name: &str) -> io::Result<Self>
        ensures { IfOk result (λ disk. faults_of disk ≡ 0) }
    {
        let (file, size) = opened(files, name)?;
        if size >= TOO_LONG {
            return Err(io::Error::from(ErrorKind::FileTooLarge));
        }
        Ok(FileDisk {
            file,
            size,
            faults: 0,
            trouble: None,
        })
    }

    /// How often its calls have failed.
    pub fn faults(&self) -> u64
        ensures { result ≡ faults_of self.now }
    {
        self.faults
    }

    /// What the last of these calls said.
    pub fn trouble(&self) -> Option<io::Error> {
        self.trouble
    }

    // Counts a call that failed, and keeps what it said.
    fn fail(&mut self, error: io::Error)
        ensures cause { Rises self.old.faults self.new.faults }
        ensures later { self.old.faults ≤ self.new.faults }
        ensures size { self.new.size ≡ self.old.size }
    {
        self.faults = self.faults.saturating_add(1);
        self.trouble = Some(error);
    }
}

impl Disk for FileDisk {
    ghost seen = { λ d. None };

    ghost may_leave = { λ d c. ⊤ };

    ghost moment = { λ d. 0 };

    ghost left_since = { λ d t c. ⊤ };

    ghost faults = { λ d. d.faults };

    ghost size = { λ d. d.size };

    ghost told_size = { λ d file is_seen. cc };

    ghost told_is_left = { λ d file is_seen. tt };

    ghost size_fits = { λ d. d.fits };

    ghost counts_now = { λ d t c le now. tt };

    ghost only_now = { λ d c left. tt };

    fn len(&self) -> u64 {
        self.size
    }

    fn read(&mut self, at: u64, buf: &mut [u8]) -> Result<(), Failed> {
        match self.file.read_exact_at(buf, at) {
            Ok(()) => Ok(()),
            Err(error) => {
                self.fail(error);
                Err(Failed)
            }
        }
    }

    fn write_at(&mut self, at: u64, bytes: &[u8]) -> Result<(), Failed> {
        let end = at.saturating_add(bytes.len() as u64);
        if end >= TOO_LONG {
            self.fail(io::Error::from(ErrorKind::FileTooLarge));
            return Err(Failed);
        }
        match self.file.write_all_at(bytes, at) {
            Ok(()) => {
                self.size = self.size.max(end);
                Ok(())
            }
            Err(error) => {
                self.fail(error);
                Err(Failed)
            }
        }
    }

    fn cut(&mut self, at: u64) -> Result<(), Failed> {
        match self.file.set_len(at) {
            Ok(()) => {
                self.size = at;
                Ok(())
            }
            Err(error) => {
                self.fail(error);
                Err(Failed)
            }
        }
    }

    fn sync(&mut self) -> Result<(), Failed> {
        match self.file.sync_all() {
            Ok(()) => Ok(()),
            Err(error) => {
                self.fail(error);
                Err(Failed)
            }
        }
    }
}
