// The real files. They tell no contents.
ghost use Rattle.std.specs.Prelude.{◌≡◌, ℕ, ◌<◌, ◌≤◌, List, true, length, IfOk, OnOk, OnErr};
ghost use Rattle.ng_outside.specs.Contents.{NotTold};
ghost use Rattle.ng_outside.specs.Count.{next_count, Rose};

use crate::{Failed, Files};
use std::alloc::Global;
use std::fs::{OpenFile, OpenOptions};
use std::io::{ErrorKind, Read, Seek, SeekFrom, Write};
use std::marker::Model;
use std::{fs, io, rt};

// An open file, with its name and the place, in bytes from 0, where the next call goes on.
#[derive(Drop)]
struct Opened<H: Drop> {
    name: String,
    file: H,
    at: u64,
}

/// The files of the system. Nothing is told of what they hold.
///
/// A file is opened once for reads that follow one another from its start on, and once for a fresh
/// start and the appends after it; one file is open for each at a time. A contract sees only the count
/// of faults: it is the count of every name, and each answer `Failed` raises it by one, up to its last
/// value.
#[derive(Drop)]
pub struct StdFiles<R: rt::Files> {
    alloc: Global,
    rt: R,
    reading: Option<Opened<R::File>>,
    writing: Option<Opened<R::File>>,
    faults: u64,
}

impl<R: rt::Files> Model for StdFiles<R> {
    ghost use Rattle.std.specs.Prelude.{ℕ};

    ghost Value = { ℕ };

    ghost view = { λ files. files.faults };
}

// The file, to be kept open under its name, or none where the name finds no memory.
fn keep<H: Drop>(alloc: Global, name: &str, file: H, at: u64) -> Option<Opened<H>> {
    let name = String::from_str(alloc, name).ok()?;
    Some(Opened { name, file, at })
}

fn open_to_read<R: rt::Files>(rt: &R, name: &str, at: u64) -> io::Result<R::File> {
    let mut file = fs::open(rt, name)?;
    if at > 0 {
        file.seek(SeekFrom::Start(at))?;
    }
    Ok(file)
}

fn open_to_append<R: rt::Files>(rt: &R, name: &str) -> io::Result<R::File> {
    OpenOptions::new().append(true).create(true).open(rt, name)
}

// Has the system write what it holds of a file. What can't be synced, as a pipe or a device, has nothing left.
fn sync<H: OpenFile>(file: &H) -> io::Result<()> {
    match file.sync_all() {
        Err(error)
            if matches!(
                error.kind(),
                ErrorKind::InvalidInput | ErrorKind::Unsupported | ErrorKind::ReadOnlyFilesystem
            ) => Ok(()),
        synced => synced,
    }
}

impl<R: rt::Files> StdFiles<R> {
    /// The files that `rt` opens. `alloc` is asked for the names of those that stay open; where it has
    /// no memory a file is opened anew at each call.
    pub fn new(alloc: Global, rt: R) -> Self
        ensures { result ≡ 0 }
    {
        StdFiles {
            alloc,
            rt,
            reading: None,
            writing: None,
            faults: 0,
        }
    }

    /// How many calls failed.
    pub fn faults(&self) -> u64
        ensures { result ≡ self.now }
    {
        self.faults
    }

    // Counts one fault more.
    fn fail(&mut self) -> Failed
        ensures next { self.new ≡ next_count self.old }
        ensures counts { self.old ≤ self.new }
    {
        self.faults = self.faults.saturating_add(1);
        Failed
    }

    // The file that was read up to the place `at`, or the file opened anew; the start is read anew.
    fn opened_at(&mut self, name: &str, at: u64) -> io::Result<R::File>
        ensures { self.new ≡ self.old }
    {
        match self.reading.take() {
            Some(opened) if opened.name.as_str() == name && opened.at == at && at > 0 => {
                Ok(opened.file)
            }
            _ => open_to_read(&self.rt, name, at),
        }
    }

    fn read_on(&mut self, name: &str, at: u64, into: &mut [u8]) -> io::Result<usize>
        ensures within { IfOk result (λ count. count ≤ length into.new) }
        ensures faults { self.new ≡ self.old }
    {
        let mut file = self.opened_at(name, at)?;
        let count = file.read(into)?;
        self.reading = keep(self.alloc, name, file, at.saturating_add(count as u64));
        Ok(count)
    }

    fn start_anew(&mut self, name: &str) -> io::Result<()>
        ensures { self.new ≡ self.old }
    {
        self.writing = None;
        let file = fs::create(&self.rt, name)?;
        self.writing = keep(self.alloc, name, file, 0);
        Ok(())
    }

    // The file that is being written, or the file opened for its end.
    fn opened_to_append(&mut self, name: &str) -> io::Result<R::File>
        ensures { self.new ≡ self.old }
    {
        match self.writing.take() {
            Some(opened) if opened.name.as_str() == name => Ok(opened.file),
            _ => open_to_append(&self.rt, name),
        }
    }

    fn write_on(&mut self, name: &str, bytes: &[u8]) -> io::Result<usize>
        ensures within { IfOk result (λ count. count ≤ length bytes.now) }
        ensures faults { self.new ≡ self.old }
    {
        let mut file = self.opened_to_append(name)?;
        let count = file.write(bytes)?;
        self.writing = keep(self.alloc, name, file, 0);
        Ok(count)
    }

    fn end_writing(&mut self, name: &str) -> io::Result<()>
        ensures { self.new ≡ self.old }
    {
        let file = self.opened_to_append(name)?;
        sync(&file)
    }
}

impl<R: rt::Files> Files for StdFiles<R> {
    ghost contents = { λ _ _. NotTold };

    ghost is_ended = { λ _ _. true };

    ghost faults = { λ count _. count };

    /// # Errors
    /// `Failed` where the system answers an error.
    fn read(&mut self, name: &str, at: u64, into: &mut [u8]) -> Result<usize, Failed>
        requires { 0 < length into.old }
        ensures ok { OnOk result (self.new ≡ self.old) }
        ensures err { OnErr result (self.new ≡ next_count self.old) }

        // What every implementation promises, of files that are not told.
        ensures within { IfOk result (λ count. count ≤ length into.new) }
        ensures counts { (other : List ℕ) → self.old ≤ self.new }
        ensures cause { OnErr result (Rose self.old self.new) }
    {
        match self.read_on(name, at, into) {
            Ok(count) => Ok(count),
            Err(_) => Err(self.fail()),
        }
    }

    /// # Errors
    /// `Failed` where the system answers an error.
    fn fresh(&mut self, name: &str) -> Result<(), Failed>
        ensures ok { OnOk result (self.new ≡ self.old) }
        ensures err { OnErr result (self.new ≡ next_count self.old) }

        // What every implementation promises, of files that are not told.
        ensures counts { (other : List ℕ) → self.old ≤ self.new }
        ensures cause { OnErr result (Rose self.old self.new) }
    {
        match self.start_anew(name) {
            Ok(()) => Ok(()),
            Err(_) => Err(self.fail()),
        }
    }

    /// # Errors
    /// `Failed` where the system takes nothing or answers an error.
    fn append(&mut self, name: &str, bytes: &[u8]) -> Result<usize, Failed>
        requires { 0 < length bytes.now }
        ensures ok { OnOk result (self.new ≡ self.old) }
        ensures err { OnErr result (self.new ≡ next_count self.old) }

        // What every implementation promises, of files that are not told.
        ensures some { IfOk result (λ count. 0 < count) }
        ensures within { IfOk result (λ count. count ≤ length bytes.now) }
        ensures counts { (other : List ℕ) → self.old ≤ self.new }
        ensures cause { OnErr result (Rose self.old self.new) }
    {
        match self.write_on(name, bytes) {
            Ok(count) if count > 0 => Ok(count),
            _ => Err(self.fail()),
        }
    }

    /// Has the system write what it holds of the file, as fsync(2) does, and closes it. A file that can't be synced, as a
    /// pipe or a device, has nothing left to be written.
    ///
    /// # Errors
    /// `Failed` where the system answers another error.
    fn finish(&mut self, name: &str) -> Result<(), Failed>
        ensures ok { OnOk result (self.new ≡ self.old) }
        ensures err { OnErr result (self.new ≡ next_count self.old) }

        // What every implementation promises, of files that are not told.
        ensures counts { (other : List ℕ) → self.old ≤ self.new }
        ensures cause { OnErr result (Rose self.old self.new) }
    {
        match self.end_writing(name) {
            Ok(()) => Ok(()),
            Err(_) => Err(self.fail()),
        }
    }
}
