// Files and outputs in memory that fail as a test says, and the words of a line.
ghost use Rattle.ng_outside.specs.Memory.{FitRooms, NamesDiffer};

use ng_base::NoMemory;
use ng_outside::{MemFile, MemFiles, MemSink};
use std::alloc::{AllocError, Global};
use std::test::Fail;

/// What is written in these tests is shorter.
pub const ROOM: usize = 1 << 16;

/// A file: its name and what it holds.
#[derive(Drop)]
pub struct Held<'a> {
    pub name: &'a str,
    pub bytes: &'a [u8],
}

pub fn file<'a>(name: &'a str, bytes: &'a [u8]) -> Held<'a> {
    Held { name, bytes }
}

// Files to come, each with room for so many bytes. Slow ones give and take a byte at a time.
#[derive(Drop)]
struct Shelf {
    files: Vec<MemFile>,
    room: usize,
    is_slow: bool,
    ghost names: { NamesDiffer files.items },
    ghost rooms: { FitRooms files.items },
}

impl Shelf {
    fn add(&mut self, alloc: Global, file: &Held) -> Result<(), Fail> {
        let is_new = self
            .files
            .iter()
            .all(|other| other.name.as_str() != file.name);
        if !is_new {
            return Err(Fail::new("two files of one name"));
        }
        let bytes = Vec::from_slice(alloc, file.bytes)?;
        let room = bytes.len().max(self.room);
        let name = String::from_str(alloc, file.name)?;
        self.files.push(MemFile {
            name,
            bytes,
            room,
            slow: self.is_slow,
        })?;
        Ok(())
    }

    // The files, whose call of this number fails.
    fn into_files(self, alloc: Global, failing: u64) -> Result<MemFiles, NoMemory> {
        let failing = [failing].to_vec(alloc)?;
        MemFiles::new(alloc, self.files, failing)
    }
}

/// Files that hold this, with room for so many bytes where they hold fewer, slow ones or not, and whose call of this number
/// fails.
pub fn files_of(
    alloc: Global,
    files: &[Held],
    room: usize,
    is_slow: bool,
    failing: u64,
) -> Result<MemFiles, Fail> {
    let mut shelf = Shelf {
        files: Vec::new(alloc),
        room,
        is_slow,
    };
    for file in files {
        shelf.add(alloc, file)?;
    }
    Ok(shelf.into_files(alloc, failing)?)
}

/// An output, a slow one or not, whose put of this number fails.
pub fn sink(alloc: Global, is_slow: bool, failing: u64) -> Result<MemSink, NoMemory> {
    let failing = [failing].to_vec(alloc)?;
    MemSink::new(alloc, ROOM, is_slow, failing)
}

/// The words of a line.
pub fn words_in(alloc: Global, line: &str) -> Result<Vec<String>, AllocError> {
    let mut words = Vec::new(alloc);
    for word in line.split_whitespace() {
        words.push(String::from_str(alloc, word)?)?;
    }
    Ok(words)
}

/// Whether a file holds this.
pub fn holds(files: &MemFiles, file: &Held) -> bool {
    files.bytes(file.name) == Some(file.bytes)
}
