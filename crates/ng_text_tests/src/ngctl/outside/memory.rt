// A sink and files in memory: in how many calls all of a piece is put or written, which no clause says.
ghost use Rattle.std.specs.Prelude.{◌≤◌, length};

use ng_base::NoMemory;
use ng_outside::{Failed, MemFile, MemFiles, MemSink, put_all, write_file};
use std::alloc::{AllocError, Global};
use std::test::Fail;

fn listed(alloc: Global, call: u64) -> Result<Vec<u64>, AllocError> {
    [call].to_vec(alloc)
}

// One file of the name `script`.
pub fn one_file(
    alloc: Global,
    bytes: &[u8],
    slow: bool,
    failing: u64,
) -> Result<MemFiles, NoMemory> {
    roomy_file(alloc, bytes, bytes.len(), slow, failing)
}

// The same with more room.
fn roomy_file(
    alloc: Global,
    bytes: &[u8],
    room: usize,
    slow: bool,
    failing: u64,
) -> Result<MemFiles, NoMemory>
    requires { length bytes.now ≤ room }
{
    let script = MemFile {
        name: String::from_str(alloc, "script")?,
        bytes: Vec::from_slice(alloc, bytes)?,
        room,
        slow,
    };
    let mut files = Vec::new(alloc);
    files.push(script)?;
    MemFiles::new(alloc, files, listed(alloc, failing)?)
}

/// What `hello` is put or written into, and what comes of it.
struct Row {
    /// How much it has room for.
    room: usize,
    /// Whether it takes a byte at a time.
    slow: bool,
    /// The number of the call that fails, or 0.
    failing: u64,
    /// What it holds then.
    contents: &'static str,
    /// The number of calls.
    calls: u64,
}

impl Row {
    /// Whether all was put or written.
    fn is_whole(&self) -> bool {
        self.contents == "hello"
    }
}

macro_rules! row {
    ($room:literal, $slow:literal, $failing:literal, $contents:literal, $calls:literal) => {
        Row {
            room: $room,
            slow: $slow,
            failing: $failing,
            contents: $contents,
            calls: $calls,
        }
    };
}

const PUT: [Row; 8] = [
    row!(5, false, 0, "hello", 1),
    row!(4, false, 0, "hell", 2),
    row!(0, false, 0, "", 1),
    row!(9, true, 0, "hello", 5),
    row!(9, true, 6, "hello", 5),
    row!(9, true, 1, "", 1),
    row!(9, true, 2, "h", 2),
    row!(9, true, 3, "he", 3),
];

// Puts all into a new sink: the sink, and whether all was put.
fn put_hello(alloc: Global, row: &Row) -> Result<(MemSink, bool), Fail> {
    let mut sink = MemSink::new(alloc, row.room, row.slow, listed(alloc, row.failing)?)?;
    let is_whole = put_all(&mut sink, b"hello").is_ok();
    Ok((sink, is_whole))
}

#[test]
fn all_is_put_in_as_few_calls_as_can_be(rt: HostRuntime) -> Result<(), Fail> {
    for row in &PUT {
        let (mut sink, is_whole) = put_hello(rt.alloc(), row)?;
        assert_eq!(rt; is_whole, row.is_whole());
        assert_eq!(rt; sink.bytes(), row.contents.as_bytes());
        assert_eq!(rt; put_all(&mut sink, b""), Ok(()));
        assert_eq!(rt; sink.calls(), row.calls, "nothing is offered of no bytes");
    }
    Ok(())
}

// What the file `script` held is `old`.
const WRITTEN: [Row; 7] = [
    row!(5, false, 0, "hello", 2),
    row!(4, false, 0, "hell", 3),
    row!(9, true, 0, "hello", 6),
    row!(9, true, 7, "hello", 6),
    row!(9, true, 1, "old", 1),
    row!(9, true, 2, "", 2),
    row!(9, true, 4, "he", 4),
];

// Writes all into a file: the files, and whether all was written.
fn write_hello(alloc: Global, row: &Row) -> Result<(MemFiles, bool), Fail>
    requires { 3 ≤ row.now.room }
{
    let mut files = roomy_file(alloc, b"old", row.room, row.slow, row.failing)?;
    let is_whole = write_file(&mut files, "script", b"hello").is_ok();
    Ok((files, is_whole))
}

#[test]
fn a_file_is_written_anew_in_as_few_calls_as_can_be(rt: HostRuntime) -> Result<(), Fail> {
    for row in &WRITTEN {
        if row.room < 3 {
            return Err(Fail::from("there is room for what was there"));
        }
        let (files, is_whole) = write_hello(rt.alloc(), row)?;
        assert_eq!(rt; is_whole, row.is_whole());
        assert_eq!(rt; files.bytes("script"), Some(row.contents.as_bytes()));
        assert_eq!(rt; files.calls(), row.calls);
    }
    Ok(())
}
