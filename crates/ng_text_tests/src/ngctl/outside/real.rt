// The real ones, once.
use ng_base::{ItemId, NodeId};
use ng_outside::{
    Failed, Files, Gate, OpenGate, ReadStop, Sink, StdFiles, StdSink, put_all, read_whole,
    write_file,
};
use std::alloc::Global;
use std::io::Write;
use std::process::Abort;
use std::test::Fail;
use std::{env, fs, io, process, rt};

// The name of a file in the folder for what does not stay, with the number of this process in it.
fn name_of(rt: &HostRuntime, what: &str) -> Result<String, Fail> {
    let name = format!(in rt.alloc(); "ng_outside-{what}-{}", process::id(rt.process()))?;
    let path = env::temp_dir(rt)?.join(rt.alloc(), name.as_str())?;
    let text = path.as_path().to_str().ok_or("a path")?;
    Ok(String::from_str(rt.alloc(), text)?)
}

// How many bytes are read from the place on, where there is room for three.
fn read_at<F: Files>(files: &mut F, name: &str, at: u64) -> Result<usize, Failed> {
    files.read(name, at, &mut [0; 3])
}

// Whether so many bytes are read from each place, one place after another.
fn reads<F: Files>(files: &mut F, name: &str, rows: &[(u64, Result<usize, Failed>)]) -> bool {
    for (at, count) in rows {
        if read_at(files, name, *at) != *count {
            return false;
        }
    }
    true
}

#[test]
fn a_real_file_is_read(rt: HostRuntime) -> Result<(), Fail> {
    let name = name_of(&rt, "read")?;
    fs::write(&rt, name.as_str(), b"hello".as_slice())?;
    let mut files = StdFiles::new(rt.alloc(), &rt);
    let parts = reads(&mut files, &name, &[(0, Ok(3)), (3, Ok(2)), (5, Ok(0))]);
    let whole = read_whole(rt.alloc(), &mut files, &name, 5);
    let too_big = read_whole(rt.alloc(), &mut files, &name, 4).err();
    let begun = read_at(&mut files, &name, 0);
    fs::remove_file(&rt, name.as_str())?;
    assert!(rt; parts);
    assert_eq!(rt; whole.expect(&rt, "a file").as_slice(), b"hello".as_slice());
    assert_eq!(rt; too_big, Some(ReadStop::TooBig));
    assert_eq!(rt; begun, Ok(3));
    check_removed(&rt, rt.alloc(), &mut files, &name);
    Ok(())
}

// A file that was removed can be read further where it is open, and not anew.
fn check_removed<R: rt::Files>(
    rt: &impl Abort,
    alloc: Global,
    files: &mut StdFiles<R>,
    name: &str,
) {
    assert_eq!(rt; read_at(files, name, 3), Ok(2), "the file was still open");
    assert_eq!(rt; files.faults(), 0);
    assert_eq!(rt; read_at(files, name, 0), Err(Failed));
    assert_eq!(rt;
        read_whole(alloc, files, name, 5).err(),
        Some(ReadStop::Fault)
    );
    assert_eq!(rt; files.faults(), 2);
}

// Writes the file anew: whether each time it holds what was written, and nothing else.
fn is_written_anew(
    rt: &HostRuntime,
    files: &mut StdFiles<&HostRuntime>,
    name: &str,
) -> Result<bool, Fail> {
    for bytes in ["hello there", "", "hello"] {
        let written = write_file(files, name, bytes.as_bytes());
        if written.is_err() || fs::read(rt, name)?.as_slice() != bytes.as_bytes() {
            return Ok(false);
        }
    }
    Ok(true)
}

// A file that was not begun is written at its end.
fn append_later(rt: &HostRuntime, name: &str) -> Result<usize, Failed> {
    StdFiles::new(rt.alloc(), rt).append(name, b"!")
}

#[test]
fn real_files_are_written_anew(rt: HostRuntime) -> Result<(), Fail> {
    let name = name_of(&rt, "written")?;
    let mut files = StdFiles::new(rt.alloc(), &rt);
    assert!(rt; is_written_anew(&rt, &mut files, &name)?);
    assert_eq!(rt; files.append(&name, b", again"), Ok(7));
    assert_eq!(rt; append_later(&rt, &name), Ok(1));
    let whole = fs::read(&rt, name.as_str())?;
    fs::remove_file(&rt, name.as_str())?;
    assert_eq!(rt; whole.as_slice(), b"hello, again!".as_slice());
    Ok(())
}

#[test]
fn a_folder_is_no_file(rt: HostRuntime) -> Result<(), Fail> {
    let folder = env::temp_dir(&rt)?;
    let name = folder.as_path().to_str().ok_or("a path")?;
    let mut files = StdFiles::new(rt.alloc(), &rt);
    assert_eq!(rt; write_file(&mut files, name, b"a"), Err(Failed));
    assert_eq!(rt; files.faults(), 1);
    OpenGate.pass(NodeId(1), ItemId(1));
    Ok(())
}

// A writer that takes two bytes a call, and fails in the end.
#[derive(Drop)]
struct Narrow {
    taken: Vec<u8>,
    left: usize,
}

impl Write for Narrow {
    fn write(&mut self, bytes: &[u8]) -> io::Result<usize> {
        if self.left == 0 {
            return Ok(0);
        }
        self.left -= 1;
        let count = bytes.len().min(2);
        self.taken.extend_from_slice(&bytes[..count])?;
        Ok(count)
    }

    fn flush(&mut self) -> io::Result<()> {
        Ok(())
    }
}

#[test]
fn a_real_sink_writes(rt: HostRuntime) -> Result<(), Fail> {
    let mut kept = Vec::new(rt.alloc());
    let mut sink = StdSink::new(&mut kept);
    for bytes in ["hello ", "there"] {
        assert_eq!(rt; put_all(&mut sink, bytes.as_bytes()), Ok(()));
    }
    assert_eq!(rt; sink.faults(), 0);
    assert_eq!(rt; kept.as_slice(), b"hello there".as_slice());
    Ok(())
}

#[test]
fn a_real_sink_tells_its_faults(rt: HostRuntime) -> Result<(), Fail> {
    let mut narrow = Narrow {
        taken: Vec::new(rt.alloc()),
        left: 2,
    };
    let mut sink = StdSink::new(&mut narrow);
    // Of the third nothing is taken.
    for (bytes, taken) in [("hello", Ok(2)), ("llo", Ok(2)), ("o", Err(Failed))] {
        assert_eq!(rt; sink.put(bytes.as_bytes()), taken);
    }
    assert_eq!(rt; sink.faults(), 1);
    assert_eq!(rt; narrow.taken.as_slice(), b"hell".as_slice());
    Ok(())
}
