// A whole file of many pieces: that it comes where there is memory, and in how many calls.
use super::memory::one_file;
use ng_outside::{ReadStop, read_whole};
use std::alloc::Global;
use std::test::Fail;

#[test]
fn a_file_of_many_pieces_is_read(rt: HostRuntime) -> Result<(), Fail> {
    let mut bytes = Vec::new(rt.alloc());
    for i in 0u32..200_000 {
        bytes.push((i % 251) as u8)?;
    }
    let mut files = one_file(rt.alloc(), bytes.as_slice(), false, 0)?;
    let whole = read_whole(rt.alloc(), &mut files, "script", 200_000);
    assert_eq!(rt; whole.expect(&rt, "a file").as_slice(), bytes.as_slice());
    assert_eq!(rt; files.calls(), 5);
    let stop = read_whole(rt.alloc(), &mut files, "script", 199_999).err();
    assert_eq!(rt; stop, Some(ReadStop::TooBig));
    Ok(())
}

// A slow file of `hello` is read, and a call fails (0: none): what comes, why nothing comes, and the number of calls.
fn read_slowly(alloc: Global, failing: u64) -> Result<(Vec<u8>, Option<ReadStop>, u64), Fail> {
    let mut files = one_file(alloc, b"hello", true, failing)?;
    let (whole, stop) = match read_whole(alloc, &mut files, "script", 5) {
        Ok(whole) => (whole, None),
        Err(stop) => (Vec::new(alloc), Some(stop)),
    };
    Ok((whole, stop, files.calls()))
}

#[test]
fn a_slow_file_is_read_byte_by_byte(rt: HostRuntime) -> Result<(), Fail> {
    // The failing call, what comes, and the number of calls.
    let rows = [
        (0, "hello", None, 6),
        (6, "", Some(ReadStop::Fault), 6),
        (7, "hello", None, 6),
        (3, "", Some(ReadStop::Fault), 3),
    ];
    for (failing, bytes, stop, calls) in rows {
        let (whole, why, made) = read_slowly(rt.alloc(), failing)?;
        assert_eq!(rt; whole.as_slice(), bytes.as_bytes());
        assert_eq!(rt; why, stop);
        assert_eq!(rt; made, calls);
    }
    Ok(())
}
