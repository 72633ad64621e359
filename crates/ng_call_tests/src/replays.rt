// Replays whose output fails.
use crate::fakes::{ROOM, file, files_of, sink, words_in};
use ng_replay::{ReplayFault, ngreplay, replay_fault_line};
use ng_stock::{stock, stock_suffices};
use std::test::Fail;

const SCRIPT: &[u8] = b"mkpeer . echo a b\nwrite a 1 2 3\n";

const JOURNAL: &[u8] = b"ngjournal 1\nF\nT 1 0\nA 1\nF\nT 2 0\nA 2\nT 3 0\nA 3\n";

#[test]
fn an_output_that_fails_has_what_was_put_before(rt: HostRuntime) -> Result<(), Fail> {
    let alloc = rt.alloc();
    let words = words_in(alloc, "1000000 0 ngctl j s")?;
    // A slow output takes a byte at a time.
    for (is_slow, put, text) in [(false, 1, ""), (true, 3, "+ ")] {
        let given = [file("s", SCRIPT), file("j", JOURNAL)];
        let mut files = files_of(alloc, &given, ROOM, false, 0)?;
        let mut out = sink(alloc, is_slow, put)?;
        let boxes = stock(alloc)?;
        stock_suffices();
        let replayed = ngreplay(alloc, &words, &mut files, &mut out, boxes);
        assert_eq!(rt; replayed.fault, Some(ReplayFault::WriteFault));
        assert_eq!(rt; replayed.status, 74);
        assert_eq!(rt; str::from_utf8(out.bytes())?, text);
        let mut line = Vec::new(alloc);
        replay_fault_line(alloc, &ReplayFault::WriteFault, &words, &mut line)?;
        assert_eq!(rt; str::from_utf8(&line)?, "ngrun: can't write output\n");
    }
    Ok(())
}
