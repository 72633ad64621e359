// Forecasts whose files or output fail, and the packets that leave by those that do not.
use crate::fakes::{Held, ROOM, file, files_of, sink, words_in};
use ng_forecast::{Forecast, ForecastFault, Source, forecast_fault_line, ngforecast};
use ng_machine::Place;
use ng_stock::{stock, stock_suffices};
use std::alloc::Global;
use std::process::Abort;
use std::test::Fail;

// A forecast with these words over these files, where the calls of the files and of the output that have these numbers fail,
// from 1; 0 is for none.
fn forecast(
    alloc: Global,
    words: &str,
    files: &[Held],
    failing: (u64, u64),
) -> Result<Forecast, Fail> {
    let words = words_in(alloc, words)?;
    let mut files = files_of(alloc, files, ROOM, false, failing.0)?;
    let mut out = sink(alloc, false, failing.1)?;
    let boxes = stock(alloc)?;
    stock_suffices();
    Ok(ngforecast(alloc, &words, &mut files, &mut out, boxes))
}

#[test]
fn files_and_outputs_may_fail(rt: HostRuntime) -> Result<(), Fail> {
    let alloc = rt.alloc();
    let cases = [
        (
            (1, 0),
            66,
            ForecastFault::ReadFault(Source::Script),
            "ngrun: can't read s\n",
        ),
        (
            (0, 1),
            74,
            ForecastFault::WriteFault,
            "ngrun: can't write output\n",
        ),
    ];
    let line_words = words_in(alloc, "3 ngctl s em0=")?;
    for (failing, status, fault, told) in cases {
        let came = forecast(alloc, "3 ngctl s em0=", &[file("s", b"")], failing)?;
        assert_eq!(rt; came.fault, Some(fault), "{told}");
        assert_eq!(rt; came.status, status, "{told}");
        let mut line = Vec::new(alloc);
        forecast_fault_line(alloc, &fault, &line_words, &mut line)?;
        assert_eq!(rt; str::from_utf8(&line)?, told);
    }
    Ok(())
}

// The head of a file with nanoseconds, the lowest byte first, and a packet after one second: from 02:00:00:00:00:0a to
// 02:00:00:00:00:0b, with type 0x0800.
const PLAIN: [u8; 54] = [
    0x4d, 0x3c, 0xb2, 0xa1, 2, 0, 4, 0, 0, 0, 0, 0, 0, 0, 0, 0, 0, 0, 4, 0, 1, 0, 0, 0, 1, 0, 0, 0,
    0, 0, 0, 0, 14, 0, 0, 0, 14, 0, 0, 0, 2, 0, 0, 0, 0, 0x0b, 2, 0, 0, 0, 0, 0x0a, 8, 0,
];

// The same with the tag of VLAN 10.
const TAGGED: [u8; 58] = [
    0x4d, 0x3c, 0xb2, 0xa1, 2, 0, 4, 0, 0, 0, 0, 0, 0, 0, 0, 0, 0, 0, 4, 0, 1, 0, 0, 0, 1, 0, 0, 0,
    0, 0, 0, 0, 18, 0, 0, 0, 18, 0, 0, 0, 2, 0, 0, 0, 0, 0x0b, 2, 0, 0, 0, 0, 0x0a, 0x81, 0, 0, 10,
    8, 0,
];

// A forecast over those captures, and its bag: ports, and what leaves by them.
struct Example {
    name: &'static str,
    words: &'static str,
    script: &'static [u8],
    bag: &'static [(u32, &'static [u8])],
}

const BAGS: [Example; 2] = [
    Example {
        name: "a patch sets the first byte",
        words: "3 ngctl s em0=plain em1=",
        script: b"mkpeer em0: patch lower in\nconnect em0:lower em1: out lower\nmsg em0:lower setconfig { count=1 ops=[ { length=1 mode=1 value=0xff } ] }\n",
        bag: &[(1, &[0xff, 0, 0, 0, 0, 0x0b, 2, 0, 0, 0, 0, 0x0a, 8, 0])],
    },
    Example {
        name: "a vlan takes a tag off, and puts one on with its priority",
        words: "3 ngctl s em0=tagged em1=plain",
        script: b"mkpeer em0: vlan lower downstream\nconnect em0:lower em1: v10 lower\nmsg em0:lower addfilter { hook=\"v10\" vlan=10 pcp=5 }\n",
        bag: &[
            (1, &[2, 0, 0, 0, 0, 0x0b, 2, 0, 0, 0, 0, 0x0a, 8, 0]),
            (
                0,
                &[
                    2, 0, 0, 0, 0, 0x0b, 2, 0, 0, 0, 0, 0x0a, 0x81, 0, 0xa0, 10, 8, 0,
                ],
            ),
        ],
    },
];

fn check_bag(rt: &impl Abort, alloc: Global, example: &Example) -> Result<(), Fail> {
    let files = [
        file("s", example.script),
        file("plain", &PLAIN),
        file("tagged", &TAGGED),
    ];
    let came = forecast(alloc, example.words, &files, (0, 0))?;
    let bag = came.bag.as_slice();
    assert_eq!(rt; bag.len(), example.bag.len(), "{}", example.name);
    for ((place, packet), (port, bytes)) in bag.iter().zip(example.bag) {
        assert_eq!(rt; *place, Place::Wire(*port), "{}", example.name);
        assert_eq!(rt; packet.bytes(), *bytes, "{}", example.name);
    }
    Ok(())
}

#[test]
fn bags_hold_packets_as_they_leave(rt: HostRuntime) -> Result<(), Fail> {
    for example in &BAGS {
        check_bag(&rt, rt.alloc(), example)?;
    }
    Ok(())
}
