// Words of command lines, as they are typed.
use crate::ngctl::same::holds;
use ng_args::{Source, read_forecast_words, read_replay_words, read_words};
use std::alloc::Global;
use std::test::Fail;

// The words between the blanks of a line.
fn words_in(alloc: Global, line: &str) -> Result<Vec<String>, Fail> {
    let mut words = Vec::new(alloc);
    for word in line.split_whitespace() {
        words.push(String::from_str(alloc, word)?)?;
    }
    Ok(words)
}

// What a line is the words of.
#[derive(Clone, Copy)]
enum Form {
    Run,
    Replay,
    Forecast,
}

// Whether the line is read.
fn is_read(alloc: Global, form: Form, line: &str) -> Result<bool, Fail> {
    let words = words_in(alloc, line)?;
    match form {
        Form::Run => Ok(read_words(alloc, &words)?.is_some()),
        Form::Replay => Ok(read_replay_words(alloc, &words)?.is_some()),
        Form::Forecast => Ok(read_forecast_words(alloc, &words)?.is_some()),
    }
}

// Lines that no run, replay and forecast has.
const REFUSED_RUNS: [&str; 34] = [
    "",
    "-w 17 s",
    "-b 0 s",
    "-b 10000001 s",
    "-w 01 s",
    "-w 017 s",
    "-w +1 s",
    "-w 99999999999999999999 s",
    "-w",
    "-w 1",
    "-w 1 -w 1 s",
    "-x 1 s",
    "-w -1 s",
    "-w1 s",
    "--help",
    "--version",
    "s -b 1",
    "s em0=a",
    "s em0=a,b,c",
    "s em0=a,b em0=,c",
    "s em0=a,s",
    "s em0=a,a",
    "s em0=a,b em1=b,c",
    "s em0=a,b em1=c,b",
    "s ngctl=a,b",
    "-n em0 s em0=a,b",
    "-n [1 s",
    "-n a.b s",
    "s [1=a,b",
    "-j s s",
    "-j b s em0=a,b",
    "-g 1 s",
    "-g 100001",
    "-n em1 -g 1",
];

const REFUSED_REPLAYS: [&str; 8] = [
    "1 0 ngctl j",
    "0 0 ngctl j s",
    "1 17 ngctl j s",
    "1 0 [1 j s",
    "1 0 ngctl s s",
    "1 0 ngctl j s em0=j",
    "1 0 ngctl j s em0=a em0=b",
    "1 0 ngctl -j s",
];

const REFUSED_FORECASTS: [&str; 6] = [
    "1 ngctl",
    "0 ngctl s",
    "65 ngctl s",
    "1 ngctl s em0",
    "1 em0 s em0=a",
    "1 ngctl -s",
];

// Lines that runs have.
const RUNS: [&str; 9] = [
    "s",
    "-w 0 s",
    "-w 16 -b 10000000 -n me -j j s",
    "-j j -n me -b 1 s em0=a=b,c em1=s, em2=,",
    "s em0=a,b em1=a,c",
    "s em0=s,",
    "-g 100000",
    "-w 4 -g 1000",
    "-j em0 -g 1",
];

#[test]
fn lines_are_read_or_refused(rt: HostRuntime) -> Result<(), Fail> {
    let tables: [(Form, bool, &[&str]); 4] = [
        (Form::Run, false, &REFUSED_RUNS),
        (Form::Replay, false, &REFUSED_REPLAYS),
        (Form::Forecast, false, &REFUSED_FORECASTS),
        (Form::Run, true, &RUNS),
    ];
    for (form, is, lines) in tables {
        for line in lines {
            holds(&rt, is_read(rt.alloc(), form, line)? == is, line);
        }
    }
    Ok(())
}

#[test]
fn run_is_read_whole(rt: HostRuntime) -> Result<(), Fail> {
    let words = words_in(rt.alloc(), "-j j -n me -b 100 -w 2 s em0=a=b,c")?;
    let Some(said) = read_words(rt.alloc(), &words)? else {
        return Err(Fail::from("refused"));
    };
    assert_eq!(rt; (said.workers, said.budget), (2, 100));
    assert_eq!(rt; said.own_name.as_str(), "me");
    let Source::FromFiles { script, ports } = &said.source else {
        return Err(Fail::from("made"));
    };
    assert_eq!(rt; script.as_str(), "s");
    let [port] = ports.as_slice() else {
        return Err(Fail::from("not one port"));
    };
    assert_eq!(rt; port.name.as_str(), "em0");
    assert_eq!(rt; port.in_file.as_str(), "a=b");
    assert_eq!(rt; port.out_file.as_str(), "c");
    Ok(())
}

#[test]
fn replay_is_read_whole(rt: HostRuntime) -> Result<(), Fail> {
    let words = words_in(rt.alloc(), "1000000 3 ngctl j s em0=a,b")?;
    let Some(said) = read_replay_words(rt.alloc(), &words)? else {
        return Err(Fail::from("refused"));
    };
    assert_eq!(rt; (said.budget, said.workers), (1_000_000, 3));
    assert_eq!(rt; (said.journal.as_str(), said.script.as_str()), ("j", "s"));
    let [port] = said.ports.as_slice() else {
        return Err(Fail::from("not one port"));
    };
    assert_eq!(rt; port.in_file.as_str(), "a,b");
    Ok(())
}

#[test]
fn forecast_is_read_whole(rt: HostRuntime) -> Result<(), Fail> {
    let words = words_in(rt.alloc(), "64 ngctl s em0=")?;
    let Some(said) = read_forecast_words(rt.alloc(), &words)? else {
        return Err(Fail::from("refused"));
    };
    assert_eq!(rt; said.hops, 64);
    assert_eq!(rt; said.script.as_str(), "s");
    assert_eq!(rt; said.ports.as_slice().len(), 1);
    Ok(())
}

// So many words that name ports without files.
fn many_ports(alloc: Global, ports: u32) -> Result<Vec<String>, Fail> {
    let mut words = Vec::new(alloc);
    words.push(String::from_str(alloc, "s")?)?;
    for port in 0..ports {
        words.push(format!(in alloc; "p{port}=,")?)?;
    }
    Ok(words)
}

#[test]
fn ports_are_64_at_the_most(rt: HostRuntime) -> Result<(), Fail> {
    for (ports, is) in [(64, true), (65, false)] {
        let words = many_ports(rt.alloc(), ports)?;
        assert_eq!(rt; read_words(rt.alloc(), &words)?.is_some(), is);
    }
    Ok(())
}
