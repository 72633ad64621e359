// The top call.
ghost use Rattle.std.specs.Prelude.{◌≡◌, ◌≤◌, ℕ, List, [], All, Some, true, length, IfOk, OnOk, IfErr, ◌⊎◌};
ghost use Rattle.ngctl_script.specs.feed.Early.{IsEarly};
ghost use Rattle.ng_base.specs.declared.kind.Kind.{Kind};
ghost use Rattle.ng_outside.specs.Contents.{Contents};
ghost use Rattle.ng_machine.specs.Spread.{spread_all, spread_in};
ghost use Rattle.ng_core.specs.CoreStory.{story};
ghost use Rattle.ng_machine.specs.story.Story.{world_of};
ghost use Rattle.ng_forecast.specs.Packets.{packet_fault};
ghost use Rattle.ng_forecast.specs.declared.ended.ForecastFault.TheVariants.{NoMemory as no_memory};
ghost use Rattle.ng_call.specs.Called.{happened, kinds_of, texts};
ghost use Rattle.ng_call.specs.Parts.{of_files, storing, outside, counting};
ghost use Rattle.ng_core.specs.Stocked.{IsStocked};
ghost use Rattle.ng_args.specs.Forecast.{forecast_words_of};
ghost use Rattle.ng_args.specs.Together.{are_ports};
ghost use Rattle.ng_forecast.specs.Behaves.{IsForecastCall};
ghost use Rattle.ng_forecast.specs.Call.{fault_status};
ghost use Rattle.ng_forecast.specs.Ends.{ForecastEnds};
ghost use Rattle.ng_forecast.specs.Parts.{IsForetold, IsForetoldOf, IsNotForetold, IsRefusedOf};
ghost use Rattle.ng_forecast.specs.Steps.{flights_of};

use crate::bag::gather;
use crate::read::{ReadIn, read_in};
use crate::stand::{arrivals_of, run_commands};
use crate::text::bag_text;
use crate::{Forecast, ForecastFault, Spread};
use ng_args::{ForecastWords, read_forecast_words};
use ng_base::Sequence;
use ng_call::is_stopped;
use ng_core::Core;
use ng_outside::{Files, Sink, put_all};
use ng_pcap::Capture;
use ng_plan::node::Node;
use std::alloc::Global;

fn fault_status(fault: ForecastFault) -> u8
    ensures { result ≡ fault_status fault }
{
    match fault {
        ForecastFault::Usage => 64,
        ForecastFault::Script(_) | ForecastFault::Capture { .. } | ForecastFault::TooBig(_) => 65,
        ForecastFault::ReadFault(_) => 66,
        ForecastFault::WriteFault => 74,
        ForecastFault::Moving { .. }
        | ForecastFault::Restless
        | ForecastFault::Wide { .. }
        | ForecastFault::Undefined { .. }
        | ForecastFault::Big { .. } => 4,
        ForecastFault::NoMemory => 71,
    }
}

// The end of a forecast with a fault.
fn refused(alloc: Global, fault: ForecastFault) -> Forecast
    ensures status { result.status ≡ fault_status fault }
    ensures bag { result.bag ≡ [] }
    ensures fault { result.fault ≡ Some fault }
{
    Forecast {
        status: fault_status(fault),
        bag: Sequence::new(alloc),
        fault: Some(fault),
    }
}

// The bag of the packets of captures, in the world as a core has it.
fn gather_captures<B: Node>(
    alloc: Global,
    hops: u32,
    core: &Core<B>,
    captures: Vec<Capture>,
) -> Result<Spread, ForecastFault>
    requires captures { length captures.items ≡ length (world_of (story core.now)).ports }
    requires few { length captures.items ≤ 64 }
    requires early { All (λ capture. All IsEarly capture.kept) captures.items }
    ensures bag { IfOk result (λ bag.
        spread_all (λ f. spread_in (world_of (story core.now)).nodes hops f) (flights_of captures.items) ≡ Some bag) }
    ensures fine { OnOk result
        (packet_fault (world_of (story core.now)).nodes hops (flights_of captures.items) ≡ None) }
    ensures err { IfErr result (λ fault. (fault ≡ no_memory)
        ⊎ (packet_fault (world_of (story core.now)).nodes hops (flights_of captures.items) ≡ Some fault)) }
{
    let Ok(arrivals) = arrivals_of(alloc, captures) else {
        return Err(ForecastFault::NoMemory);
    };
    let Ok(still) = core.still(alloc) else {
        return Err(ForecastFault::NoMemory);
    };
    match gather(alloc, &still, hops, &arrivals) {
        Ok(bag) => Ok(bag),
        Err(fault) => Err(fault),
    }
}

// The bag of what was read.
fn foretell_read<B: Node>(
    alloc: Global,
    words: &ForecastWords,
    read: ReadIn,
    stock: Vec<B>,
) -> Result<Spread, ForecastFault>
    requires stocked { IsStocked B.state stock.items }
    requires names { are_ports words.now.own_name words.now.ports ≡ true }
    requires captures { length read.captures.items ≡ length words.now.ports }
    requires early { All (λ capture. All IsEarly capture.kept) read.captures.items }
    ensures ok { IfOk result (λ bag.
        IsForetoldOf (kinds_of B.state stock.items) words.now read.script (flights_of read.captures.items) bag) }
    ensures err { IfErr result (λ fault.
        IsRefusedOf (kinds_of B.state stock.items) words.now read.script (flights_of read.captures.items) fault) }
{
    let ReadIn { script, captures } = read;
    let Ok(core) = run_commands(alloc, words, script, stock) else {
        return Err(ForecastFault::NoMemory);
    };
    if is_stopped(core.journal()) {
        return Err(ForecastFault::Restless);
    }
    match gather_captures(alloc, words.hops, &core, captures) {
        Ok(bag) => Ok(bag),
        Err(fault) => Err(fault),
    }
}

// The bag.
fn foretell<B: Node, F: Files>(
    alloc: Global,
    words: &ForecastWords,
    files: &mut F,
    stock: Vec<B>,
) -> Result<Spread, ForecastFault>
    requires stocked { IsStocked B.state stock.items }
    requires ports { are_ports words.now.own_name words.now.ports ≡ true }
    ensures ok { IfOk result (λ bag. IsForetold (kinds_of B.state stock.items) (F.contents files.old) words.now bag) }
    ensures err { IfErr result (λ fault. IsNotForetold (kinds_of B.state stock.items)
        (of_files (F.contents files.old) (F.contents files.new) (F.faults files.old) (F.faults files.new))
        words.now fault) }
    ensures same { F.contents files.new ≡ F.contents files.old }
    ensures counts { (other : List ℕ) → F.faults files.old other ≤ F.faults files.new other }
{
    match read_in(alloc, words, files) {
        Ok(read) => match foretell_read(alloc, words, read, stock) {
            Ok(bag) => Ok(bag),
            Err(fault) => Err(fault),
        },
        Err(fault) => Err(fault),
    }
}

// The bag is told.
fn tell<O: Sink>(alloc: Global, words: &ForecastWords, bag: Spread, out: &mut O) -> Forecast
    requires { length words.now.ports ≤ 64 }
    ensures { (kinds : List Kind) (old now : List ℕ → Contents) (before after : List ℕ → ℕ) → now ≡ old
        → IsForetold kinds old words.now bag → ForecastEnds kinds (Some words.now)
        (outside (storing (O.contents out.old) old) (storing (O.contents out.new) now)
        (counting (O.faults out.old) before) (counting (O.faults out.new) after))
        result.status result.bag result.fault }
{
    let Ok(text) = bag_text(alloc, words.ports.as_slice(), bag.as_slice()) else {
        return refused(alloc, ForecastFault::NoMemory);
    };
    if let Err(_) = put_all(out, &text) {
        return refused(alloc, ForecastFault::WriteFault);
    }
    Forecast {
        status: 0,
        bag,
        fault: None,
    }
}

// What a forecast with these words does.
fn forecast_words<B: Node, F: Files, O: Sink>(
    alloc: Global,
    words: &ForecastWords,
    files: &mut F,
    out: &mut O,
    stock: Vec<B>,
) -> Forecast
    requires stocked { IsStocked B.state stock.items }
    requires ports { are_ports words.now.own_name words.now.ports ≡ true }
    ensures { ForecastEnds (kinds_of B.state stock.items) (Some words.now)
        (happened O.contents O.faults F.contents F.faults out.old out.new files.old files.new)
        result.status result.bag result.fault }
{
    match foretell(alloc, words, files, stock) {
        Ok(bag) => tell(alloc, words, bag, out),
        Err(fault) => refused(alloc, fault),
    }
}

// The call, and its end.
fn forecast_call<B: Node, F: Files, O: Sink>(
    alloc: Global,
    words: &[String],
    files: &mut F,
    out: &mut O,
    stock: Vec<B>,
) -> Forecast
    requires stocked { IsStocked B.state stock.items }
    ensures { ForecastEnds (kinds_of B.state stock.items) (forecast_words_of (texts words.now))
        (happened O.contents O.faults F.contents F.faults out.old out.new files.old files.new)
        result.status result.bag result.fault }
{
    match read_forecast_words(alloc, words) {
        Ok(Some(said)) => forecast_words(alloc, &said, files, out, stock),
        Ok(None) => refused(alloc, ForecastFault::Usage),
        Err(_) => refused(alloc, ForecastFault::NoMemory),
    }
}

/// The call of a forecast: reads the words behind `--forecast`, the script and the captures that they name, runs
/// the commands in front of every mark, and tells where the packets of the captures leave the graph that stands
/// then, without running them. The text goes into `out`: a line for each port, and one for each hook of the socket
/// by which packets go to the reader.
///
/// The words are `HOPS NAME SCRIPT [PORT=IN ..]`. Refusals come in this order: the words (64); the script, not read
/// (66), too big or not in form (65), with a command between packets (4); each capture, not read (66), too many
/// bytes, not in form, too many packets (65); commands that don't come to rest (4); for each packet in the order in
/// which they come too many packets met on their ways, no spread, too many bytes that leave (4). Then comes the
/// write (74). 71 may stand in place of any. The commands are run with these blank nodes.
///
/// Its clause is one record, `IsForecastCall`: what holds of each call of a task (`Behaves`), with a bag that was
/// made, and what a forecast has beside it. Where the call ends well the bag is that of the spreads of all packets
/// in the world after the commands, and `out` has grown by its text (`foretells`). A fault of reading comes only
/// where the count of the file that is told rose (`reads`). With any fault the bag is empty, and with any but that
/// of writing nothing is written (`quiet`). What the files hold stays as it was (`files`).
pub fn ngforecast<B: Node, F: Files, O: Sink>(
    alloc: Global,
    words: &[String],
    files: &mut F,
    out: &mut O,
    stock: Vec<B>,
) -> Forecast
    requires stocked { IsStocked B.state stock.items }
    ensures { IsForecastCall (kinds_of B.state stock.items) (forecast_words_of (texts words.now))
        (happened O.contents O.faults F.contents F.faults out.old out.new files.old files.new) result }
{
    forecast_call(alloc, words, files, out, stock)
}
