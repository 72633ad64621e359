// Tables of names, and each call that takes memory once.
ghost use Rattle.std.specs.Prelude.{◌≡◌, ◌++◌, ◌∷◌, [], ◌⊎◌, OnOk, IfErr, Some};
ghost use Rattle.ng_base.specs.Name.{name_fault};
ghost use Rattle.ng_base.specs.declared.memory.Stop.TheVariants.{Fault as TheFault, NoMemory as out_of_memory};

use ng_base::{Name, NameFault, NameList, Names, Packet, Sequence, Stop};
use std::alloc::Global;
use std::test::Fail;

const LONGEST: &[u8; 31] = b"abcdefghijklmnopqrstuvwxyz01234";

const TOO_LONG: &[u8; 32] = b"abcdefghijklmnopqrstuvwxyz012345";

#[test]
fn names_are_read(rt: HostRuntime) -> Result<(), Fail> {
    for text in [
        "a",
        "link0",
        "[a]",
        "!~",
        "a-b_c",
        "abcdefghijklmnopqrstuvwxyz01234",
    ] {
        let name = Name::read(text.as_bytes())?;
        assert_eq!(rt; name.as_str(), text);
        let printed = format!(in rt.alloc(); "{name}")?;
        assert_eq!(rt; printed.as_str(), text);
    }
    assert_eq!(rt; LONGEST.len(), 31);
    Ok(())
}

#[test]
fn faults_of_names_are_told(rt: HostRuntime) {
    for (bytes, fault) in [
        (b"".as_slice(), NameFault::Empty),
        (TOO_LONG, NameFault::TooLong(32)),
        (b"a.b", NameFault::BadByte(1)),
        (b":", NameFault::BadByte(0)),
        (b"a b", NameFault::BadByte(1)),
        (b"ab\x7f\x7f", NameFault::BadByte(2)),
        (b"abc\xff", NameFault::BadByte(3)),
        (b"\0", NameFault::BadByte(0)),
    ] {
        assert_eq!(rt; Name::read(bytes).err(), Some(fault), "{bytes:?}");
    }
}

#[test]
fn packets_share_their_bytes(rt: HostRuntime) -> Result<(), Fail> {
    let packet = Packet::new(rt.alloc(), &[1, 2, 3])?;
    let again = packet.again()?;
    assert_eq!(rt; packet.bytes(), [1, 2, 3].as_slice());
    assert_eq!(rt; again.bytes(), packet.bytes());
    Ok(())
}

#[test]
fn names_are_listed_in_order(rt: HostRuntime) -> Result<(), Fail> {
    let mut names = Names::new(rt.alloc());
    names.push(Name::read(b"b")?)?;
    names.push(Name::read(b"a")?)?;
    names.push(Name::read(b"c")?)?;
    assert!(rt; names.has(&Name::read(b"a")?));
    names.remove(&Name::read(b"a")?);
    assert!(rt; !names.has(&Name::read(b"a")?));
    assert_eq!(rt;
        names.as_slice(),
        [Name::read(b"b")?, Name::read(b"c")?].as_slice()
    );
    Ok(())
}

#[test]
fn names_are_taken_out_of_a_list(rt: HostRuntime) -> Result<(), Fail> {
    let mut list = NameList::new(rt.alloc());
    for text in ["c", "a", "d", "b", "c"] {
        list.reserve()?;
        list.add(Name::read(text.as_bytes())?);
    }
    list.remove(&Name::read(b"a")?);
    let again = list.again(rt.alloc())?;
    assert!(rt; !again.has(&Name::read(b"a")?));
    for text in ["b", "c", "d"] {
        assert!(rt; again.has(&Name::read(text.as_bytes())?));
    }
    list.remove(&Name::read(b"c")?);
    assert!(rt; !list.has(&Name::read(b"c")?));
    list.reserve()?;
    list.add(Name::read(b"c")?);
    let left = [Name::read(b"d")?, Name::read(b"b")?, Name::read(b"c")?];
    assert_eq!(rt; list.as_slice(), left.as_slice());
    assert_eq!(rt; Names::from_list(list).as_slice(), left.as_slice());
    assert_eq!(rt; again.as_slice().len(), 4);
    Ok(())
}

#[test]
fn a_sequence_keeps_its_order(rt: HostRuntime) -> Result<(), Fail> {
    let mut numbers = Sequence::new(rt.alloc());
    numbers.push(3u8)?;
    numbers.push(1u8)?;
    assert_eq!(rt; numbers.as_slice(), [3, 1].as_slice());
    let again = Sequence::from_vec(numbers.into_vec());
    assert_eq!(rt; again.as_slice(), [3, 1].as_slice());
    Ok(())
}

/// Reads a name and keeps it: an error of each of the three sources, by `?`.
fn keep_name(alloc: Global, bytes: &[u8], names: &mut Names) -> Result<Packet, Stop<NameFault>>
    ensures ok { OnOk result (names.new ≡ names.old ++ bytes.now ∷ []) }
    ensures err { IfErr result (λ stop. (stop ≡ out_of_memory)
        ⊎ ((fault : NameFault) × ((stop ≡ TheFault fault) × (name_fault bytes.now ≡ Some fault)))) }
{
    let name = Name::read(bytes).map_err(Stop::Fault)?;
    let copied = Vec::from_slice(alloc, name.bytes())?;
    let mut one = Vec::new(alloc);
    one.push(copied.len())?;
    names.push(name)?;
    Ok(Packet::new(alloc, copied.as_slice())?)
}

#[test]
fn a_stop_is_a_fault_or_no_memory(rt: HostRuntime) -> Result<(), Fail> {
    let mut names = Names::new(rt.alloc());
    let kept = keep_name(rt.alloc(), b"a", &mut names)?;
    assert_eq!(rt; kept.bytes(), b"a".as_slice());
    assert_eq!(rt;
        keep_name(rt.alloc(), b"a.", &mut names).err(),
        Some(Stop::Fault(NameFault::BadByte(1)))
    );
    let fault: Stop<NameFault> = Stop::Fault(NameFault::Empty);
    let text = format!(in rt.alloc(); "{fault}")?;
    assert_eq!(rt; text.as_str(), "empty");
    let memory: Stop<NameFault> = Stop::NoMemory;
    let text = format!(in rt.alloc(); "{memory}")?;
    assert_eq!(rt; text.as_str(), "out of memory");
    Ok(())
}
