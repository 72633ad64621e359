// What is asked of ports and files that are named together.
ghost use Rattle.std.specs.Prelude.{◌≡◌, ◌++◌, ◌∷◌, [], map, filter, OnOk, IfOk};
ghost use Rattle.std.specs.List.{list_any};
ghost use Rattle.std.specs.Str.{bytes_eq};
ghost use Rattle.ng_args.specs.Lists.{has_word as has_the_word};
ghost use Rattle.ng_base.specs.Names.{are_different as are_all_different};
ghost use Rattle.ng_args.specs.Together.{are_ports as are_ports_apart, is_file, ins, outs};

use crate::PortWord;
use ng_base::{Name, NoMemory};

const MAX_PORTS: usize = 64;

fn is_any_named(ports: &[PortWord], name: &Name) -> bool
    ensures { result ≡ list_any (λ port. bytes_eq port.name name.now) ports.now }
{
    ports.iter().any(|port| port.name.bytes() == name.bytes())
}

fn has_port(ports: &[PortWord], name: &Name) -> bool
    ensures { result ≡ has_the_word (map (λ port. port.name) ports.now) name.now }
{
    is_any_named(ports, name)
}

fn are_names_different(ports: &[PortWord]) -> bool
    ensures { result ≡ are_all_different (map (λ port. port.name) ports.now) }
{
    for (place, port) in ports.iter().enumerate() {
        if has_port(&ports[place + 1..], &port.name) {
            return false;
        }
    }
    true
}

/// Whether there are few enough ports, whose names and the own name are all different.
pub(crate) fn are_ports(own: &Name, ports: &[PortWord]) -> bool
    ensures { result ≡ are_ports_apart own.now ports.now }
{
    ports.len() <= MAX_PORTS && !has_port(ports, own) && are_names_different(ports)
}

fn add_file<'a>(files: &mut Vec<&'a str>, name: &'a str) -> Result<(), NoMemory>
    ensures { OnOk result (map (λ file. file.now) files.new.items ≡ map (λ file. file.now) files.old.items ++ filter is_file (name.now ∷ [])) }
{
    if !name.is_empty() {
        files.push(name)?;
    }
    Ok(())
}

/// Adds the files that the ports receive.
pub(crate) fn add_ins<'a>(files: &mut Vec<&'a str>, ports: &'a [PortWord]) -> Result<(), NoMemory>
    ensures { OnOk result (map (λ file. file.now) files.new.items ≡ map (λ file. file.now) files.old.items ++ ins ports.now) }
{
    for port in ports {
        add_file(files, port.in_file.as_str())?;
    }
    Ok(())
}

/// Adds the files that are written for the ports.
pub(crate) fn add_outs<'a>(files: &mut Vec<&'a str>, ports: &'a [PortWord]) -> Result<(), NoMemory>
    ensures { OnOk result (map (λ file. file.now) files.new.items ≡ map (λ file. file.now) files.old.items ++ outs ports.now) }
{
    for port in ports {
        add_file(files, port.out_file.as_str())?;
    }
    Ok(())
}
