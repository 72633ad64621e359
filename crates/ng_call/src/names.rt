// The names of the ports.
ghost use Rattle.std.specs.Prelude.{◌≡◌, map, IfOk, None};
ghost use Rattle.ng_base.specs.Name.{name_fault};
ghost use Rattle.ng_args.specs.Run.{ports_from};

use ng_args::{PortWord, Source};
use ng_base::{Name, NoMemory};
use std::alloc::Global;

fn port_name(bytes: &[u8]) -> Name
    requires { name_fault bytes.now ≡ None }
    ensures { result ≡ bytes.now }
{
    match Name::read(bytes) {
        Ok(name) => name,
        Err(_) => unreachable!(),
    }
}

fn names_of(alloc: Global, ports: &[PortWord]) -> Result<Vec<Name>, NoMemory>
    ensures { IfOk result (λ names. names.items ≡ map (λ port. port.name) ports.now) }
{
    let mut names = Vec::new(alloc);
    for port in ports {
        names.push(port.name)?;
    }
    Ok(names)
}

/// The names of the ports that the words give, in order; those of made captures are em0, em1 and em2.
///
/// # Errors
/// `NoMemory` where memory ran out, and for nothing else.
pub fn port_names(alloc: Global, source: &Source) -> Result<Vec<Name>, NoMemory>
    ensures { IfOk result (λ names. names.items ≡ map (λ port. port.name) (ports_from source.now)) }
{
    match source {
        Source::FromFiles { script: _, ports } => names_of(alloc, ports.as_slice()),
        Source::Made(_) => {
            let names = [port_name(b"em0"), port_name(b"em1"), port_name(b"em2")];
            let names = Vec::from_slice(alloc, &names)?;
            Ok(names)
        }
    }
}
