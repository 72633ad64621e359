// Reading the words of ports.
ghost use Rattle.std.specs.Prelude.{◌≡◌, ◌==◌, IfOk, MatchOption, Some, None, map, string_bytes};
ghost use Rattle.std.specs.List.{list_any};
ghost use Rattle.ng_args.specs.Ports.{split_at, equals, comma, files_of, port_of, ports_of};

use crate::names::read_node_name;
use crate::{FileName, PortForm, PortWord};
use ng_base::{NoMemory, Sequence};
use std::alloc::Global;

fn split_at_equals(word: &str) -> Option<(&str, &str)>
    ensures { MatchOption result (split_at equals word.now ≡ None) (λ parts. split_at equals word.now ≡ Some (parts.0.now, parts.1.now)) }
{
    word.split_once('=')
}

fn split_at_comma(files: &str) -> Option<(&str, &str)>
    ensures { MatchOption result (split_at comma files.now ≡ None) (λ parts. split_at comma files.now ≡ Some (parts.0.now, parts.1.now)) }
{
    files.split_once(',')
}

fn has_comma(file: &str) -> bool
    ensures { result ≡ list_any (λ b. b == comma) file.now }
{
    file.as_bytes().iter().any(|byte| *byte == b',')
}

fn split_files(form: PortForm, files: &str) -> Option<(&str, &str)>
    ensures { MatchOption result (files_of form files.now ≡ None) (λ parts. files_of form files.now ≡ Some (parts.0.now, parts.1.now)) }
{
    match form {
        PortForm::InAlone => Some((files, "")),
        PortForm::InAndOut => {
            let (in_file, out_file) = split_at_comma(files)?;
            if has_comma(out_file) {
                None
            } else {
                Some((in_file, out_file))
            }
        }
    }
}

fn read_port(alloc: Global, form: PortForm, word: &str) -> Result<Option<PortWord>, NoMemory>
    ensures { IfOk result (λ port. port ≡ port_of form word.now) }
{
    let Some((name, files)) = split_at_equals(word) else {
        return Ok(None);
    };
    let Some((in_file, out_file)) = split_files(form, files) else {
        return Ok(None);
    };
    let Some(name) = read_node_name(name.as_bytes()) else {
        return Ok(None);
    };
    Ok(Some(PortWord {
        name,
        in_file: FileName(String::from_str(alloc, in_file)?),
        out_file: FileName(String::from_str(alloc, out_file)?),
    }))
}

/// The ports that the words name, where each of them names one.
///
/// # Errors
/// `NoMemory` where memory ran out, and for nothing else.
pub(crate) fn read_ports(
    alloc: Global,
    form: PortForm,
    words: &[String],
) -> Result<Option<Sequence<PortWord>>, NoMemory>
    ensures { IfOk result (λ ports. ports ≡ ports_of form (map (λ word. string_bytes word) words.now)) }
{
    let mut ports = Sequence::new(alloc);
    for word in words {
        let Some(port) = read_port(alloc, form, word.as_str())? else {
            return Ok(None);
        };
        ports.push(port)?;
    }
    Ok(Some(ports))
}
