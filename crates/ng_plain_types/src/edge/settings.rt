// The numbers that an ether keeps, and its messages.
ghost use Rattle.std.specs.Prelude.{◌≡◌, IfOk};
ghost use Rattle.byteorder.specs.Endian.{little_bytes};
ghost use Rattle.ng_machine.specs.kinds.Ether.{blank_ether, ether_message};

use ng_base::{Bytes, Errno, NoMemory};
use ng_machine::Outcome;
use ng_message::{HAS_ANSWER, READ_ONLY, put_u32, u32_at};
use ng_plan::{answers, fails, nothing};
use std::alloc::Global;
use std::marker::Model;

/// `NGM_ETHER_SET_PROMISC`.
const SET_PROMISCUOUS: u32 = 1;

/// `NGM_ETHER_GET_PROMISC`.
const GET_PROMISCUOUS: u32 = READ_ONLY + HAS_ANSWER + 2;

/// `NGM_ETHER_SET_AUTOSRC`.
const SET_SOURCE: u32 = 3;

/// `NGM_ETHER_GET_AUTOSRC`.
const GET_SOURCE: u32 = READ_ONLY + HAS_ANSWER + 4;

/// What an ether keeps beside its hooks. It is told by messages, and has no other effect.
#[derive(Drop)]
pub(super) struct Settings {
    /// Whether the port takes frames to any address: 0 for no.
    promiscuous: u32,
    /// Whether the port writes the source address of frames: 0 for no.
    source: u32,
}

impl Model for Settings {
    ghost use Rattle.ng_machine.specs.kinds.Ether.{Ether};

    ghost Value = { Ether };

    ghost view = { λ s. record { promiscuous = s.promiscuous; source = s.source } };
}

/// A number as the bytes of an answer.
fn number(alloc: Global, value: u32) -> Result<Bytes, NoMemory>
    ensures { IfOk result (λ bytes. bytes ≡ little_bytes 4 value) }
{
    let mut out = Vec::new(alloc);
    put_u32(&mut out, value)?;
    Ok(Bytes(out))
}

impl Settings {
    /// Those of a port that nobody set.
    pub(super) fn new() -> Settings
        ensures { result ≡ blank_ether }
    {
        Settings {
            promiscuous: 0,
            source: 0,
        }
    }

    /// What a message is answered. One that sets has a number of 4 bytes, and one that gets has no arguments.
    pub(super) fn reply(
        &self,
        alloc: Global,
        command: u32,
        args: &[u8],
    ) -> Result<Outcome, NoMemory>
        ensures { IfOk result (λ outcome. outcome ≡ (ether_message self.now command args.now).outcome) }
    {
        match (command, args.len()) {
            (SET_PROMISCUOUS | SET_SOURCE, 4) => Ok(nothing(alloc)),
            (GET_PROMISCUOUS, 0) => Ok(answers(alloc, number(alloc, self.promiscuous)?)),
            (GET_SOURCE, 0) => Ok(answers(alloc, number(alloc, self.source)?)),
            _ => Ok(fails(alloc, Errno::INVAL)),
        }
    }

    /// What a message makes of the settings. It takes no memory.
    pub(super) fn obey(&mut self, command: u32, args: &[u8])
        ensures { self.new ≡ (ether_message self.old command args.now).after }
    {
        match (command, args.len()) {
            (SET_PROMISCUOUS, 4) => self.promiscuous = u32_at(args, 0),
            (SET_SOURCE, 4) => self.source = u32_at(args, 0),
            _ => {}
        }
    }
}
