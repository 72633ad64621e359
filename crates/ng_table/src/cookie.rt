// The cookies of messages: which type of node a number is of.
ghost use Rattle.std.specs.Prelude.{◌≡◌};
ghost use Rattle.ng_table.specs.Cookie.{cookie_of, kind_with};

use ng_base::Kind;

const HUB: u32 = 0x4e47_0001;

const HOLE: u32 = 0x4e47_0002;

const ECHO: u32 = 0x4e47_0003;

const TEE: u32 = 0x4e47_0004;

const SPLIT: u32 = 0x4e47_0005;

const ONE2MANY: u32 = 0x4e47_0006;

const BRIDGE: u32 = 0x4e47_0007;

const VLAN: u32 = 0x4e47_0008;

const PATCH: u32 = 0x4e47_0009;

const BPF: u32 = 0x4e47_000a;

const ETHER: u32 = 0x4e47_000b;

const SOCKET: u32 = 0x4e47_000c;

const ETF: u32 = 0x4e47_000d;

const MACSET: u32 = 0x4e47_000e;

/// The cookie of the messages of a type of node. The numbers are this project's own.
pub fn cookie_of(kind: Kind) -> u32
    ensures { result ≡ cookie_of kind }
{
    match kind {
        Kind::Hub => HUB,
        Kind::Hole => HOLE,
        Kind::Echo => ECHO,
        Kind::Tee => TEE,
        Kind::Split => SPLIT,
        Kind::One2many => ONE2MANY,
        Kind::Bridge => BRIDGE,
        Kind::Vlan => VLAN,
        Kind::Patch => PATCH,
        Kind::Bpf => BPF,
        Kind::Ether => ETHER,
        Kind::Socket => SOCKET,
        Kind::Etf => ETF,
        Kind::Macset => MACSET,
    }
}

// The type of node whose messages have the cookie.
pub(crate) fn kind_with(cookie: u32) -> Option<Kind>
    ensures { result ≡ kind_with cookie }
{
    match cookie {
        HUB => Some(Kind::Hub),
        HOLE => Some(Kind::Hole),
        ECHO => Some(Kind::Echo),
        TEE => Some(Kind::Tee),
        SPLIT => Some(Kind::Split),
        ONE2MANY => Some(Kind::One2many),
        BRIDGE => Some(Kind::Bridge),
        VLAN => Some(Kind::Vlan),
        PATCH => Some(Kind::Patch),
        BPF => Some(Kind::Bpf),
        ETHER => Some(Kind::Ether),
        SOCKET => Some(Kind::Socket),
        ETF => Some(Kind::Etf),
        MACSET => Some(Kind::Macset),
        _ => None,
    }
}
