// The names of hooks that types speak of, each as the type's manual page gives it.
ghost use Rattle.std.specs.Prelude.{◌≡◌, ◌<◌, ◌≤◌, None};
ghost use Rattle.ng_base.specs.Name.{name_fault};
ghost use Rattle.ng_machine.specs.kinds.Bridge.{link_hook, link_number};
ghost use Rattle.ng_machine.specs.Names.{all_hook, downstream, in_hook, known_hook, left, left2right, lower, mixed, nomatch, one, other_hook, out_hook, right, right2left, upper};
ghost use Rattle.ng_machine.specs.kinds.One2many.{many};
ghost use Rattle.std.specs.Str.{bytes_eq};

use ng_base::Name;

/// Whether a hook has this name.
pub fn is_named(hook: &Name, name: &[u8]) -> bool
    ensures { result ≡ bytes_eq hook.now name.now }
{
    hook.bytes() == name
}

/// The name that the bytes are, which have to be one.
fn named(bytes: &[u8]) -> Name
    requires { name_fault bytes.now ≡ None }
    ensures { result ≡ bytes.now }
{
    match Name::read(bytes) {
        Ok(name) => name,
        Err(_) => unreachable!(),
    }
}

/// `lower` of ng_ether(4).
pub fn lower() -> Name
    ensures { result ≡ lower }
{
    named(b"lower")
}

/// `upper` of ng_ether(4).
pub fn upper() -> Name
    ensures { result ≡ upper }
{
    named(b"upper")
}

/// `in` of ng_split(4) and ng_patch(4).
pub fn in_hook() -> Name
    ensures { result ≡ in_hook }
{
    named(b"in")
}

/// `out` of ng_split(4) and ng_patch(4).
pub fn out_hook() -> Name
    ensures { result ≡ out_hook }
{
    named(b"out")
}

/// `mixed` of ng_split(4).
pub fn mixed() -> Name
    ensures { result ≡ mixed }
{
    named(b"mixed")
}

/// `left` of ng_tee(4).
pub fn left() -> Name
    ensures { result ≡ left }
{
    named(b"left")
}

/// `right` of ng_tee(4).
pub fn right() -> Name
    ensures { result ≡ right }
{
    named(b"right")
}

/// `left2right` of ng_tee(4).
pub fn left2right() -> Name
    ensures { result ≡ left2right }
{
    named(b"left2right")
}

/// `right2left` of ng_tee(4).
pub fn right2left() -> Name
    ensures { result ≡ right2left }
{
    named(b"right2left")
}

/// `one` of ng_one2many(4).
pub fn one() -> Name
    ensures { result ≡ one }
{
    named(b"one")
}

/// `downstream` of ng_vlan(4) and ng_etf(4).
pub fn downstream() -> Name
    ensures { result ≡ downstream }
{
    named(b"downstream")
}

/// `nomatch` of ng_vlan(4) and ng_etf(4).
pub fn nomatch() -> Name
    ensures { result ≡ nomatch }
{
    named(b"nomatch")
}

/// `all` of a macset.
pub fn all_hook() -> Name
    ensures { result ≡ all_hook }
{
    named(b"all")
}

/// `known` of a macset.
pub fn known_hook() -> Name
    ensures { result ≡ known_hook }
{
    named(b"known")
}

/// `other` of a macset.
pub fn other_hook() -> Name
    ensures { result ≡ other_hook }
{
    named(b"other")
}

/// `many0` to `many63` of ng_one2many(4), by the number below 64.
pub fn many(number: u8) -> Name
    requires { number < 64 }
    ensures { result ≡ many number }
{
    let mut text = *b"many00";
    if number < 10 {
        text[4] = b'0' + number;
        named(&text[..5])
    } else {
        text[4] = b'0' + number / 10;
        text[5] = b'0' + number % 10;
        named(&text)
    }
}

/// `link0` to `link31` of ng_bridge(4), by the number; 32 is the number of no link.
pub fn link_hook(number: u8) -> Name
    requires { number ≤ 32 }
    ensures { result ≡ link_hook number }
{
    let mut text = *b"link00";
    if number < 10 {
        text[4] = b'0' + number;
        named(&text[..5])
    } else {
        text[4] = b'0' + number / 10;
        text[5] = b'0' + number % 10;
        named(&text)
    }
}

/// What a name's fifth and sixth byte read as in decimal, if they are digits, and else some number.
fn guess_number(bytes: &[u8]) -> u8 {
    match bytes {
        [_, _, _, _, ones] => ones.wrapping_sub(b'0'),
        [_, _, _, _, tens, ones] => tens
            .wrapping_sub(b'0')
            .wrapping_mul(10)
            .wrapping_add(ones.wrapping_sub(b'0')),
        _ => 0,
    }
}

/// Whether a hook is the bridge's of this number.
fn is_link(hook: &Name, number: u8) -> bool
    requires { number ≤ 32 }
    ensures { result ≡ bytes_eq (link_hook number) hook.now }
{
    let mut text = *b"link00";
    if number < 10 {
        text[4] = b'0' + number;
        &text[..5] == hook.bytes()
    } else {
        text[4] = b'0' + number / 10;
        text[5] = b'0' + number % 10;
        &text[..] == hook.bytes()
    }
}

/// The number of a bridge's hook, below 32, or 32 where it is none.
pub fn link_number(hook: &Name) -> u8
    ensures number { result ≡ link_number hook.now }
    ensures bound { result ≤ 32 }
{
    let guess = guess_number(hook.bytes());
    if guess < 32 && is_link(hook, guess) {
        return guess;
    }
    for number in 0..32 {
        if is_link(hook, number) {
            return number;
        }
    }
    32
}
