// Reading an address.
ghost use Rattle.std.specs.Prelude.{◌≡◌, ◌+◌, ◌<◌, ◌^◌, ◌≤◌, [], ◌∷◌, ◌++◌, ℕ, List, length, IsTrue, ◌↔◌, IsOkAnd, MatchResult, MatchOption};
ghost use Rattle.std.specs.Str.Parse.{AllDigits, digits_value};
ghost use Rattle.ng_path.specs.declared.fault.PathFault.{PathFault};
ghost use Rattle.ng_path.specs.declared.path.Head.{Head};
ghost use Rattle.ng_path.specs.Segments.{cut_at, hook_names};
ghost use Rattle.ng_path.specs.Grammar.{IsPath, IsNodeText, IsHookText, IsIdText};
ghost use Rattle.ng_path.specs.Faults.{IsFirstFault, IsFirstOf, IsHookFault, IsBadSegment, StartsWithDot};

use crate::cut::cut;
use crate::{Head, Hooks, Path, PathFault};
use ng_base::{Name, NodeId};

const MAX_PATH: usize = 511;

const MAX_DIGITS: usize = 8;

/// The number that hexadecimal digits write, or `None` where some byte is no such digit.
fn read_hex(digits: &[u8]) -> Option<u32>
    requires { length digits.now ≤ 8 }
    ensures { MatchOption result (AllDigits 16 digits.now → ⊥)
        (λ number. AllDigits 16 digits.now × (number ≡ digits_value 16 digits.now)) }
{
    let mut number = 0u32;
    for byte in digits {
        number = number * 16 + char::from(*byte).to_digit(16)?;
    }
    Some(number)
}

/// The node number that the bytes between brackets write.
fn read_id(digits: &[u8]) -> Option<NodeId>
    ensures { MatchOption result ((id : ℕ) → IsIdText digits.now id → ⊥) (λ id. IsIdText digits.now id.0) }
{
    if digits.is_empty() || digits.len() > MAX_DIGITS {
        return None;
    }
    Some(NodeId(read_hex(digits)?))
}

/// What is behind an opening bracket, or `None` where the text begins with none.
fn after_bracket(text: &[u8]) -> Option<&[u8]>
    ensures { MatchOption result ((rest : List ℕ) → text.now ≡ 0x5b ∷ rest → ⊥) (λ rest. text.now ≡ 0x5b ∷ rest.now) }
{
    text.strip_prefix(b"[")
}

/// What is before a closing bracket, or `None` where the text ends with none.
fn before_bracket(text: &[u8]) -> Option<&[u8]>
    ensures { MatchOption result ((front : List ℕ) → text.now ≡ front ++ 0x5d ∷ [] → ⊥)
        (λ front. text.now ≡ front.now ++ 0x5d ∷ []) }
{
    text.strip_suffix(b"]")
}

fn is_dot(text: &[u8]) -> bool
    ensures { IsTrue result ↔ (text.now ≡ 0x2e ∷ []) }
{
    text == b".".as_slice()
}

/// Where a node part says that an address begins.
fn read_node(text: &[u8]) -> Option<Head>
    ensures { MatchOption result ((head : Head) → IsNodeText text.now head → ⊥) (IsNodeText text.now) }
{
    if is_dot(text) {
        return Some(Head::Local);
    }
    match after_bracket(text) {
        Some(rest) => Some(Head::Id(read_id(before_bracket(rest)?)?)),
        None => Some(Head::Named(Name::read(text).ok()?)),
    }
}

/// Whether a part of a hook part is neither empty nor a name.
fn is_bad(part: &[u8]) -> bool
    ensures { IsTrue result ↔ IsBadSegment part.now }
{
    !part.is_empty() && Name::read(part).is_err()
}

fn starts_with_dot(text: &[u8]) -> bool
    ensures { IsTrue result ↔ StartsWithDot text.now }
{
    text.first() == Some(&b'.')
}

/// The first fault of a hook part that begins at `place`.
fn hook_fault(text: &[u8], place: usize) -> Option<PathFault>
    requires { place + length text.now < 2 ^ 64 }
    ensures { MatchOption result (IsHookText text.now (hook_names text.now))
        (IsFirstOf (IsHookFault place text.now)) }
{
    let mut rest = text;
    let mut at = place;
    'parts: loop {
        let (part, after) = cut(rest, b'.');
        if is_bad(part) {
            return Some(PathFault::BadName(at));
        }
        let Some(after) = after else {
            return None;
        };
        at += part.len();
        if starts_with_dot(after) {
            return Some(PathFault::TwoDots(at));
        }
        at += 1;
        rest = after;
    }
}

/// The hooks of a hook part that begins at `place`.
fn read_hooks(text: &[u8], place: usize) -> Result<Hooks<'_>, PathFault>
    requires { place + length text.now < 2 ^ 64 }
    ensures { MatchResult result (IsHookText text.now) (IsFirstOf (IsHookFault place text.now)) }
{
    match hook_fault(text, place) {
        Some(fault) => Err(fault),
        None => Ok(Hooks::of(text)),
    }
}

/// Reads an address that has no `:`.
fn read_local(bytes: &[u8]) -> Result<Path<'_>, PathFault>
    requires short { length bytes.now ≤ 511 }
    requires no_colon { cut_at 0x3a bytes.now ≡ bytes.now ∷ [] }
    ensures { MatchResult result (λ path. IsPath bytes.now path.head path.hooks) (IsFirstFault bytes.now) }
{
    if bytes.is_empty() {
        return Err(PathFault::BadName(0));
    }
    Ok(Path {
        head: Head::Local,
        hooks: read_hooks(bytes, 0)?,
    })
}

/// Reads an address from its node part and what stands behind the first `:`.
fn read_absolute<'a>(node: &[u8], behind: &'a [u8]) -> Result<Path<'a>, PathFault>
    requires short { length node.now + length behind.now < 511 }
    requires parts { cut_at 0x3a (node.now ++ 0x3a ∷ behind.now) ≡ node.now ∷ cut_at 0x3a behind.now }
    ensures { let bytes = node.now ++ 0x3a ∷ behind.now in
        MatchResult result (λ path. IsPath bytes path.head path.hooks) (IsFirstFault bytes) }
{
    if node.is_empty() {
        return Err(PathFault::EmptyNode);
    }
    let Some(head) = read_node(node) else {
        return Err(PathFault::BadName(0));
    };
    let place = node.len() + 1;
    let (text, second) = cut(behind, b':');
    let hooks = read_hooks(text, place)?;
    if second.is_some() {
        return Err(PathFault::SecondColon(place + text.len()));
    }
    Ok(Path { head, hooks })
}

/// Reads an address, as ngctl(8) takes it and netgraph(4) describes it. It takes no memory.
///
/// An address is a node part, `:` and a hook part, or a hook part alone, which begins at
/// `Head::Local` and isn't empty. A node part is `.` for `Head::Local`, `[`, 1 to 8 hexadecimal
/// digits of either case and `]` for `Head::Id`, or a name that doesn't begin with `[` for
/// `Head::Named`. A hook part is empty, or names with a dot between them. One dot may stand in front
/// of it and one behind it; where it names no hook, one dot may stand alone. So `.` is
/// `Head::Local` without hooks, and `br0:link0.` is the node `br0` and its hook `link0`.
///
/// # Errors
/// `TooLong` exactly where there are more than 511 bytes, before any other fault. Of all others the
/// fault of least place, from 0:
/// - `EmptyNode` where the first byte is `:`, before any other fault at place 0;
/// - `BadName(0)` where a node part has none of the three forms, or where there are no bytes;
/// - `TwoDots(place)` where two dots of the hook part are adjacent, with the place of the first;
/// - `BadName(place)` where what stands between the dots of the hook part, from that place on, is
///   neither empty nor a name;
/// - `SecondColon(place)` where there is a second `:`. It ends the hook part, and nothing behind it
///   is looked at.
pub fn read_path(bytes: &[u8]) -> Result<Path<'_>, PathFault>
    ensures read { MatchResult result (λ path. IsPath bytes.now path.head path.hooks) (IsFirstFault bytes.now) }

    // The path that the bytes are is answered, and so is the fault that they have first.
    ensures path { (head : Head) (hooks : List (List ℕ)) → IsPath bytes.now head hooks
        → IsOkAnd result (λ path. (path.head ≡ head) × (path.hooks ≡ hooks)) }
    ensures fault { (fault : PathFault) → IsFirstFault bytes.now fault → result ≡ Err fault }
{
    if bytes.len() > MAX_PATH {
        return Err(PathFault::TooLong);
    }
    let (node, behind) = cut(bytes, b':');
    match behind {
        None => read_local(bytes),
        Some(behind) => read_absolute(node, behind),
    }
}
