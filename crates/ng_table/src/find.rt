// Look-ups in the table.
ghost use Rattle.std.specs.Prelude.{◌≡◌, map, option_map, IfSome};
ghost use Rattle.ng_table.specs.Message.{message_of, message_seen};
ghost use Rattle.ng_table.specs.Table.{find_name, find_number, messages_with, find_by_name, find_by_number};
ghost use Rattle.ng_table.specs.Laws.{HasShapes};

use crate::cookie::kind_with;
use crate::rows::{generic, rows_of};
use crate::{Row, cookie_of};
use ng_base::Kind;
use ng_message::GENERIC_COOKIE;

// The first row of that name.
fn find_by_name(rows: &'static [Row], name: &[u8]) -> Option<&'static Row>
    ensures { message_seen result ≡ find_by_name (map message_of rows.now) name.now }
{
    for row in rows {
        if row.name.as_bytes() == name {
            return Some(row);
        }
    }
    None
}

// The first row of that number.
fn find_by_number(rows: &'static [Row], number: u32) -> Option<&'static Row>
    ensures { message_seen result ≡ find_by_number (map message_of rows.now) number }
{
    for row in rows {
        if row.number == number {
            return Some(row);
        }
    }
    None
}

// The rows of a cookie.
fn rows_with(cookie: u32) -> &'static [Row]
    ensures { map message_of result.now ≡ messages_with cookie }
{
    if cookie == GENERIC_COOKIE {
        return generic::rows();
    }
    match kind_with(cookie) {
        Some(kind) => rows_of(kind),
        None => &[],
    }
}

/// The message of that name which a node of the type knows, with its cookie: one of the type's own messages,
/// or one that all nodes know. `None` exactly where there is no such message. Takes no memory.
///
/// Both of the row's shapes are shapes, as `ng_shape::is_shape` says.
pub fn find_name(kind: Kind, name: &[u8]) -> Option<(u32, &'static Row)>
    ensures found { option_map (λ x. (x.0, message_of x.1.now)) result ≡ find_name kind name.now }
    ensures shapes { IfSome result (λ x. HasShapes (message_of x.1.now)) }
{
    if let Some(row) = find_by_name(rows_of(kind), name) {
        return Some((cookie_of(kind), row));
    }
    let row = find_by_name(generic::rows(), name)?;
    Some((GENERIC_COOKIE, row))
}

/// The message of that cookie and number. `None` exactly where there is no such message. Takes no memory.
///
/// Both of the row's shapes are shapes, as `ng_shape::is_shape` says.
pub fn find_number(cookie: u32, number: u32) -> Option<&'static Row>
    ensures found { message_seen result ≡ find_number cookie number }
    ensures shapes { IfSome result (λ row. HasShapes (message_of row.now)) }
{
    find_by_number(rows_with(cookie), number)
}
