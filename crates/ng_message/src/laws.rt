//! Laws of the layout and of the numbers. Each function does nothing: its contract is the law.

ghost use Rattle.std.specs.Prelude.{◌≡◌};
ghost use Rattle.ng_message.specs.Laws.{HasAHeader, HasOneHeader, ReadsNameBack, ReadsNumberBack};
ghost use Rattle.ng_message.specs.Numbers.{ng_version, generic_cookie, read_only, has_answer, answer_flag};
ghost use Rattle.ng_message.specs.Numbers.{shutdown_number, mkpeer_number, connect_number, name_number, rmhook_number, nodeinfo_number, listhooks_number, listnames_number, listnodes_number, listtypes_number, text_status_number, binary2ascii_number, ascii2binary_number, text_config_number};

use crate::generic::{
    ASCII2BINARY, BINARY2ASCII, CONNECT, LISTHOOKS, LISTNAMES, LISTNODES, LISTTYPES, MKPEER, NAME,
    NODEINFO, RMHOOK, SHUTDOWN, TEXT_CONFIG, TEXT_STATUS,
};
use crate::{ANSWER_FLAG, GENERIC_COOKIE, HAS_ANSWER, READ_ONLY, VERSION};

/// No two headers begin the same bytes.
pub fn one_header()
    ensures { HasOneHeader }
{}

/// Bytes that are enough for a header begin with one.
pub fn some_header()
    ensures { HasAHeader }
{}

/// A number is read where it was put.
pub fn number_read_back()
    ensures { ReadsNumberBack }
{}

/// A name is read where it was put.
pub fn name_read_back()
    ensures { ReadsNameBack }
{}

/// The constants of this crate are the numbers of `specs/Numbers.antt`.
pub fn numbers_agree()
    ensures header { (VERSION ≡ ng_version) × (GENERIC_COOKIE ≡ generic_cookie) × (ANSWER_FLAG ≡ answer_flag) }
    ensures bits { (READ_ONLY ≡ read_only) × (HAS_ANSWER ≡ has_answer) }
    ensures changes { (SHUTDOWN ≡ shutdown_number) × (MKPEER ≡ mkpeer_number) × (CONNECT ≡ connect_number)
        × (NAME ≡ name_number) × (RMHOOK ≡ rmhook_number) × (TEXT_CONFIG ≡ text_config_number) }
    ensures questions { (NODEINFO ≡ nodeinfo_number) × (LISTHOOKS ≡ listhooks_number)
        × (LISTNAMES ≡ listnames_number) × (LISTNODES ≡ listnodes_number) × (LISTTYPES ≡ listtypes_number) }
    ensures texts { (TEXT_STATUS ≡ text_status_number) × (BINARY2ASCII ≡ binary2ascii_number)
        × (ASCII2BINARY ≡ ascii2binary_number) }
{}
