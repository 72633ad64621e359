// Texts and bytes that were worked out by hand from the grammar of the forms.

/// A field.
macro_rules! field {
    ($name:literal, $shape:expr) => {
        Field {
            name: $name,
            shape: $shape,
        }
    };
}

mod arrays;
mod counts;
mod leaves;
mod printing;
mod structures;

use ng_parse::{TextFault, to_bytes, to_text};
use ng_shape::{Field, Shape};
use std::alloc::Global;
use std::process::Abort;

const U8: Shape = Shape::UInt(8);

/// The configuration of ng_one2many(4).
const MANY_CONFIG: Shape = Shape::Struct(&[
    field!("xmitAlg", Shape::UInt(32)),
    field!("failAlg", Shape::UInt(32)),
    field!("enabledLinks", Shape::Array(64, &U8)),
]);

/// A shape, and its texts and bytes.
struct Forms {
    shape: Shape,
    /// Each text is a form of these bytes.
    read: &'static [(&'static [u8], &'static [u8])],
    /// Each text has this fault first.
    fail: &'static [(&'static [u8], TextFault)],
    /// The bytes have this text.
    print: &'static [(&'static [u8], &'static [u8])],
    /// Each text is what its own bytes are printed as.
    come_back: &'static [&'static [u8]],
}

impl Forms {
    /// None yet.
    const NONE: Forms = Forms {
        shape: Shape::Nothing,
        read: &[],
        fail: &[],
        print: &[],
        come_back: &[],
    };
}

fn check_read(rt: &impl Abort, alloc: Global, shape: &Shape, text: &[u8], bytes: &[u8]) {
    match to_bytes(alloc, shape, text) {
        Ok(found) => assert_eq!(rt; found.as_slice(), bytes),
        Err(fault) => assert_eq!(rt; Some(fault), None, "instead of bytes"),
    }
}

fn check_fault(rt: &impl Abort, alloc: Global, shape: &Shape, text: &[u8], fault: TextFault) {
    assert_eq!(rt; to_bytes(alloc, shape, text).err(), Some(fault));
}

fn check_print(rt: &impl Abort, alloc: Global, shape: &Shape, bytes: &[u8], text: &[u8]) {
    match to_text(alloc, shape, bytes) {
        Ok(found) => assert_eq!(rt; found.as_slice(), text),
        Err(fault) => assert_eq!(rt; Some(fault), None, "instead of a text"),
    }
}

fn check_return(rt: &impl Abort, alloc: Global, shape: &Shape, text: &[u8]) {
    match to_bytes(alloc, shape, text) {
        Ok(bytes) => check_print(rt, alloc, shape, &bytes, text),
        Err(fault) => assert_eq!(rt; Some(fault), None, "instead of bytes"),
    }
}

fn check_bytes(rt: &impl Abort, alloc: Global, forms: &Forms) {
    for (text, bytes) in forms.read {
        check_read(rt, alloc, &forms.shape, text, bytes);
    }
}

fn check_faults(rt: &impl Abort, alloc: Global, forms: &Forms) {
    for (text, fault) in forms.fail {
        check_fault(rt, alloc, &forms.shape, text, *fault);
    }
}

fn check_texts(rt: &impl Abort, alloc: Global, forms: &Forms) {
    for (bytes, text) in forms.print {
        check_print(rt, alloc, &forms.shape, bytes, text);
    }
}

fn check_returns(rt: &impl Abort, alloc: Global, forms: &Forms) {
    for text in forms.come_back {
        check_return(rt, alloc, &forms.shape, text);
    }
}

/// All that is said of each shape.
fn check_forms(rt: &impl Abort, alloc: Global, table: &[Forms]) {
    for forms in table {
        check_bytes(rt, alloc, forms);
        check_faults(rt, alloc, forms);
        check_texts(rt, alloc, forms);
        check_returns(rt, alloc, forms);
    }
}
