// What a message's arguments are made of.

/// What arguments are made of. These are the types of netgraph's own text forms (ng_parse.h), as far
/// as its messages use them.
#[cycle(shape)]
#[derive(Clone, Copy)]
pub enum Shape {
    /// Nothing at all, in no bytes.
    Nothing,
    /// An unsigned integer of 8, 16, 32 or 64 bits, written in decimal.
    UInt(u8),
    /// A signed integer of 8, 16, 32 or 64 bits, in two's complement.
    Int(u8),
    /// An unsigned integer of 8, 16, 32 or 64 bits, written in hexadecimal.
    Hex(u8),
    /// A string in so many bytes, its own and at least one NUL behind them.
    Str(u32),
    /// An Ethernet address, in 6 bytes.
    Ether,
    /// Fields with names, one after the other.
    Struct(&'static [Field]),
    /// So many elements, one after the other.
    Array(u32, &'static Shape),
    /// Elements, one after the other, as many as a field that stands before them says.
    Counted {
        /// The field that says how many there are.
        by: CountField,
        /// The greatest number of them.
        max: u32,
        /// What each of them is.
        element: &'static Shape,
    },
}

/// A field of a structure.
#[cycle(shape)]
#[derive(Clone, Copy)]
pub struct Field {
    /// Its name, a word of letters, digits, `_`, `-` and `:`.
    pub name: &'static str,
    /// What stands in it.
    pub shape: Shape,
}

/// The field that says how many elements an array has.
#[derive(Clone, Copy, Debug)]
pub enum CountField {
    /// An earlier field of the structure that the array is a field of, by its name.
    Own(&'static str),
    /// A field of a structure that is itself an earlier field: the name of that structure, and the
    /// name of the field in it.
    Inside(&'static str, &'static str),
}
