// Values, as they are read from a text or from bytes, and what can be read off them.
ghost use Rattle.std.specs.Prelude.{◌≡◌};
ghost use Rattle.ng_shape.specs.Values.{chars, is_absent, members, members_of, number, value_of};

/// A value of a shape.
#[cycle(tree)]
#[derive(Debug, Drop, PartialEq, Eq)]
pub enum Tree {
    /// Nothing was given: zeros.
    Absent,
    /// A number.
    Number {
        /// How many bytes of the text are left where it begins; 0 where it comes from no text.
        left: usize,
        /// The number: of a signed integer, its two's complement in as many bits as the integer has.
        value: u64,
    },
    /// The bytes of a string, or the six of an Ethernet address.
    Text(Vec<u8>),
    /// Fields of a structure or elements of an array.
    Group {
        /// How many bytes of the text are left where it begins; 0 where it comes from no text.
        left: usize,
        /// Those that were given, in the order in which they were given; the others are zeros.
        members: Vec<Member>,
    },
}

/// A field or an element that was given.
#[cycle(tree)]
#[derive(Debug, Drop, PartialEq, Eq)]
pub struct Member {
    /// Which one it is, counted from 0.
    pub number: u64,
    /// Its value.
    pub tree: Tree,
}

impl Tree {
    /// Whether nothing was given.
    pub fn is_absent(&self) -> bool
        ensures { result ≡ is_absent (value_of self.now) }
    {
        matches!(self, Tree::Absent)
    }

    /// The number that a value is; 0 where it is none.
    pub fn number(&self) -> u64
        ensures { result ≡ number (value_of self.now) }
    {
        match self {
            Tree::Number { value, .. } => *value,
            _ => 0,
        }
    }

    /// The bytes of the string or of the address that a value is; none where it is neither.
    pub fn chars(&self) -> &[u8]
        ensures { result.now ≡ chars (value_of self.now) }
    {
        match self {
            Tree::Text(bytes) => bytes,
            _ => &[],
        }
    }

    /// The members of a group, in the order in which they were given; none where a value is no group.
    pub fn members(&self) -> &[Member]
        ensures { members_of result.now ≡ members (value_of self.now) }
    {
        match self {
            Tree::Group { members, .. } => members,
            _ => &[],
        }
    }
}
