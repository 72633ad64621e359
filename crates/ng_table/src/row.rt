// A row of the table.
use ng_shape::Shape;

/// A control message that nodes know.
#[derive(Clone, Copy)]
pub struct Row {
    /// Its name, as `ngctl msg` takes it.
    pub name: &'static str,
    /// Its number, with the bits `READ_ONLY` and `HAS_ANSWER` of ng_message where they hold of it.
    pub number: u32,
    /// What its arguments are made of: `Nothing` where it takes none.
    pub args: &'static Shape,
    /// What its answer is made of: `Nothing` where it has none.
    pub answer: &'static Shape,
}
