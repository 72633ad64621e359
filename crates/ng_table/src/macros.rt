// How shapes and rows are written in the table.

// A structure: the name and the shape of each field.
macro_rules! structure {
    ($($name:literal: $shape:expr),* $(,)?) => {
        ng_shape::Shape::Struct(&[$(ng_shape::Field { name: $name, shape: $shape }),*])
    };
}

// A row: the name, the number, the shape of the arguments and that of the answer.
macro_rules! row {
    ($name:literal, $number:expr, $args:expr => $answer:expr) => {
        crate::Row {
            name: $name,
            number: $number,
            args: &$args,
            answer: &$answer,
        }
    };
}

pub(crate) use row;
pub(crate) use structure;
