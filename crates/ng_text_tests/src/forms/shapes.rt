// Shapes, values and bytes that were worked out by hand.
use ng_shape::Shape;

/// A field.
macro_rules! field {
    ($name:literal, $shape:expr) => {
        Field {
            name: $name,
            shape: $shape,
        }
    };
}

/// A counted array.
macro_rules! counted {
    ($by:expr, $max:expr, $element:expr) => {
        Shape::Counted {
            by: $by,
            max: $max,
            element: $element,
        }
    };
}

mod faults;
mod shapes;
mod values;

const U8: Shape = Shape::UInt(8);
