// Laws of the table. Each function does nothing: its contract is the law.
ghost use Rattle.ng_table.specs.Laws.{NumbersAndNamesDiffer, NumbersTellOfAnswers, RowsAreFound, ShapesAreShapes};

/// What each row says of arguments and of an answer is a shape.
pub fn shapes_are_shapes()
    ensures { ShapesAreShapes }
{}

/// The bits of each row's number say whether it is answered, and one that changes nothing is answered.
pub fn numbers_tell_of_answers()
    ensures { NumbersTellOfAnswers }
{}

/// No two rows of one cookie have one number or one name.
pub fn numbers_and_names_differ()
    ensures { NumbersAndNamesDiffer }
{}

/// Each row is found by its name, and by its cookie and number.
pub fn rows_are_found()
    ensures { RowsAreFound }
{}
