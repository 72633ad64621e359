// Laws of numbers as words. Each function does nothing: its contract is the law.
ghost use Rattle.ng_decimal.specs.Laws.{DigitsAreRead, ReadAreDigits};

/// The digits of a number in the range say that number.
pub fn digits_are_read()
    ensures { DigitsAreRead }
{}

/// A word that says a number is its digits, and the number is in the range.
pub fn read_are_digits()
    ensures { ReadAreDigits }
{}
