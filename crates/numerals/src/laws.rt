// What is proved of the texts of numbers: each theorem is the contract of a function.
ghost use Rattle.numerals.specs.Laws.{NumbersReadBack, NumbersExact};

// A number below 10 ^ 18 that is written and read is that number.
pub fn numbers_read_back()
    ensures { NumbersReadBack }
{}

// Each number has one text: a text that is read is what is written of the number.
pub fn numbers_exact()
    ensures { NumbersExact }
{}
