// The worked examples follow from the definitions.
ghost use Rattle.rules.specs.Examples.{ExamplesHold};

// Every line of the table of examples holds.
pub fn examples_hold()
    ensures { ExamplesHold }
{}
