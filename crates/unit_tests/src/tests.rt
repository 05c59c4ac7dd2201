// Examples, run.
mod examples;
mod inputs;
mod placings;
mod texts;
