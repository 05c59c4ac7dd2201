// What places the keys of lines.
ghost use Rattle.std.specs.Prelude.{◌≡◌, ◌≤◌, ◌++◌, length, IfOk, OnOk, replicate};
ghost use Rattle.std.specs.Option.{option_copied};
ghost use Rattle.placing.specs.Answers.{line_key, answer_text, Kept};
ghost use Rattle.placing.specs.Outcomes.{outcome_of};
ghost use Rattle.placing.specs.Places.{PlacedBy};

use crate::placed::Placed;
use keys::{Kind, Refusal};
use places::{Rule, fnv1a};
use spread::Spread;
use std::alloc::AllocError;
use std::io::Write;
use text::Spelled;

// What became of a line.
#[derive(Clone, Copy, Debug, PartialEq, Eq)]
pub enum Outcome {
    Placed,
    Refused,
}

// A rule, the seed of the words that are shown, and how the keys so far spread.
#[derive(Drop)]
pub struct Placer<'a, R> {
    pub rule: &'a R,
    pub seed: u32,
    pub spread: Spread,
}

impl<'a, R> Placer<'a, R> {
    // No key is placed yet.
    pub fn new<K: Kind>(rule: &'a R, seed: u32) -> Self
    where
        R: Rule<K>,
        ensures rule { result.rule.now ≡ rule.now }
        ensures seed { result.seed ≡ seed }
        ensures spread { result.spread ≡ replicate (R.Rule.count rule.now) 0 }
    {
        let spread = Spread::over::<K, R>(rule);
        Placer { rule, seed, spread }
    }

    // Reads the key that a line says, and places it. A line that is too long says none.
    fn place<K: Spelled>(&self, line: Option<&[u8]>) -> Result<Placed<K>, Refusal>
    where
        R: Rule<K>,
        ensures { PlacedBy K.Kind.bytes (R.Rule.places self.now.rule.now) self.now.seed
            (line_key K.Spelled.reads (option_copied line.entry)) result }
    {
        let key = K::read(line.ok_or(Refusal::BadLine)?)?;
        let word = fnv1a(self.seed, &key);
        let choices = self.rule.choices(&key);
        Ok(Placed { key, word, choices })
    }

    // Appends the answer to a line, and notes the key that it says.
    pub fn answer<K: Spelled>(
        &mut self,
        line: Option<&[u8]>,
        out: &mut Vec<u8>,
    ) -> Result<Outcome, AllocError>
    where
        R: Rule<K>,
        ensures outcome { IfOk result (λ o. o ≡ outcome_of (line_key K.Spelled.reads (option_copied line.entry))) }
        ensures text { OnOk result (out.new.items ≡ out.old.items
            ++ answer_text K.Spelled.text (R.Rule.places self.old.rule.now) self.old.seed
            (line_key K.Spelled.reads (option_copied line.entry))) }
        ensures counts { Kept (R.Rule.places self.old.rule.now)
            (line_key K.Spelled.reads (option_copied line.entry)) self.old.spread self.new.spread }
        ensures some { 1 ≤ length self.new.spread }
        ensures few { length self.new.spread ≤ 512 }
        ensures same { self.new ≡ record self.old { spread = self.new.spread } }
    {
        // a look at the spread, from which the proof has how many counts there are
        let _ = self.spread.buckets();
        match self.place::<K>(line) {
            Ok(placed) => {
                self.spread.note(&placed.choices);
                placed.write_line(out)?;
                Ok(Outcome::Placed)
            }
            Err(refusal) => {
                // a vector wants nothing but memory
                writeln!(out, "{refusal}").map_err(|_| AllocError)?;
                Ok(Outcome::Refused)
            }
        }
    }
}
