// A key noted with its choices.
ghost use Rattle.std.specs.Prelude.{◌≡◌, ◌≤◌, length, replicate, slice_index, slice_set};
ghost use Rattle.places.specs.Choices.{listed};
ghost use Rattle.spread.specs.Spreads.{more, Noted};

use crate::spread::Spread;
use arrayvec::ArrayVec;
use keys::Kind;
use places::{Choices, Rule};

// One key more for the bucket, if there is one.
fn note_bucket(counts: &mut ArrayVec<u64, 512>, bucket: usize)
    ensures { counts.new.items
        ≡ slice_set counts.old.items bucket (more (slice_index counts.old.items bucket)) }
{
    if let Some(count) = counts.get_mut(bucket) {
        *count = count.saturating_add(1);
    }
}

// One key more for each bucket among the choices.
fn note_all(counts: &mut ArrayVec<u64, 512>, choices: &[usize])
    ensures { Noted choices.now counts.old.items counts.new.items }
{
    for (j, bucket) in choices.iter().enumerate() {
        if !choices[..j].contains(bucket) {
            note_bucket(counts, *bucket);
        }
    }
}

impl Spread {
    // No key yet, over the buckets of a rule.
    pub fn over<K: Kind, R: Rule<K>>(rule: &R) -> Spread
        ensures none { result ≡ replicate (R.Rule.count rule.now) 0 }
        ensures some { 1 ≤ length result }
        ensures few { length result ≤ 512 }
    {
        let mut counts = ArrayVec::from([0; 512]);
        counts.truncate(rule.buckets());
        Spread { counts }
    }

    // One key more, with its choices.
    pub fn note(&mut self, choices: &Choices)
        ensures noted { Noted (listed choices.now) self.old self.new }
        ensures some { 1 ≤ length self.new }
        ensures few { length self.new ≤ 512 }
    {
        note_all(&mut self.counts, choices.as_slice());
    }
}
