// Tables made, and taken apart again.
ghost use Rattle.std.specs.Prelude.{◌≡◌};
ghost use Rattle.table.specs.Tables.{MakeTells};

use crate::stash::empty_front;
use crate::{Table, Unmade};
use banks::Bank;
use keys::Refusal;
use places::Rule;

impl<B: Bank, R: Rule<B::Key>> Table<B, R> {
    // A table over the first slots of the bank, all of them emptied. The sizes are looked at before the
    // bank's length.
    pub(crate) fn new(
        mut bank: B,
        rule: R,
        width: usize,
        stash: usize,
    ) -> Result<Table<B, R>, Unmade<B, R>>
        ensures { MakeTells bank rule width stash result }
    {
        // an error written twice, for a closure that writes it would take the bank and the rule
        if width < 1 || width > 4 || stash > 8 {
            return Err(Unmade {
                refusal: Refusal::Size,
                bank,
                rule,
            });
        }
        let n = rule.buckets() * width + stash;
        if bank.len() < n {
            return Err(Unmade {
                refusal: Refusal::BankShort,
                bank,
                rule,
            });
        }
        empty_front(&mut bank, n);
        Ok(Table {
            bank,
            rule,
            width,
            stash,
        })
    }

    // The bank and the rule, given back.
    pub(crate) fn into_parts(self) -> (B, R)
        ensures { (result.0 ≡ self.bank) × (result.1 ≡ self.rule) }
    {
        let Table {
            bank,
            rule,
            width: _,
            stash: _,
        } = self;
        (bank, rule)
    }
}
