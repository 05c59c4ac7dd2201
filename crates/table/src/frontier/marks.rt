// The slots that were seen, listed.
ghost use Rattle.std.specs.Prelude.{◌≤◌, length};
ghost use Rattle.search.specs.Searches.{marked_below};
ghost use Rattle.table.specs.Views.{Listed};

use crate::frontier::Frontier;

impl Frontier<'_> {
    // Writes the seen slots to the front of the list, ascending; how many they are. The count is the
    // place to write to as well, so no chain is plainer.
    pub(crate) fn list_seen(&self, list: &mut [u32]) -> usize
        requires { length self.now.seen ≤ length list.old }
        ensures { Listed (marked_below self.now.seen (length self.now.seen)) list.old result list.new }
    {
        let seen = &*self.seen;
        let mut count = 0;
        for (i, mark) in seen.iter().enumerate() {
            if *mark == 1 {
                // it fits, since a tidy queue has fewer than 2 ^ 32 slots
                list[count] = i as u32;
                count += 1;
            }
        }
        count
    }
}
