// The entries of a log, and one more.
ghost use Rattle.std.specs.Prelude.{◌≡◌, [], ◌∷◌, ◌++◌, length, drop, is_err, Decides, MatchResult};
ghost use Rattle.logs.specs.Logs.{entries_of, past_of};
ghost use Rattle.rows.specs.Refusals.{refusal_no};

use crate::Log;
use rows::refusal::Refusal;

impl<'a, T> Log<'a, T> {
    // A log with no entries.
    pub fn new(rows: &'a mut [T]) -> Log<'a, T>
        ensures empty { entries_of result ≡ [] }
        ensures untouched { past_of result ≡ rows.old }
        ensures lent { result.rows.ghost_name ≡ rows.entry.ghost_name }
    {
        Log { rows, len: 0 }
    }

    // How many entries there are.
    pub fn len(&self) -> usize
        ensures { result ≡ length (entries_of self.now) }
    {
        self.entries().len()
    }

    // The entries, in order.
    pub fn entries(&self) -> &[T]
        ensures { result.now ≡ entries_of self.now }
    {
        &self.rows[..self.len]
    }

    // How many more entries fit.
    pub fn room(&self) -> usize
        ensures { result ≡ length (past_of self.now) }
    {
        self.rows.len() - self.len
    }
}

// An entry takes the place of a row that was there, which is let go.
impl<'a, T: Drop> Log<'a, T> {
    // Keeps one more entry. One that does not fit is refused and alters nothing.
    pub fn enter(&mut self, entry: T) -> Result<(), Refusal>
        ensures entered { MatchResult result
            (λ _. entries_of self.new ≡ entries_of self.old ++ entry ∷ [])
            (λ e. (e ≡ refusal_no 13) × (self.new ≡ self.old)) }
        ensures the_rest_is_untouched { MatchResult result (λ _. past_of self.new ≡ drop 1 (past_of self.old)) (λ _. past_of self.new ≡ past_of self.old) }
        ensures refused_when_full { Decides (is_err result) (past_of self.old ≡ []) }
        ensures same_rows { self.new.rows.ghost_name ≡ self.old.rows.ghost_name }
    {
        if self.len == self.rows.len() {
            return Err(Refusal::LogFull);
        }
        // Tried: `get_mut`, after whose refusal the rows were not shown to be as they were.
        self.rows[self.len] = entry;
        self.len += 1;
        Ok(())
    }
}

#[cfg(test)]
mod tests {
    use crate::Log;
    use rows::refusal::Refusal;

    #[test]
    fn a_third_entry_does_not_fit_two_rows(rt: HostRuntime) {
        let mut rows = [7u8, 8];
        let mut log = Log::new(&mut rows);
        assert_eq!(rt; log.len(), 0);
        assert_eq!(rt; log.enter(1), Ok(()));
        assert_eq!(rt; log.enter(2), Ok(()));
        assert_eq!(rt; log.enter(3), Err(Refusal::LogFull));
        assert_eq!(rt; log.entries(), [1u8, 2].as_slice());
        assert_eq!(rt; rows, [1, 2]);
    }

    #[test]
    fn the_rows_past_the_entries_stay(rt: HostRuntime) {
        let mut rows = [7u8, 8, 9];
        let mut log = Log::new(&mut rows);
        assert_eq!(rt; log.enter(1), Ok(()));
        assert_eq!(rt; log.len(), 1);
        assert_eq!(rt; rows, [1, 8, 9]);
    }

    // A row that is no copy of another.
    #[derive(Debug, Drop, PartialEq, Eq)]
    struct Row(u8);

    #[test]
    fn an_entry_takes_the_place_of_a_row_that_is_not_copied(rt: HostRuntime) {
        let mut rows = [Row(7), Row(8)];
        let mut log = Log::new(&mut rows);
        assert_eq!(rt; log.enter(Row(1)), Ok(()));
        assert_eq!(rt; log.entries(), [Row(1)].as_slice());
        assert_eq!(rt; rows, [Row(1), Row(8)]);
    }

    #[test]
    fn no_rows_hold_no_entry(rt: HostRuntime) {
        let mut rows: [u8; 0] = [];
        let mut log = Log::new(&mut rows);
        assert_eq!(rt; log.enter(1), Err(Refusal::LogFull));
        assert_eq!(rt; log.len(), 0);
    }
}
