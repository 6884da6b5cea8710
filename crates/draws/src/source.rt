// A source of draws: rows of draws by number, and the draws of the present row still to come.
ghost use Rattle.std.specs.Prelude.{◌≡◌, ℕ, true, is_err};
ghost use Rattle.draws.specs.Sources.{FiniteOrEndless, drawn};
ghost use Rattle.runs.specs.Runs.{Draws};
ghost use Rattle.runs.specs.Telling.{DrawsFit};

use rows::refusal::Refusal;

// That the book stays, and that a refused draw leaves the source as it was, is said by each call: it holds of the source before and after.
pub trait DrawSource {
    // The draws of each row, which never alter.
    ghost book: { Self → ℕ → Draws };

    // The draws of the present row that are still to come.
    ghost coming: { Self → Draws };

    // Every draw of every row has 32 bits.
    ghost book_fits: { (s : Self) (row : ℕ) → DrawsFit (book s row) };

    // So has every draw to come.
    ghost coming_fits: { (s : Self) → DrawsFit (coming s) };

    // Every row is finite or endless: after a place with no draw there is none.
    ghost book_ends: { (s : Self) (row : ℕ) → FiniteOrEndless (book s row) };

    // So are the draws to come.
    ghost coming_ends: { (s : Self) → FiniteOrEndless (coming s) };

    // Gives the first draw to come. Where none is to come it is refused and alters nothing.
    fn draw(&mut self) -> Result<u32, Refusal>
        ensures answer { drawn (coming self.old) ≡ (result, coming self.new) }
        ensures book_kept { book self.new ≡ book self.old }
        ensures refused_unchanged { is_err result ≡ true → self.new ≡ self.old };

    // Makes the whole of a row the draws to come.
    fn start_row(&mut self, row: u32)
        ensures whole_row { coming self.new ≡ book self.old row }
        ensures book_kept { book self.new ≡ book self.old };
}
