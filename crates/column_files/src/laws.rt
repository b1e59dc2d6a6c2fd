//! Laws for the crates above.
ghost use Rattle.std.specs.Prelude.{◌≡◌, ◌+◌, min, ℕ, List, [], ◌++◌, length};
ghost use Rattle.line_reader.specs.Lines.{max_count};
ghost use Rattle.column_files.specs.Lines.{LinesTo};
ghost use Rattle.column_files.specs.LineItems.{LineItem, AreItems};

/// A law of lines that are read one after another, as by [`crate::LineColumns`]: the first lines of
/// a text and those behind them are its first lines, and give the columns and the bad lines of both.
/// So where no text is left, what calls answered is what [`crate::open`] reads of all. There is
/// nothing to run.
pub fn columns_follow()
    ensures none { (text : List ℕ) → LinesTo text [] text }
    ensures lines { (lines more : List (List ℕ)) (text rest later : List ℕ)
        → LinesTo text lines rest → LinesTo rest more later → LinesTo text (lines ++ more) later }
    ensures items { (n m : ℕ) (lines more : List (List ℕ)) (xs ys : List LineItem)
        → AreItems n lines xs → min m max_count ≡ min (n + length lines) max_count → AreItems m more ys
        → AreItems n (lines ++ more) (xs ++ ys) }
{}
