// A law of the entries of an index. It has no code.
ghost use Rattle.std.specs.Prelude.{ℕ, List};
ghost use Rattle.keyed_sets.specs.declared.row.RowShape.{RowShape};
ghost use Rattle.keyed_sets.specs.Map.{KeysRise};
ghost use Rattle.secondary_index.specs.declared.entry.Entry.{Entry};
ghost use Rattle.secondary_index.specs.Entries.{entries_of};

use keyed_sets::rows_rise;

/// The entries of an index rise by key, each key once.
pub fn entries_rise()
    ensures { (shape : RowShape) (pages : List (List ℕ)) → KeysRise (λ (entry : Entry). entry.key) (entries_of shape pages) }
{
    rows_rise();
}
