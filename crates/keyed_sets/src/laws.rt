// Laws of a set's rows as a map from key to body, and of an open set beside others. They have no code.
ghost use Rattle.std.specs.Prelude.{◌≡◌, ℕ, List, None, Some, Contains, map, if◌then◌else◌};
ghost use Rattle.std.specs.Str.{bytes_eq};
ghost use Rattle.hal_base.specs.declared.pages.SetId.{SetId};
ghost use Rattle.hal_base.specs.ShelfCalls.{ShelfView, ChangedIn, GrownBy};
ghost use Rattle.keyed_sets.specs.declared.row.RowShape.{RowShape};
ghost use Rattle.keyed_sets.specs.declared.set.KeyedSet.{KeyedSet};
ghost use Rattle.keyed_sets.specs.Calls.{IsOpened};
ghost use Rattle.keyed_sets.specs.Layout.{Row};
ghost use Rattle.keyed_sets.specs.Map.{RowsRise, lookup, rows_of, with_row, without_row};

/// The rows of a set rise by key, each key once, and so they do with a row put in or taken away.
pub fn rows_rise()
    ensures of_pages { (shape : RowShape) (pages : List (List ℕ)) → RowsRise (rows_of shape pages) }
    ensures put { (row : Row) (rows : List Row) → RowsRise rows → RowsRise (with_row row rows) }
    ensures removed { (key : List ℕ) (rows : List Row) → RowsRise rows → RowsRise (without_row key rows) }
{}

/// A key's body after a row was put in or taken away: that of the row under its own key, as before under all others.
pub fn each_change_is_of_one_key()
    ensures put { (key : List ℕ) (row : Row) (rows : List Row) → RowsRise rows →
        lookup key (with_row row rows) ≡ (if bytes_eq (row.0) key then Some (row.1) else lookup key rows) }
    ensures removed { (gone key : List ℕ) (rows : List Row) → RowsRise rows →
        lookup key (without_row gone rows) ≡ (if bytes_eq gone key then None else lookup key rows) }
{}

/// A row put over another of its key stands in that one's place, and all others stay. Of one key there is one body.
pub fn a_row_is_put_over_another()
    ensures over { (row : Row) (body : List ℕ) (rows : List Row) → RowsRise rows → lookup (row.0) rows ≡ Some body →
        with_row row rows ≡ map (λ (other : Row). if bytes_eq (other.0) (row.0) then row else other) rows }
    ensures one { (key body : List ℕ) (rows : List Row) (row : Row) → RowsRise rows → lookup key rows ≡ Some body →
        Contains rows row → row.0 ≡ key → row.1 ≡ body }
{}

/// A set stays open across calls that change pages of another data set or add pages to it, as those of another set do.
pub fn others_leave_a_set_open()
    ensures changed { (keyed : KeyedSet) (set : SetId) (old new : ShelfView) →
        IsOpened keyed old → (keyed.set ≡ set → ⊥) → ChangedIn set old new → IsOpened keyed new }
    ensures grown { (keyed : KeyedSet) (count : ℕ) (set : SetId) (old new : ShelfView) →
        IsOpened keyed old → (keyed.set ≡ set → ⊥) → GrownBy count set old new → IsOpened keyed new }
{}
