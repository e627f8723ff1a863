// Laws of pointers and of the indirect list. They have no code.
ghost use Rattle.std.specs.Prelude.{◌≡◌, ◌&&◌, ◌==◌, ◌<◌, ◌≤◌, ◌^◌, ℕ, List, All, length, take, drop, None, Some, if◌then◌else◌};
ghost use Rattle.hal_base.specs.declared.place.Ilk.{Ilk};
ghost use Rattle.keyed_sets.specs.Layout.{Row};
ghost use Rattle.keyed_sets.specs.Map.{RowsRise, with_row, without_row, written_over};
ghost use Rattle.eps_pointers.specs.declared.pointer.Eps.{Eps};
ghost use Rattle.eps_pointers.specs.declared.pointer.Ile.{Ile};
ghost use Rattle.eps_pointers.specs.Layout.{IsName, IsEps, IsIle, eps_bytes, eps_in, home_bytes, ile_bytes, ile_in, list_key};
ghost use Rattle.eps_pointers.specs.Listed.{entry_in, list_row, same_key};

use keyed_sets::each_change_is_of_one_key;

/// What is written reads back, and what is read is written the same. Number and address written over those of a pointer
/// leave the rest of it, and what stands behind it.
pub fn bytes_read_back()
    ensures pointer { (eps : Eps) → IsEps eps → eps_in (eps_bytes eps) ≡ eps }
    ensures entry { (ile : Ile) → IsIle ile → ile_in (ile_bytes ile) ≡ ile }
    ensures pointer_bytes { (bytes : List ℕ) → length bytes ≡ 16 → All (λ byte. byte < 256) bytes → eps_bytes (eps_in bytes) ≡ bytes }
    ensures entry_bytes { (bytes : List ℕ) → length bytes ≡ 6 → All (λ byte. byte < 256) bytes → ile_bytes (ile_in bytes) ≡ bytes }
    ensures healed { (bytes : List ℕ) (number addr : ℕ) → 16 ≤ length bytes → number < 2 ^ 16 → addr < 2 ^ 32 →
        eps_in (take 16 (written_over 2 (home_bytes number addr) bytes)) ≡ record (eps_in (take 16 bytes)) { number = number; addr = addr } }
    ensures behind { (bytes : List ℕ) (number addr : ℕ) → 16 ≤ length bytes → drop 16 (written_over 2 (home_bytes number addr) bytes) ≡ drop 16 bytes }
    ensures one_key { (a b : Ilk) (m n : ℕ) → IsName a → IsName b → list_key a m ≡ list_key b n → (a ≡ b) × (m ≡ n) }
{}

/// The entry under a name and a code after another was set or dropped: as it was, but under the same name and code.
pub fn each_entry_is_its_own()
    ensures set { (a b : Ilk) (m n : ℕ) (ile : Ile) (rows : List Row) → IsName a → IsName b → IsIle ile → RowsRise rows →
        entry_in (with_row (list_row a m ile) rows) b n ≡ (if same_key a m b n then Some ile else entry_in rows b n) }
    ensures dropped { (a b : Ilk) (m n : ℕ) (rows : List Row) → IsName a → IsName b → RowsRise rows →
        entry_in (without_row (list_key a m) rows) b n ≡ (if same_key a m b n then None else entry_in rows b n) }
{
    each_change_is_of_one_key();
}
