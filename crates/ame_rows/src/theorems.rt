//! Theorems: promises of this crate that nothing above it cites, each the statement of a lemma.

ghost use Rattle.std.specs.Prelude.{◌≡◌, ◌<◌, ℕ, Some, length, option_map, slice_get, ◌≢◌, true};
ghost use Rattle.ame_store.specs.declared.cell.Cell.{Cell};
ghost use Rattle.ame_store.specs.Cells.{IsOwnedBy, IsFree};
ghost use Rattle.ame_rows.specs.MemoryView.{MemoryView};
ghost use Rattle.ame_rows.specs.Consistent.{IsConsistent};
ghost use Rattle.ame_rows.specs.Committed.{committed};
ghost use Rattle.ame_rows.specs.LettingGo.{released_by, released_all};
ghost use Rattle.ame_term.specs.declared.types.Sort.{Sort};
ghost use Rattle.ame_term.specs.declared.types.TyNo.{TyNo};
ghost use Rattle.ame_rows.specs.Access.{put_at, born};

/// Shows that a release commits what the seat has in place in the cells that it owns, and leaves every other cell and what is committed there.
pub fn releases_commit<V>()
    ensures cells { (seat j : ℕ) (c : MemoryView V)
        → slice_get (released_all seat c).cells j ≡ option_map (released_by seat) (slice_get c.cells j) }
    ensures own { (seat j : ℕ) (cell : Cell V) (c : MemoryView V) → slice_get c.cells j ≡ Some cell → IsOwnedBy seat cell
        → committed (released_all seat c) j ≡ Some cell.value }
    ensures others { (seat j : ℕ) (c : MemoryView V) → IsConsistent c → seat < length c.rows
        → ((cell : Cell V) → slice_get c.cells j ≡ Some cell → IsOwnedBy seat cell → ⊥)
        → committed (released_all seat c) j ≡ committed c j }
{}

/// Shows that a write or an allocation of unprotected code is committed at once, and nothing else changes.
pub fn unprotected_code_commits<V>()
    ensures put { (j : ℕ) (value : V) (cell : Cell V) (c : MemoryView V) → slice_get c.cells j ≡ Some cell → IsFree cell → cell.live ≡ true
        → committed (put_at j value c) j ≡ Some value }
    ensures put_others { (l j : ℕ) (value : V) (c : MemoryView V) → j ≢ l → committed (put_at l value c) j ≡ committed c j }
    ensures born { (sort : Sort) (ty : TyNo) (value : V) (c : MemoryView V) → committed (born sort ty value c) (length c.cells) ≡ Some value }
    ensures born_others { (j : ℕ) (sort : Sort) (ty : TyNo) (value : V) (c : MemoryView V) → j ≢ length c.cells
        → committed (born sort ty value c) j ≡ committed c j }
{}
