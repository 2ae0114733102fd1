//! What rows that are added one after the other leave.
ghost use Rattle.std.specs.Prelude.{◌≡◌, ◌++◌, ◌∷◌, [], List};
ghost use Rattle.rsm_paging.specs.declared.ask.Row.{Row};
ghost use Rattle.mam_archive.specs.Archives.{last_kept};

/// Where the rows that are kept are the last ones of all that were added, they still are when one more is.
pub fn kept_are_last()
    ensures { (all : List Row) (row : Row) → last_kept (last_kept all ++ row ∷ []) ≡ last_kept (all ++ row ∷ []) }
{}
