//! What holds of archives and of their pages, whatever code keeps them: each function's contract is a law, and its body is empty.
ghost use Rattle.std.specs.Prelude.{◌≡◌, ℕ, List, [], ◌∷◌, ◌++◌, map, Some};
ghost use Rattle.rsm_paging.specs.Pages.{Follow, IsPage, row_numbered};
ghost use Rattle.rsm_paging.specs.declared.ask.Filter.{Filter};
ghost use Rattle.rsm_paging.specs.declared.ask.Page.{Page};
ghost use Rattle.rsm_paging.specs.declared.ask.PageAsk.{PageAsk};
ghost use Rattle.rsm_paging.specs.declared.ask.Row.{Row};
ghost use Rattle.archive_table.specs.Archives.{Said, archive_of, with_row};
ghost use Rattle.archive_table.specs.Pages.{page_of, shown};

/// What is kept after one message more is the last 10,000 of all, numbered from 1.
pub fn archives_grow()
    ensures { (xs : List Said) (x : Said) → archive_of (xs ++ x ∷ []) ≡ with_row x.peer x.text x.moment (archive_of xs) }
{}

/// A page that is the one asked for is what the definition gives, and the ids that it tells are those of the rows that it shows.
pub fn pages_are_one()
    ensures page { (rows : List Row) (f : Filter) (ask : PageAsk) (page : Page) → IsPage rows f ask page → page ≡ page_of rows f ask }
    ensures rows { (n : ℕ) (rows : List Row) (f : Filter) (ask : PageAsk) → Follow n rows
        → map (λ id. row_numbered (Some id) rows) (page_of rows f ask).rows ≡ map Some (shown rows f ask) }
{}
