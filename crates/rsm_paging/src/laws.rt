//! What pages have in common.
ghost use Rattle.std.specs.Prelude.{◌≡◌, List, None, map};
ghost use Rattle.rsm_paging.specs.Pages.{Rises, id_of, matching};
ghost use Rattle.rsm_paging.specs.Walks.{IsWalk, Step, come_last, kept_of, shown_by};
ghost use Rattle.rsm_paging.specs.declared.ask.Filter.{Filter};
ghost use Rattle.rsm_paging.specs.declared.ask.Row.{Row};

/// Pages that follow each other (XEP-0059, 2.2), each asked for after the last row of the one before, up to one that is complete: together they show the rows that are asked for, of those
/// that were kept when the first was asked for and those that came until the last was, each once and in their order.
pub fn pages_follow()
    ensures { (all : List Row) → Rises all → (f : Filter) (s : Step) (more : List Step) → IsWalk all f None s more
        → shown_by s more ≡ map id_of (matching f (kept_of all s.gone (come_last s more))) }
{}
