// An id beside a list of ids.
ghost use Rattle.std.specs.Prelude.{◌≡◌};
ghost use Rattle.std.specs.List.{list_all, list_any};
ghost use Rattle.ancestry.specs.Ids.{same_id};

use ancestry::Id;

/// Whether the id stands in the list, by its number. A slice's own `contains` says it of the words alone.
pub(crate) fn contains(list: &[Id], id: Id) -> bool
    ensures { result ≡ list_any (λ other. same_id other id) list.now }
{
    list.iter().any(|other| *other == id)
}

/// Whether no id of the list differs from this one.
pub(crate) fn all_same(list: &[Id], id: Id) -> bool
    ensures { result ≡ list_all (same_id id) list.now }
{
    list.iter().all(|other| id == *other)
}
