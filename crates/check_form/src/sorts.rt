// The sorts of records that a pattern of children names.
ghost use Rattle.std.specs.Prelude.{◌≡◌};
ghost use Rattle.check_form.specs.Sorts.{sort_of};

use plan::kinds::{is_expression, is_plan};

// Which records a place in a pattern takes.
#[derive(Clone, Copy, Debug, PartialEq, Eq, Hash)]
pub enum Sort {
    Expression,
    Plan,
    // Those of just this kind.
    Kind(usize),
}

// Whether a record of the kind is of the sort.
pub fn of_sort(kind: usize, sort: Sort) -> bool
    ensures { result ≡ sort_of sort kind }
{
    match sort {
        Sort::Expression => is_expression(kind),
        Sort::Plan => is_plan(kind),
        Sort::Kind(k) => kind == k,
    }
}
