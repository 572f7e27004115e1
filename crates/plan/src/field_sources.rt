// Where a plan has its fields from, by the kind of its record: what the check's search for a field and the rewrite's lists of fields go by.
ghost use Rattle.std.specs.Prelude.{◌≡◌};
ghost use Rattle.plan.specs.Kinds.{what_of};
ghost use Rattle.plan.specs.FieldSources.{gives_both, makes, own, role};
ghost use Rattle.plan.specs.FieldSources as F;

use crate::kinds::{PartKind, PlanKind, What, what_of};
use crate::words::{FULL, RIGHT_ANTI, RIGHT_SEMI};

// Where a record has its fields from.
#[derive(Clone, Copy, Debug, PartialEq, Eq, Hash)]
pub enum Role {
    // It is no plan.
    NoPlan,
    // Its parts make them.
    Creates,
    // Its inputs, as a join.
    Joins,
    // Its input, renamed.
    Renames,
    // Its input, and its parts make others.
    Extends,
    // Its first input.
    Passes,
}

// Whether a part makes a field.
#[inline]
pub fn makes_field(kind: usize) -> bool
    ensures { result ≡ makes (what_of kind) }
{
    match what_of(kind) {
        What::Part(PartKind::PairPart | PartKind::KeyPart) => false,
        What::Part(_) => true,
        _ => false,
    }
}

// Where a record of the kind has its fields from.
#[inline]
pub fn role_of(kind: usize) -> Role
    ensures { result ≡ role (what_of kind) }
{
    match what_of(kind) {
        What::Plan(PlanKind::TableScan | PlanKind::Projection | PlanKind::Aggregate) => {
            Role::Creates
        }
        What::Plan(PlanKind::Join) => Role::Joins,
        What::Plan(PlanKind::SubqueryAlias) => Role::Renames,
        What::Plan(PlanKind::Window) => Role::Extends,
        What::Plan(_) => Role::Passes,
        _ => Role::NoPlan,
    }
}

// Whether all its fields are made by its parts.
pub fn creates(role: Role) -> bool
    ensures { result ≡ F.creates role }
{
    role == Role::Creates
}

// Whether they are its inputs', as a join's.
pub fn joins(role: Role) -> bool
    ensures { result ≡ F.joins role }
{
    role == Role::Joins
}

// Whether its fields get its qualifier.
pub fn renames(role: Role) -> bool
    ensures { result ≡ F.renames role }
{
    role == Role::Renames
}

// Whether the fields that its parts make come behind its input's.
pub fn extends(role: Role) -> bool
    ensures { result ≡ F.extends role }
{
    role == Role::Extends
}

// Whether the fields of its second input come behind those of its first: a join of the kind p that is no semi or anti join.
#[inline]
pub fn gives_both(role: Role, p: usize) -> bool
    ensures { result ≡ gives_both role p }
{
    joins(role) & (p <= FULL)
}

// The input whose fields come first: of a semi or anti join of the kind p its own side.
#[inline]
pub fn own_input(role: Role, p: usize) -> usize
    ensures { result ≡ own role p }
{
    if joins(role) & ((p == RIGHT_SEMI) | (p == RIGHT_ANTI)) {
        return 1;
    }
    0
}
