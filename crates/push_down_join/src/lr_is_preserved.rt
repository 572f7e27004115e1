// lr_is_preserved (169 to 182), on_lr_is_preserved (185 to 187): to which inputs of a join predicates may move, by its kind.
ghost use Rattle.std.specs.Prelude.{◌≡◌};
ghost use Rattle.plan.specs.WordValues.{join_of};
ghost use Rattle.rewrite.specs.PushDownFilter.{is_inner, left_preserved, on_left_preserved, on_right_preserved, right_preserved};

use plan::words::JoinKind;

// Whether predicates may move to the left input of a join, and to its right one.
#[derive(Clone, Copy)]
pub struct Preserved {
    pub left: bool,
    pub right: bool,
}

// lr_is_preserved: of a predicate above a join of this kind. A side whose rows the join pads with NULLs keeps none out.
pub fn lr_is_preserved(kind: JoinKind) -> Preserved
    ensures { (result.left ≡ left_preserved (join_of kind)) × (result.right ≡ right_preserved (join_of kind)) }
{
    let (left, right) = match kind {
        JoinKind::Inner => (true, true),
        JoinKind::Left | JoinKind::LeftSemi | JoinKind::LeftAnti => (true, false),
        JoinKind::Right | JoinKind::RightSemi | JoinKind::RightAnti => (false, true),
        JoinKind::Full => (false, false),
    };
    Preserved { left, right }
}

// on_lr_is_preserved: of a predicate of its own filter. A side whose rows all come out again loses none to it.
pub fn on_lr_is_preserved(kind: JoinKind) -> Preserved
    ensures { (result.left ≡ on_left_preserved (join_of kind)) × (result.right ≡ on_right_preserved (join_of kind)) }
{
    let (left, right) = match kind {
        JoinKind::Inner | JoinKind::LeftSemi | JoinKind::RightSemi => (true, true),
        JoinKind::Left | JoinKind::LeftAnti => (false, true),
        JoinKind::Right | JoinKind::RightAnti => (true, false),
        JoinKind::Full => (false, false),
    };
    Preserved { left, right }
}

// An Inner join: predicates become its conditions, and others are inferred from its keys.
pub fn is_inner(kind: JoinKind) -> bool
    ensures { result ≡ is_inner (join_of kind) }
{
    matches!(kind, JoinKind::Inner)
}
