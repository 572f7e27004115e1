// is_volatile (datafusion-expr Expr), and the functions that make a predicate expensive: those in an expression.
ghost use Rattle.std.specs.Prelude.{◌≡◌, List, ◌<◌, get_or};
ghost use Rattle.image.specs.Subtrees.{tree_of};
ghost use Rattle.plan.specs.Syntax.{Expr};
ghost use Rattle.rewrite.specs.Utils.{any_fn, is_volatile_expr};
ghost use Rattle.conjuncts.specs.Functions.{fn_here, fn_in, marked};
ghost use Rattle.conjuncts.specs.Items.{FALSE, Item, Known, Lists, Present};

use crate::items::item_tree;
use crate::lists::{Conjuncts, item_at};
use image::records::Label;
use image::trees::Stretch;
use plan::kinds::FUNCTION;
use plan::words::{VOLATILE, VOLATILE_LEAFWARD};

// Which functions are asked for.
#[derive(Clone, Copy, Debug, PartialEq, Eq, Hash)]
pub enum Functions {
    All,
    Volatile,
}

impl Functions {
    // Whether a function with these marks is one of them.
    fn include(self, marks: usize) -> bool
        ensures { result ≡ marked self marks }
    {
        match self {
            Functions::All => true,
            Functions::Volatile => (marks == VOLATILE) | (marks == VOLATILE_LEAFWARD),
        }
    }
}

// Whether the record is a function that is asked for.
fn is_function(label: Label, asked: Functions) -> bool
    ensures { result ≡ fn_here (marked asked) label }
{
    (label.kind == FUNCTION) & asked.include(label.q)
}

// Whether the tree holds such a function.
pub fn has_function<const N: usize>(tree: Stretch<'_, N>, asked: Functions) -> bool
    ensures { result ≡ fn_in (marked asked) (tree_of tree.entry) }
{
    if is_function(tree.label(), asked) {
        return true;
    }
    for child in tree.children() {
        if has_function(child, asked) {
            return true;
        }
    }
    false
}

// Whether the conjunct i of c holds such a function.
pub fn function_at(s: &[u8], c: Conjuncts, i: usize, asked: Functions) -> bool
    requires known { Known s.now c }
    requires i_lt_len { i < c.len }
    ensures { (es : List Expr) → Lists s.now c es → result ≡ any_fn (marked asked) (get_or es i FALSE) }
{
    match item_tree(s, item_at(c, i)) {
        Some(tree) => has_function(tree, asked),
        None => false,
    }
}

// Whether the item n holds a volatile function.
pub fn is_volatile(s: &[u8], n: usize) -> bool
    requires { Present s.now n }
    ensures { (e : Expr) → Item s.now n e → result ≡ is_volatile_expr e }
{
    match item_tree(s, n) {
        Some(tree) => has_function(tree, Functions::Volatile),
        None => false,
    }
}
