// The types of the fields that a Filter's predicate stands over.
ghost use Rattle.std.specs.Prelude.{◌≡◌, ◌≤◌, length, take};
ghost use Rattle.image.specs.Limits.{max_fields};
ghost use Rattle.image.specs.Subtrees.{forest};
ghost use Rattle.check_fields.specs.Fields.{input, inputs};
ghost use Rattle.check_fields.specs.Rules.{types_in};

use check_types::places::{first_plan, place_type};
use image::limits::MAX_FIELDS;
use image::trees::Stretches;

// The types of the n fields of the first plan among the trees, by place.
pub fn field_types<const N: usize>(trees: Stretches<'_, N>, n: usize) -> [usize; MAX_FIELDS]
    requires { n ≤ max_fields }
    ensures { length (input 0 (inputs (forest trees.entry))) ≡ n → take n result ≡ types_in (input 0 (inputs (forest trees.entry))) }
{
    let fields = first_plan(trees);
    let mut types = [0usize; MAX_FIELDS];
    for k in 0..n {
        types[k] = place_type(fields, k);
    }
    types
}
