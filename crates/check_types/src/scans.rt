// Scans of one table have the field types of the first of them.
ghost use Rattle.std.specs.Prelude.{◌≡◌, []};
ghost use Rattle.image.specs.Lowest.{alone};
ghost use Rattle.image.specs.Subtrees.{forest, tree_of};
ghost use Rattle.acceptance.specs.Types.{same_types};
ghost use Rattle.check_fields.specs.Fields.{made};
ghost use Rattle.check_fields.specs.Rules.{scan_types, seen, types_in};
ghost use Rattle.check_fields.specs.Scopes.{scope_at};
ghost use Rattle.check_types.specs.Standing.{Whole};

use crate::places::same_fields;
use check_fields::questions::Question;
use check_fields::scopes::{Scope, View, held_in};
use image::limits::RECORD_BYTES;
use image::records::{KIND, P, record_at};
use image::trees::{Stretches, Subtree};
use image::words::word_at;
use plan::kinds::TABLE_SCAN;

// The fields that the parts of a scan make.
fn scanned<'a, const N: usize>(parts: Stretches<'a, N>) -> Scope<'a, N>
    ensures { seen (scope_at result) ≡ made [] (forest parts.entry) }
{
    Scope {
        trees: parts,
        view: View::Parts,
    }
}

// Whether the fields that the parts make have the types of the whole image's first scan of the table. Records stand parents first, so that
// is the lowest.
pub fn as_scanned<const N: usize>(root: Subtree, table: usize, parts: Stretches<'_, N>) -> bool
    requires { Whole root }
    ensures { result ≡ same_types (types_in (made [] (forest parts.entry))) (scan_types table [] (alone (tree_of root.entry))) }
{
    let fields = scanned(parts);
    for number in 0..root.image.len() / RECORD_BYTES {
        let record = record_at(root.image, number);
        if (word_at(record, KIND) == TABLE_SCAN) & (word_at(record, P) == table) {
            let scan = Subtree::at(root.image, number);
            return same_fields(fields, scanned(scan.children()));
        }
    }
    held_in(fields, Question::Every) == 0
}
