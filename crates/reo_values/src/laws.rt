//! Laws of items, of their texts and of names.
ghost use Rattle.std.specs.Prelude.{◌≡◌};
ghost use Rattle.reo_values.specs.ItemText.{text_of};
ghost use Rattle.reo_values.specs.Kind.{IsIn, ItemTestIsExact};
ghost use Rattle.reo_values.specs.Names.{NameTestIsExact};
ghost use Rattle.reo_values.specs.Valid.{IsValid};

use crate::{Kindred, Value};

/// No two items of one valid type have the same text.
pub fn one_item_for_each_text(a: &Value, b: &Value, kindred: &Kindred)
    requires valid { IsValid kindred.now }
    requires a_in { IsIn a.now kindred.now }
    requires b_in { IsIn b.now kindred.now }
    requires same { text_of a.now kindred.now ≡ text_of b.now kindred.now }
    ensures { a.now ≡ b.now }
{}

/// The test of items is true exactly of an item of the type.
pub fn item_test_is_exact()
    ensures { ItemTestIsExact }
{}

/// The test of names is true exactly of a name.
pub fn name_test_is_exact()
    ensures { NameTestIsExact }
{}
