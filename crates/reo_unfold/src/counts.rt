//! How much a connector unfolds to, counted without unfolding it.
ghost use Rattle.std.specs.Prelude.{◌≡◌, ℕ, List, max, length};
ghost use Rattle.std.specs.List.{sum_by, fold};
ghost use Rattle.reo_trees.specs.declared.items.Item.{Item as AnItem};
ghost use Rattle.reo_flat.specs.Unfolding.{Meaning, uses_in, depth_in, placed_in};
ghost use Rattle.reo_flat.specs.Counts.{IsSizeOf, AreSizes};

use reo_flat::Sizes;
use reo_rules::Names;
use reo_trees::{Item, ItemForm};

/// What an item unfolds to, by the sizes of the connectors before.
fn item_sizes(names: &Names, table: &[Sizes], form: &ItemForm) -> Sizes
    requires { length table.now ≡ length names.now }
    ensures { (known : List Meaning) → AreSizes known names.now table.now → IsSizeOf
        (uses_in known form.now) (depth_in known form.now) (placed_in known form.now) result }
{
    match form {
        ItemForm::Node { .. } => Sizes {
            uses: 0,
            depth: 0,
            placed: 0,
        },
        ItemForm::Joined { .. } => Sizes {
            uses: 0,
            depth: 0,
            placed: 1,
        },
        ItemForm::Used { name, .. } => match names.find(name.as_slice()) {
            Some(number) => {
                let used = table[number];
                Sizes {
                    uses: used.uses.saturating_add(1).min(65_537),
                    depth: used.depth.saturating_add(1).min(65),
                    placed: used.placed,
                }
            }
            None => Sizes {
                uses: 1,
                depth: 1,
                placed: 0,
            },
        },
    }
}

/// What the items of a connector unfold to, by the sizes of the connectors before.
pub(crate) fn connector_sizes(names: &Names, table: &[Sizes], items: &[Item]) -> Sizes
    requires { length table.now ≡ length names.now }
    ensures { (known : List Meaning) → AreSizes known names.now table.now → IsSizeOf (sum_by (λ
        (i : AnItem). uses_in known i.form) items.now) (fold (λ most (i : AnItem). max most
        (depth_in known i.form)) 0 items.now) (sum_by (λ
        (i : AnItem). placed_in known i.form) items.now) result }
{
    let mut total = Sizes {
        uses: 0,
        depth: 0,
        placed: 0,
    };
    for item in items {
        let one = item_sizes(names, table, &item.form);
        total = Sizes {
            uses: total.uses.saturating_add(one.uses).min(65_537),
            depth: total.depth.max(one.depth),
            placed: total.placed.saturating_add(one.placed).min(4_097),
        };
    }
    total
}
