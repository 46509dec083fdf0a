ghost use Rattle.std.specs.Prelude.{◌≡◌, ◌<◌, ◌++◌, ◌∷◌, ◌+◌, ◌-◌, [], true, None, Some, is_some, length, fold, option_map, IfSome, OnOk, OnErr, IsErrOf};
ghost use Rattle.std.specs.List.{flat_map, list_all};
ghost use Rattle.peg_text.specs.Lists.{GoesOnFrom};
ghost use Rattle.gimv_block.specs.Items.{items_of};
ghost use Rattle.gimv_block.specs.Rows.{RowsFit, take_in};
ghost use Rattle.gimv_diag.specs.DiagonalRules.{passed_from, raw_item_of};
ghost use Rattle.gimv_diag.specs.Held.{item_fits};

use gimv_base::{RoleFault, read_below};
use gimv_block::{around_colon, first_item, put};
use gimv_core::Gimv;

/// An entry between two blocks, by its offsets there.
#[derive(Clone, Copy, Drop)]
pub struct Item<W> {
    pub row: u32,
    pub column: u32,
    pub weight: W,
}

/// A line of items: the row's block, and how many items it has.
#[derive(Clone, Copy)]
pub struct Line {
    pub block: u32,
    pub count: usize,
}

/// An item between blocks of these sizes. `None` where the text is of another kind.
fn read_item<G: Gimv>(
    algorithm: &G,
    rows: u32,
    columns: u32,
    text: &[u8],
) -> Option<Item<G::Weight>>
    ensures { result ≡ raw_item_of (G.algebra algorithm.now) rows columns text.now }
{
    let (row, rest) = around_colon(text)?;
    let (column, weight) = around_colon(rest)?;
    let row = read_below(row, u64::from(rows))?;
    let column = read_below(column, u64::from(columns))?;
    let weight = algorithm.read_weight(weight)?;
    Some(Item {
        row,
        column,
        weight,
    })
}

/// Appends the items of a text. After a refusal some of them may have been appended.
fn read_items<G: Gimv>(
    algorithm: &G,
    rows: u32,
    columns: u32,
    text: &[u8],
    items: &mut Vec<Item<G::Weight>>,
) -> Result<(), RoleFault>
    ensures ok { OnOk result (option_map (λ more. items.old.items ++ more) (items_of (raw_item_of (G.algebra algorithm.now) rows columns) text.now) ≡ Some items.new.items) }
    ensures bad { IsErrOf result RoleFault.Bad → items_of (raw_item_of (G.algebra algorithm.now) rows columns) text.now ≡ None }
    ensures never_before { ¬ IsErrOf result RoleFault.BadBefore }
    ensures kept { GoesOnFrom items.old.items items.new.items }
{
    let mut left = Some(text);
    while let Some(text) = left {
        let (item, rest) = first_item(text);
        let Some(item) = read_item(algorithm, rows, columns, item) else {
            return Err(RoleFault::Bad);
        };
        items.push(item)?;
        left = rest;
    }
    Ok(())
}

/// Holds one more line of items. After a refusal the lists are as before.
pub fn hold<G: Gimv>(
    algorithm: &G,
    block: u32,
    rows: u32,
    columns: u32,
    text: &[u8],
    lines: &mut Vec<Line>,
    items: &mut Vec<Item<G::Weight>>,
) -> Result<(), RoleFault>
    ensures ok { OnOk result (IfSome (items_of (raw_item_of (G.algebra algorithm.now) rows columns) text.now) (λ more. (items.new.items ≡ items.old.items ++ more) × (lines.new.items ≡ lines.old.items ++ record { block = block; count = length more } ∷ []))) }
    ensures good { OnOk result (is_some (items_of (raw_item_of (G.algebra algorithm.now) rows columns) text.now) ≡ true) }
    ensures bad { IsErrOf result RoleFault.Bad → items_of (raw_item_of (G.algebra algorithm.now) rows columns) text.now ≡ None }
    ensures never_before { ¬ IsErrOf result RoleFault.BadBefore }
    ensures items_kept { OnErr result (items.new.items ≡ items.old.items) }
    ensures lines_kept { OnErr result (lines.new.items ≡ lines.old.items) }
{
    let before = items.len();
    match add_line(algorithm, block, rows, columns, text, lines, items) {
        Ok(()) => Ok(()),
        Err(fault) => {
            items.truncate(before);
            Err(fault)
        }
    }
}

/// Appends a line of items. After a refusal there is no more line, but some of the items may have been appended.
fn add_line<G: Gimv>(
    algorithm: &G,
    block: u32,
    rows: u32,
    columns: u32,
    text: &[u8],
    lines: &mut Vec<Line>,
    items: &mut Vec<Item<G::Weight>>,
) -> Result<(), RoleFault>
    ensures ok { OnOk result (option_map (λ more. items.old.items ++ more) (items_of (raw_item_of (G.algebra algorithm.now) rows columns) text.now) ≡ Some items.new.items) }
    ensures line { OnOk result (lines.new.items ≡ lines.old.items ++ record { block = block; count = length items.new.items - length items.old.items } ∷ []) }
    ensures bad { IsErrOf result RoleFault.Bad → items_of (raw_item_of (G.algebra algorithm.now) rows columns) text.now ≡ None }
    ensures never_before { ¬ IsErrOf result RoleFault.BadBefore }
    ensures items_kept { GoesOnFrom items.old.items items.new.items }
    ensures lines_kept { OnErr result (lines.new.items ≡ lines.old.items) }
{
    let before = items.len();
    read_items(algorithm, rows, columns, text, items)?;
    let count = items.len() - before;
    lines.push(Line { block, count })?;
    Ok(())
}

/// Puts what each item passes on of these values together with what the row at its offset has.
pub fn take_line<G: Gimv>(
    algorithm: &G,
    vals: &Vec<G::Val>,
    items: &[Item<G::Weight>],
    rows: &mut Vec<Option<G::Msg>>,
)
    requires vals_fit { list_all (G.algebra algorithm.now).fits_val vals.now.items ≡ true }
    requires rows_fit { RowsFit (G.algebra algorithm.now) rows.old.items }
    requires items_fit { list_all (item_fits (G.algebra algorithm.now) (length rows.old.items) (length vals.now.items)) items.now ≡ true }
    ensures is { rows.new.items ≡ fold (take_in (G.algebra algorithm.now)) rows.old.items (flat_map (passed_from (G.algebra algorithm.now) vals.now.items) items.now) }
    ensures rows_fit { RowsFit (G.algebra algorithm.now) rows.new.items }
    ensures as_many { length rows.new.items ≡ length rows.old.items }
{
    for place in 0..items.len() {
        let item = &items[place];
        let message = algorithm.combine2(&item.weight, &vals[item.column as usize]);
        put(algorithm, &mut rows[item.row as usize], message);
    }
}
