ghost use Rattle.std.specs.Prelude.{◌≡◌, ◌^◌, ◌≤◌, IfOk, length};
ghost use Rattle.splits.specs.Table.{FollowEachOther, splits_of};

use peg_text::NoMemory;
use std::alloc::Global;

/// The most splits of a file.
const MOST_SPLITS: u64 = 4096;

/// A part of a file, by the places of its bytes: those from `start` on that stand before `end`.
#[derive(Clone, Copy, Debug, PartialEq, Eq)]
pub struct Split {
    pub start: u64,
    pub end: u64,
}

/// The splits of a file of `len` bytes, in order, where splits of `split` bytes are asked for. The last one may be
/// shorter, and all are longer where there would be more than 4,096.
pub fn split_table(alloc: Global, len: u64, split: u64) -> Result<Vec<Split>, NoMemory>
    requires positive { 1 ≤ split }
    requires small_len { len ≤ 2 ^ 60 }
    requires small_split { split ≤ 2 ^ 60 }
    ensures exact { IfOk result (λ splits. splits.items ≡ splits_of len split) }
    ensures follow { IfOk result (λ splits. FollowEachOther 0 splits.items len) }
    ensures few { IfOk result (λ splits. length splits.items ≤ 4096) }
{
    let length = split.max(len.div_ceil(MOST_SPLITS));
    let count = len.div_ceil(length);
    let mut splits = Vec::with_capacity(alloc, count as usize)?;
    for number in 0..count {
        splits.push(Split {
            start: number * length,
            end: ((number + 1) * length).min(len),
        })?;
    }
    Ok(splits)
}
