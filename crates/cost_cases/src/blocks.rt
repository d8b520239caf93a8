use crate::lists::shown;
use crate::numbers::number;
use sqlite_items::Items;
use std::alloc::{AllocError, Global};
use wsym_formula::leaf_costs;
use wsym_terms::{Tree, Use};

/// The costs of a block, where they are below 2^127.
pub(crate) fn leaf(
    alloc: Global,
    base: &str,
    miss: &str,
    uses: &str,
) -> Result<String, AllocError> {
    let base = number(base);
    let miss = u64::try_from(number(miss)).unwrap_or(0);
    let uses = u64::try_from(number(uses)).unwrap_or(0);
    if base < 1 << 126 && u128::from(miss) * u128::from(uses) < 1 << 126 {
        return shown(alloc, &leaf_costs(alloc, base, miss, uses)?);
    }
    String::from_str(alloc, "too dear")
}

/// The size of the tree of a block that uses one line.
pub(crate) fn block_size(alloc: Global) -> Result<String, AllocError> {
    let used = Use {
        line: 2048,
        scope: 0,
    };
    let block = Tree::Leaf {
        block: 0,
        base: 2,
        uses: Items::from_slice(alloc, [used].as_slice())?,
    };
    format!(in alloc; "{}", block.size())
}
