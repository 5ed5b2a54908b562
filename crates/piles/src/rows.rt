// The rows of a source, listed.
ghost use Rattle.std.specs.Prelude.{◌≡◌};

use ledger::row::Row;
use std::alloc::{AllocError, Global};

// The first rows, up to so many, each asked for by the key of the one before.
pub fn list_rows<S, R: Row, F: Fn(&mut S, &Option<R::Key>) -> Option<R>>(
    alloc: Global,
    source: &mut S,
    most: usize,
    next: F,
) -> Result<Vec<R>, AllocError>
    requires callable { F.IsAlwaysCallable next }
    requires same { (s : _) (after : _) (row : _) (t : _) → F.post next s after row t → t.now ≡ s.now }
    ensures { source.new ≡ source.old }
{
    let mut rows = Vec::new(alloc);
    let mut key = None;
    for _ in 0..most {
        let Some(row) = next(source, &key) else {
            break;
        };
        key = Some(row.key());
        rows.push(row)?;
    }
    Ok(rows)
}
