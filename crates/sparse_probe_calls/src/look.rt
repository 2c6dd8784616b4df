// The calls that write no cell of a set.
use probe_parts::reply;
use probe_parts::reply::Reply;
use probe_parts::turn::Turn;
use rules::Value;
use sparse_inner::Sparse;
use sparse_probe_parts::answer::{begun, walked};
use sparse_probe_parts::call::Call;
use sparse_values::{ComplementCursor, HeldCursor};

pub fn ask(call: Call, s: Sparse, ind: &[u32], val: &[u32], v: Value) -> Reply {
    match call {
        Call::Contains => sparse::contains(s, ind, val, v).into(),
        Call::Size => sparse::size(s, ind, val).into(),
        Call::IsEmpty => sparse::is_empty(s, ind, val).into(),
        Call::IsFixed => sparse::is_fixed(s, ind, val).into(),
        Call::Min => sparse::min(s, ind, val).into(),
        Call::Max => sparse::max(s, ind, val).into(),
        Call::First => sparse::first(s, ind, val).into(),
        Call::Last => sparse::last(s, ind, val).into(),
        Call::UniverseSize => sparse::universe_size(s, ind, val).into(),
        Call::MinUniverseValue => sparse::min_universe_value(s, ind, val).into(),
        Call::MaxUniverseValue => sparse::max_universe_value(s, ind, val).into(),
        Call::ComplementSize => sparse::complement_size(s, ind, val).into(),
        Call::ShouldUseComplement => sparse::should_use_complement(s, ind, val).into(),
        Call::CurrentSize => sparse::current_size(s, ind, val).into(),
        _ => reply::none(),
    }
}

// What is left of a cursor that stood at `at`.
pub fn walk(call: Call, s: Sparse, ind: &[u32], val: &[u32], at: u32) -> Turn {
    match call {
        Call::Iter => begun(sparse_values::iter().at),
        Call::Next => {
            let step = sparse_values::next(s, ind, val, HeldCursor { at });
            walked(step.cursor.at, step.answer)
        }
        Call::ComplementIter => begun(sparse_values::complement_iter().at),
        _ => {
            let step = sparse_values::complement_next(s, ind, val, ComplementCursor { at });
            walked(step.cursor.at, step.answer)
        }
    }
}
