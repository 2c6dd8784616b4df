// The sparse set's calls as exported functions, for C and for whatever links to it.
//
// Each is the function of the same name in `pirozhkan_sparse`, and has no `requires` either.
#![tactic(auto)]

ghost use Rattle.std.specs.Prelude.{◌≡◌, List, ℕ, ℤ};
ghost use Rattle.sparse_make.specs.Calls.{new_of, from_values_of};
ghost use Rattle.reply.specs.Through.{left};
ghost use Rattle.pirozhkan_sparse.specs.Lent.{Cells, cells, begun, through, Worn, worn, parting, joining, answered, shown};
ghost use Rattle.pirozhkan_sparse.specs.Calls.{chute, removing, emptying, leaving_only, dropping_below, dropping_above, saved, restoring, uniting, whether_held, sizing, smallest, largest, values_into, text_into, saving_into};
ghost use Rattle.sparse_pairs.specs.Calls.{intersect_of, diff_of};

// ---- make

#[unsafe(no_mangle)]
pub extern "C" fn pirozhkan_sparse_new(
    ws: &mut [u32],
    ind: &mut [u32],
    val: &mut [u32],
    min: i32,
    max: i32,
) -> u64
    ensures { left {C = Cells} result (cells ws.new ind.new val.new) ≡ begun (new_of (chute min) (chute max)) (cells ws.old ind.old val.old) }
{
    pirozhkan_sparse::make::pirozhkan_sparse_new(ws, ind, val, min, max)
}

#[unsafe(no_mangle)]
pub extern "C" fn pirozhkan_sparse_new_from_values(
    ws: &mut [u32],
    ind: &mut [u32],
    val: &mut [u32],
    values: &[i32],
) -> u64
    ensures { left {C = Cells} result (cells ws.new ind.new val.new) ≡ begun (from_values_of values.now) (cells ws.old ind.old val.old) }
{
    pirozhkan_sparse::make::pirozhkan_sparse_new_from_values(ws, ind, val, values)
}

// ---- change

#[unsafe(no_mangle)]
pub extern "C" fn pirozhkan_sparse_remove(
    ws: &mut [u32],
    ind: &mut [u32],
    val: &mut [u32],
    value: i32,
) -> u64
    ensures { left {C = Cells} result (cells ws.new ind.new val.new) ≡ through (removing value) (cells ws.old ind.old val.old) }
{
    pirozhkan_sparse::change::pirozhkan_sparse_remove(ws, ind, val, value)
}

#[unsafe(no_mangle)]
pub extern "C" fn pirozhkan_sparse_remove_all(ws: &mut [u32], ind: &[u32], val: &[u32]) -> u64
    ensures { left {C = Cells} result (cells ws.new ind.now val.now) ≡ through emptying (cells ws.old ind.now val.now) }
{
    pirozhkan_sparse::change::pirozhkan_sparse_remove_all(ws, ind, val)
}

#[unsafe(no_mangle)]
pub extern "C" fn pirozhkan_sparse_remove_all_but(
    ws: &mut [u32],
    ind: &mut [u32],
    val: &mut [u32],
    value: i32,
) -> u64
    ensures { left {C = Cells} result (cells ws.new ind.new val.new) ≡ through (leaving_only value) (cells ws.old ind.old val.old) }
{
    pirozhkan_sparse::change::pirozhkan_sparse_remove_all_but(ws, ind, val, value)
}

#[unsafe(no_mangle)]
pub extern "C" fn pirozhkan_sparse_remove_below(
    ws: &mut [u32],
    ind: &mut [u32],
    val: &mut [u32],
    value: i32,
) -> u64
    ensures { left {C = Cells} result (cells ws.new ind.new val.new) ≡ through (dropping_below value) (cells ws.old ind.old val.old) }
{
    pirozhkan_sparse::change::pirozhkan_sparse_remove_below(ws, ind, val, value)
}

#[unsafe(no_mangle)]
pub extern "C" fn pirozhkan_sparse_remove_above(
    ws: &mut [u32],
    ind: &mut [u32],
    val: &mut [u32],
    value: i32,
) -> u64
    ensures { left {C = Cells} result (cells ws.new ind.new val.new) ≡ through (dropping_above value) (cells ws.old ind.old val.old) }
{
    pirozhkan_sparse::change::pirozhkan_sparse_remove_above(ws, ind, val, value)
}

#[unsafe(no_mangle)]
pub extern "C" fn pirozhkan_sparse_restore_state(
    ws: &mut [u32],
    ind: &[u32],
    val: &[u32],
    size: u32,
    min: u32,
    max: u32,
) -> u64
    ensures { left {C = Cells} result (cells ws.new ind.now val.now) ≡ through (restoring (saved size min max)) (cells ws.old ind.now val.now) }
{
    pirozhkan_sparse::change::pirozhkan_sparse_restore_state(ws, ind, val, size, min, max)
}

// ---- pairs

#[unsafe(no_mangle)]
pub extern "C" fn pirozhkan_sparse_intersect_with(
    ws: &mut [u32],
    ind: &mut [u32],
    val: &mut [u32],
    tws: &[u32],
    tind: &[u32],
    tval: &[u32],
    scratch: &mut [i32],
) -> u64
    ensures { left {C = Worn} result (worn (cells ws.new ind.new val.new) scratch.new) ≡ parting intersect_of (cells ws.old ind.old val.old) (cells tws.now tind.now tval.now) scratch.old }
{
    pirozhkan_sparse::pairs::pirozhkan_sparse_intersect_with(ws, ind, val, tws, tind, tval, scratch)
}

#[unsafe(no_mangle)]
pub extern "C" fn pirozhkan_sparse_diff_with(
    ws: &mut [u32],
    ind: &mut [u32],
    val: &mut [u32],
    tws: &[u32],
    tind: &[u32],
    tval: &[u32],
    scratch: &mut [i32],
) -> u64
    ensures { left {C = Worn} result (worn (cells ws.new ind.new val.new) scratch.new) ≡ parting diff_of (cells ws.old ind.old val.old) (cells tws.now tind.now tval.now) scratch.old }
{
    pirozhkan_sparse::pairs::pirozhkan_sparse_diff_with(ws, ind, val, tws, tind, tval, scratch)
}

#[unsafe(no_mangle)]
pub extern "C" fn pirozhkan_sparse_union_with(
    ws: &mut [u32],
    ind: &mut [u32],
    val: &mut [u32],
    tws: &[u32],
    tind: &[u32],
    tval: &[u32],
) -> u64
    ensures { left {C = Cells} result (cells ws.new ind.new val.new) ≡ joining uniting (cells ws.old ind.old val.old) (cells tws.now tind.now tval.now) }
{
    pirozhkan_sparse::pairs::pirozhkan_sparse_union_with(ws, ind, val, tws, tind, tval)
}

// ---- ask

#[unsafe(no_mangle)]
pub extern "C" fn pirozhkan_sparse_contains(ws: &[u32], ind: &[u32], val: &[u32], value: i32) -> u64
    ensures { result ≡ answered (whether_held value) (cells ws.now ind.now val.now) }
{
    pirozhkan_sparse::ask::pirozhkan_sparse_contains(ws, ind, val, value)
}

#[unsafe(no_mangle)]
pub extern "C" fn pirozhkan_sparse_size(ws: &[u32], ind: &[u32], val: &[u32]) -> u64
    ensures { result ≡ answered sizing (cells ws.now ind.now val.now) }
{
    pirozhkan_sparse::ask::pirozhkan_sparse_size(ws, ind, val)
}

#[unsafe(no_mangle)]
pub extern "C" fn pirozhkan_sparse_min(ws: &[u32], ind: &[u32], val: &[u32]) -> u64
    ensures { result ≡ answered smallest (cells ws.now ind.now val.now) }
{
    pirozhkan_sparse::ask::pirozhkan_sparse_min(ws, ind, val)
}

#[unsafe(no_mangle)]
pub extern "C" fn pirozhkan_sparse_max(ws: &[u32], ind: &[u32], val: &[u32]) -> u64
    ensures { result ≡ answered largest (cells ws.now ind.now val.now) }
{
    pirozhkan_sparse::ask::pirozhkan_sparse_max(ws, ind, val)
}

#[unsafe(no_mangle)]
pub extern "C" fn pirozhkan_sparse_values(
    ws: &[u32],
    ind: &[u32],
    val: &[u32],
    out: &mut [i32],
) -> u64
    ensures { left {C = List ℤ} result out.new ≡ shown (values_into out.old) (cells ws.now ind.now val.now) out.old }
{
    pirozhkan_sparse::ask::pirozhkan_sparse_values(ws, ind, val, out)
}

#[unsafe(no_mangle)]
pub extern "C" fn pirozhkan_sparse_text(ws: &[u32], ind: &[u32], val: &[u32], out: &mut [u8]) -> u64
    ensures { left {C = List ℕ} result out.new ≡ shown (text_into out.old) (cells ws.now ind.now val.now) out.old }
{
    pirozhkan_sparse::ask::pirozhkan_sparse_text(ws, ind, val, out)
}

#[unsafe(no_mangle)]
pub extern "C" fn pirozhkan_sparse_save_state(
    ws: &[u32],
    ind: &[u32],
    val: &[u32],
    out: &mut [u32],
) -> u64
    ensures { left {C = List ℕ} result out.new ≡ shown (saving_into out.old) (cells ws.now ind.now val.now) out.old }
{
    pirozhkan_sparse::ask::pirozhkan_sparse_save_state(ws, ind, val, out)
}
